// One record against the trace before it, which breaks no rule.
ghost use Rattle.std.specs.Prelude.{◌≡◌, List, ℕ, ◌≤◌, ◌<◌, length, get_or};
ghost use Rattle.trace.specs.Words.{Within, Marked, kind_of, who_of, epoch_at, counter_at, latest_of};
ghost use Rattle.trace.specs.Step.{Ready, Latest, counted, broken_of, Steps, Follows, lacks_of, rises_of, late_of, inside_of};

use crate::words::{Kind, Record};
use crate::{Rule, look};

// What is kept of the trace so far, beside the space, which has the numbers of the records at which the longest delivered
// sequence grew: all servers' sequences begin it. `counts` is how many transactions each server delivered, `len` the length of
// the longest, `top` the greatest epoch of a B. `seen` says from where to look for the B of the next new transaction: it lies
// behind the last one's, unless a rule is broken.
#[derive(Clone, Copy)]
pub struct State {
    pub counts: [usize; 7],
    pub len: usize,
    pub top: u64,
    pub seen: usize,
}

// An E: rule 1. `last` is the latest E or B of its epoch.
fn at_e(r: Record, s: State, last: Option<usize>) -> Result<State, Rule>
    requires { (kind_of r.recs.now r.i ≡ 1) × (counted last ≡ latest_of r.recs.now (epoch_at r.recs.now r.i) r.i) }
    ensures { (sp : List ℕ) → Steps r.entry.recs.now sp r.entry.i s result sp }
{
    match last {
        None => Ok(s),
        Some(_) => Err(Rule::OneE),
    }
}

// Rule 2 at a B: the latest record of its epoch is the E of its server, or a B of it with the counter before.
fn follows(r: Record, last: Option<usize>) -> bool
    requires { (1 ≤ counter_at r.recs.now r.i) × (counted last ≡ latest_of r.recs.now (epoch_at r.recs.now r.i) r.i) }
    ensures { Follows r.entry.recs.now r.entry.i result }
{
    let Some(j) = last else {
        return false;
    };
    let b = Record::at(r.recs, j);
    if b.server() != r.server() {
        return false;
    }
    let c = r.counter() - 1;
    if b.kind() == Some(Kind::E) {
        return c == 0;
    }
    b.counter() == c
}

// Rule 5 at a B of a server that delivered c: is the next transaction of the longest, which it lacks, of an earlier epoch?
// `marks` has the numbers of the records at which the longest grew.
fn lacks(r: Record, marks: &[u64], c: usize) -> bool
    requires { Marked r.recs.now marks.now r.i (length marks.now) }
    ensures { result ≡ lacks_of r.entry.recs.now marks.now r.entry.i c (length marks.now) }
{
    c < marks.len() && Record::at(r.recs, marks[c] as usize).epoch() < r.epoch()
}

// A B: rules 2 and 5.
fn at_b(r: Record, space: &[u64], s: State, last: Option<usize>) -> Result<State, Rule>
    requires { Ready r.recs.now space.now r.i s × (kind_of r.recs.now r.i ≡ 2) × (counted last ≡ latest_of r.recs.now (epoch_at r.recs.now r.i) r.i) }
    ensures { Steps r.entry.recs.now space.now r.entry.i s result space.now }
{
    if !follows(r, last) {
        return Err(Rule::CountersRun);
    }
    let x = r.server() as usize;
    if lacks(r, &space[..s.len], s.counts[x]) {
        return Err(Rule::EarlierEpochs);
    }
    Ok(State {
        top: s.top.max(r.epoch()),
        ..s
    })
}

// A V of server x, which delivered c, where the longest goes on with the transaction of record `at`: rules 3 and 4.
fn inside(r: Record, at: usize, x: usize, s: State) -> Result<State, Rule>
    requires { (at < r.i) × (x < 7) × (get_or s.counts x 0 < r.i) × (s.seen ≤ r.i) }
    ensures { result ≡ inside_of r.entry.recs.now at r.entry.i x s }
{
    if r.same(Record::at(r.recs, at)) {
        let mut t = s;
        t.counts[x] += 1;
        return Ok(t);
    }
    look::source(r, s.seen).ok_or(Rule::EarlierB)?;
    Err(Rule::OneBegins)
}

// Is record r above the last of the longest?
fn rises(r: Record, marks: &[u64]) -> bool
    requires { Marked r.recs.now marks.now r.i (length marks.now) }
    ensures { result ≡ rises_of r.entry.recs.now marks.now r.entry.i (length marks.now) }
{
    match marks.last() {
        None => true,
        Some(at) => Record::at(r.recs, *at as usize).below(r),
    }
}

// Rules 5 and 6 at a V that makes the longest longer. If a B is of a later epoch, rule 5 is broken, unless rule 6 is and the
// longest has the transaction already. That is looked for at most once, since the record breaks a rule.
fn late(r: Record, marks: &[u64], top: u64) -> Result<(), Rule>
    requires { Marked r.recs.now marks.now r.i (length marks.now) }
    ensures { broken_of result ≡ late_of r.entry.recs.now marks.now r.entry.i (length marks.now) top }
{
    let e = r.epoch();
    if rises(r, marks) {
        return if e < top {
            Err(Rule::EarlierEpochs)
        } else {
            Ok(())
        };
    }
    if top <= e || look::among(r, marks) {
        return Err(Rule::VsRise);
    }
    Err(Rule::EarlierEpochs)
}

// A V of server x that makes the longest longer: rules 3, 5 and 6.
fn longer(r: Record, space: &mut [u64], x: usize, s: State) -> Result<State, Rule>
    requires { Ready r.recs.now space.old r.i s × (kind_of r.recs.now r.i ≡ 3) × (x ≡ who_of r.recs.now r.i) × (x < 7) × (s.len ≤ get_or s.counts x 0) }
    ensures { Steps r.entry.recs.now space.old r.entry.i s result space.new }
{
    let seen = look::source(r, s.seen).ok_or(Rule::EarlierB)?;
    late(r, &space[..s.len], s.top)?;
    space[s.len] = r.i as u64;
    let mut t = State {
        len: s.len + 1,
        seen,
        ..s
    };
    t.counts[x] += 1;
    Ok(t)
}

// A V: rules 3 to 6.
fn at_v(r: Record, space: &mut [u64], s: State) -> Result<State, Rule>
    requires { Ready r.recs.now space.old r.i s × (kind_of r.recs.now r.i ≡ 3) }
    ensures { Steps r.entry.recs.now space.old r.entry.i s result space.new }
{
    let x = r.server() as usize;
    let c = s.counts[x];
    if c < s.len {
        let at = space[c] as usize;
        return inside(r, at, x, s);
    }
    longer(r, space, x, s)
}

// Record r; if it is an E or a B, `last` is the latest of its epoch.
pub fn step(r: Record, space: &mut [u64], s: State, last: Option<usize>) -> Result<State, Rule>
    requires { Ready r.recs.now space.old r.i s × Latest r.recs.now r.i last }
    ensures { Steps r.entry.recs.now space.old r.entry.i s result space.new }
{
    match r.kind() {
        Some(Kind::E) => at_e(r, s, last),
        Some(Kind::B) => at_b(r, space, s, last),
        Some(Kind::V) => at_v(r, space, s),
        _ => Ok(s),
    }
}
