// The trace checker: one pass over the records, once none is malformed.
//
// A V inside the longest delivered sequence is compared with one record. A new transaction looks for its B from the last one's
// on, so all of them together pass the trace once. An E and a B look their epoch up in a table, in at most 64 steps. So the
// cost is at most that of 64 steps for each record.
#![tactic(auto)]

mod epochs;
mod look;
mod step;
mod words;

ghost use Rattle.std.specs.Prelude.{◌≡◌, ◌*◌, ◌≤◌, ◌<◌, length};
ghost use Rattle.base.specs.Choice.{both};
ghost use Rattle.trace.specs.Rules.{sound, all_sound};
ghost use Rattle.trace.specs.Words.{WORDS, count_of, rec_at, recs_from, known_at, all_known};
ghost use Rattle.trace.specs.Meaning.{Judged, Checked};

use words::{Kind, Record};

// The paper's six rules of a trace, each with its number.
#[derive(Clone, Copy, PartialEq, Eq, Debug)]
pub enum Rule {
    // one E for an epoch
    OneE = 1,
    // B comes after that server's E of that epoch; an epoch's counters run 1, 2, 3
    CountersRun = 2,
    // V equals an earlier B
    EarlierB = 3,
    // any two servers' V sequences: one begins the other
    OneBegins = 4,
    // before its B a server has a V of each earlier-epoch transaction with a V anywhere
    EarlierEpochs = 5,
    // one server's V identifiers rise
    VsRise = 6,
}

// Yes; or the record, counted from 0, at which the trace so far first breaks a rule, and the lowest such rule; or TRACE.
#[derive(Clone, Copy, PartialEq, Eq, Debug)]
pub enum Verdict {
    Keeps,
    Breaks(u32, Rule),
    Refused,
}

// Is record r of a known kind and well formed?
fn sound(n: u32, r: Record) -> bool
    ensures { result ≡ both (known_at r.entry.recs.now r.entry.i) (sound n (rec_at r.entry.recs.now r.entry.i)) }
{
    match r.kind() {
        None => false,
        Some(Kind::X) => true,
        Some(k) => {
            r.server() < u64::from(n) && r.epoch() != 0 && (k == Kind::E || r.counter() != 0)
        }
    }
}

// Are all of them?
fn all_sound(n: u32, recs: &[u64], count: usize) -> bool
    requires { WORDS * count ≤ length recs.now }
    ensures { result ≡ both (all_known recs.now 0 count) (all_sound n (recs_from recs.now 0 count)) }
{
    (0..count).all(|i| sound(n, Record::at(recs, i)))
}

// The walk: record after record, until one breaks a rule. The table of epochs is empty before it and after it.
fn judge(n: u32, recs: &[u64], space: &mut [u64], count: usize) -> Verdict
    requires { (n ≤ 7) × (count ≡ count_of recs.now) × (count ≤ 1024) × (4 * count ≤ length space.old) }
    ensures { Judged n recs.now space.old count result space.new }
{
    if !all_sound(n, recs, count) {
        return Verdict::Refused;
    }
    epochs::clear(space, count);
    let mut s = step::State {
        counts: [0; 7],
        len: 0,
        top: 0,
        seen: 0,
    };
    let mut nodes = 1;
    for i in 0..count {
        let r = Record { recs, i };
        let at = epochs::find(r, space, count);
        let last = (space[count + at] as usize).checked_sub(1);
        match step::step(r, space, s, last) {
            Ok(t) => s = t,
            Err(rule) => {
                epochs::clear(space, count);
                let place = i as u32;
                return Verdict::Breaks(place, rule);
            }
        }
        nodes = epochs::note(r, space, count, nodes, at);
    }
    epochs::clear(space, count);
    Verdict::Keeps
}

// Does the trace `recs`, of n servers, keep the six rules? The caller lends a space of at least four words for each record.
// TRACE is the only refusal, so it is given too if the words are not whole records and if the space is too small.
pub fn check(n: u32, recs: &[u64], space: &mut [u64]) -> Verdict
    ensures { Checked n recs.now space.old result space.new }
{
    if !(3..=7).contains(&n) {
        return Verdict::Refused;
    }
    let count = recs.len() / words::WORDS;
    if recs.len() % words::WORDS != 0 || 1024 < count || space.len() < 4 * count {
        return Verdict::Refused;
    }
    judge(n, recs, space, count)
}
