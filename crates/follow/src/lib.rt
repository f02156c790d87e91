// Plans of an oracle event, of a restart, and of a follower's messages.
#![tactic(auto)]

ghost use Rattle.std.specs.Prelude.{◌≡◌, true, List, ℕ, ◌*◌, ◌≤◌, eqb, length};
ghost use Rattle.base.specs.Transaction.{ident, next_counter};
ghost use Rattle.rules.specs.Message.{newepoch, newleader, propose, commitld, commit};
ghost use Rattle.rules.specs.Tree.{run};
ghost use Rattle.rules.specs.Step.{receive, on_oracle, on_restart, on_commit};
ghost use Rattle.rules.specs.Words.{server_of, txns};
ghost use Rattle.plan.specs.Plans.{Plans, Sized, From, plan_of, no_txn, no_cast};
ghost use Rattle.follow.specs.Anew.{cleared_of};

use base::{Epoch, Ident, Place, Refusal, Sizes, Txn};
use plan::{Cast, Plan};
use rules::State;

const TWO32: u64 = 1 << 32;

// The record with its volatile state cleared, in a stage with an oracle.
fn cleared(s: State, stage: u8, oracle: u8) -> State
    ensures { result ≡ cleared_of s stage oracle }
{
    State {
        stage,
        oracle,
        largest: Epoch(0),
        cand_a: Epoch(0),
        cand_len: Place(0),
        joined: [false; 7],
        acked: [false; 7],
        synced: [false; 7],
        counts: [0; 7],
        ..s
    }
}

// A plan after which the channels are emptied.
fn anew(t: State, one: Cast) -> Plan
    ensures { result ≡ plan_of true t 0 0 no_txn one no_cast }
{
    Plan {
        empties: true,
        ..plan::planned(t, 0, 0, plan::no_txn(), one)
    }
}

// Stays: z, s and from apart, `Sized` and `From` in each clause: no plainer, since `server` tests and lends them apart.

// Restart: LOOK, durable kept.
pub fn plan_restart(z: Sizes, s: State) -> Result<Plan, Refusal>
    requires { Sized z s }
    ensures { (h k m : List ℕ) → Plans z s result h k m (run (on_restart (server_of s h k))) }
{
    let t = cleared(s, 0, 0);
    Ok(anew(t, plan::nobody()))
}

// Oracle x: follower of another, or leader.
pub fn plan_oracle(z: Sizes, s: State, x: u8) -> Result<Plan, Refusal>
    requires { Sized z s }
    ensures { (h k m : List ℕ) → Plans z s result h k m (run (on_oracle z s.me x (server_of s h k))) }
{
    if z.n <= x {
        return Err(Refusal::Event);
    }
    if x == s.me {
        let mut t = cleared(s, 5, x + 1);
        t.joined[usize::from(x)] = true;
        t.largest = s.p;
        return Ok(anew(t, plan::nobody()));
    }
    let t = cleared(s, 1, x + 1);
    Ok(anew(t, plan::solo(x, 1, s.p, Place(0))))
}

// NEWEPOCH(e).
pub fn plan_newepoch(z: Sizes, s: State, from: u8, e: Epoch) -> Result<Plan, Refusal>
    requires { (Sized z s) × (From z s from) }
    ensures { (h k m : List ℕ) → Plans z s result h k m (run (receive z s.me from (newepoch e.0) (server_of s h k))) }
{
    plan::gate(2, s.stage, from + 1 == s.oracle)?;
    if e < s.p {
        return Err(Refusal::Epoch);
    }
    let t = State {
        stage: 2,
        p: e,
        ..s
    };
    if e == s.p {
        return Ok(plan::quiet(t));
    }
    let one = plan::solo(from, 3, e, Place(s.a.0));
    Ok(plan::planned(t, 0, 0, plan::no_txn(), one))
}

// NEWLEADER(e, n transactions in load).
pub fn plan_newleader(
    z: Sizes,
    s: State,
    hist: &[u64],
    load: &[u64],
    from: u8,
    e: Epoch,
    n: Place,
) -> Result<Plan, Refusal>
    requires { (Sized z s) × ((From z s from) × ((2 * z.room.0 ≤ length hist.now) × ((2 * z.room.0 ≤ length load.now) × (n.0 ≤ z.room.0)))) }
    ensures { (k : List ℕ) → Plans z s result hist.now k load.now (run (receive z s.me from (newleader e.0 (txns n.0 load.now)) (server_of s hist.now k))) }
{
    plan::gate(4, s.stage, from + 1 == s.oracle)?;
    if s.p != e {
        return Err(Refusal::Epoch);
    }
    if n < s.d || !words::same_prefix(load, hist, s.d.0 as usize) {
        return Err(Refusal::Undo);
    }
    let t = State {
        stage: 3,
        a: e,
        len: n,
        ..s
    };
    let one = plan::solo(from, 5, e, n);
    Ok(plan::planned(t, 1, 0, plan::no_txn(), one))
}

// Whether t's identifier is that of epoch e with the counter that comes after the identifier last.
fn comes_next(e: Epoch, last: Ident, t: Txn) -> bool
    ensures { result ≡ eqb t.id.0 (ident e.0 (next_counter e.0 last.0)) }
{
    let c = words::next_counter(e, last);
    (u64::from(e.0) * TWO32).checked_add(c) == Some(t.id.0)
}

// PROPOSE(e, n, x).
pub fn plan_propose(
    z: Sizes,
    s: State,
    hist: &[u64],
    from: u8,
    e: Epoch,
    n: Place,
    x: Txn,
) -> Result<Plan, Refusal>
    requires { (Sized z s) × ((From z s from) × (2 * z.room.0 ≤ length hist.now)) }
    ensures { (k m : List ℕ) → Plans z s result hist.now k m (run (receive z s.me from (propose e.0 n.0 x) (server_of s hist.now k))) }
{
    plan::gate(7, s.stage, from + 1 == s.oracle)?;
    if e != s.p {
        return Err(Refusal::Epoch);
    }
    if n.0 != s.len.0 + 1 || !comes_next(e, words::last_id(hist, s.len), x) {
        return Err(Refusal::Gap);
    }
    if z.room <= s.len {
        return Err(Refusal::Full);
    }
    let t = State { len: n, ..s };
    let one = plan::solo(from, 8, e, n);
    Ok(plan::planned(t, 3, 0, x, one))
}

// Past the gate of COMMIT-LD or COMMIT.
fn commit_past(z: Sizes, s: State, e: Epoch, c: Place) -> Result<Plan, Refusal>
    requires { Sized z s }
    ensures { (h k m : List ℕ) → Plans z s result h k m (run (on_commit e.0 c.0 (server_of s h k))) }
{
    if e != s.p {
        return Err(Refusal::Epoch);
    }
    if s.len < c {
        return Err(Refusal::Gap);
    }
    let d = s.d.max(c);
    Ok(plan::quiet(State { stage: 4, d, ..s }))
}

// COMMIT-LD(e, c).
pub fn plan_commitld(z: Sizes, s: State, from: u8, e: Epoch, c: Place) -> Result<Plan, Refusal>
    requires { (Sized z s) × (From z s from) }
    ensures { (h k m : List ℕ) → Plans z s result h k m (run (receive z s.me from (commitld e.0 c.0) (server_of s h k))) }
{
    plan::gate(6, s.stage, from + 1 == s.oracle)?;
    commit_past(z, s, e, c)
}

// COMMIT(e, c).
pub fn plan_commit(z: Sizes, s: State, from: u8, e: Epoch, c: Place) -> Result<Plan, Refusal>
    requires { (Sized z s) × (From z s from) }
    ensures { (h k m : List ℕ) → Plans z s result h k m (run (receive z s.me from (commit e.0 c.0) (server_of s h k))) }
{
    plan::gate(9, s.stage, from + 1 == s.oracle)?;
    commit_past(z, s, e, c)
}
