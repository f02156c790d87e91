// A leader's plans of CEPOCH and ACK-E: the election.
#![tactic(auto)]

ghost use Rattle.std.specs.Prelude.{◌≡◌, true, false, List, ℕ, ◌+◌, ◌*◌, ◌≤◌, ◌<◌, eqb, length, set};
ghost use Rattle.base.specs.Choice.{pick, upd};
ghost use Rattle.base.specs.Transaction.{last_id};
ghost use Rattle.rules.specs.declared.State.{State};
ghost use Rattle.rules.specs.Message.{cepoch, acke};
ghost use Rattle.rules.specs.Tree.{run, fork};
ghost use Rattle.rules.specs.Step.{receive, l1_join, l2_join, l34_join, l2_count, beats};
ghost use Rattle.rules.specs.Words.{server_of, txns, has};
ghost use Rattle.plan.specs.Plans.{Plans, Sized, From, plan_of, all_cast, no_cast, no_txn, nowhere, ep, pl};
ghost use Rattle.lead.specs.States.{elected_of, counted_of, chosen_of};

use base::{Epoch, Place, Refusal, Sizes};
use plan::{Cast, Plan};
use rules::State;

// The server f alone.
fn just(f: u8) -> [bool; 7]
    requires { f < 7 }
    ensures { result ≡ set nowhere f true }
{
    let mut set = [false; 7];
    set[usize::from(f)] = true;
    set
}

// CEPOCH(e).
pub fn plan_cepoch(z: Sizes, s: State, from: u8, e: Epoch) -> Result<Plan, Refusal>
    requires { (Sized z s) × (From z s from) }
    ensures { (h k m : List ℕ) → Plans z s result h k m (run (receive z s.me from (cepoch e.0) (server_of s h k))) }
{
    plan::gate(1, s.stage, true)?;
    if s.stage == 5 {
        join_first(z, s, from, e)
    } else {
        join_later(z, s, from, e)
    }
}

// L1: at a quorum a new epoch begins.
fn join_first(z: Sizes, s: State, from: u8, e: Epoch) -> Result<Plan, Refusal>
    requires { (Sized z s) × ((From z s from) × (s.stage ≡ 5)) }
    ensures { (h k m : List ℕ) → Plans z s result h k m (run (l1_join z s.me from e.0 (server_of s h k))) }
{
    let mut t = s;
    t.joined[usize::from(from)] = true;
    t.largest = s.largest.max(e);
    if !words::is_quorum(t.joined, z.n) {
        return Ok(plan::quiet(t));
    }
    if t.largest.0 == u32::MAX {
        return Err(Refusal::Spent);
    }
    Ok(elect(t))
}

// The record t has the quorum joined, and the largest epoch seen.
fn elect(t: State) -> Plan
    requires { (t.largest.0 < u32.MAX) × (t.me < 7) }
    ensures { let p = t.largest.0 + 1 in
        result ≡ plan_of false (elected_of t p) 0 2 no_txn (all_cast t.joined 2 p 0) no_cast }
{
    let p = Epoch(t.largest.0 + 1);
    let to = t.joined;
    let one = Cast {
        to,
        kind: 2,
        e: p,
        x: Place(0),
    };
    let acked = just(t.me);
    let u = State {
        p,
        stage: 6,
        acked,
        largest: Epoch(0),
        cand_a: t.a,
        cand_len: t.len,
        ..t
    };
    plan::planned(u, 0, 2, plan::no_txn(), one)
}

// L2, L3 and L4. In L3 and L4 the sender is no longer synced, and gets the history too.
fn join_later(z: Sizes, s: State, from: u8, e: Epoch) -> Result<Plan, Refusal>
    requires { (Sized z s) × (From z s from) }
    ensures { (h k m : List ℕ) → let u = server_of s h k in
        Plans z s result h k m (run (fork (eqb s.stage 6) (l2_join from e.0 u) (l34_join from e.0 u))) }
{
    if s.p < e {
        return Err(Refusal::Epoch);
    }
    let f = usize::from(from);
    let mut t = s;
    t.joined[f] = true;
    let one = plan::solo(from, 2, s.p, Place(0));
    if s.stage == 6 {
        return Ok(plan::planned(t, 0, 0, plan::no_txn(), one));
    }
    t.synced[f] = false;
    let two = plan::solo(from, 4, s.p, Place(0));
    Ok(Plan {
        two,
        ..plan::planned(t, 0, 0, plan::no_txn(), one)
    })
}

// ACK-E(e, a, n transactions in load).
pub fn plan_acke<'a>(
    z: Sizes,
    s: State,
    hist: &[u64],
    cand: &'a [u64],
    load: &'a [u64],
    from: u8,
    e: Epoch,
    a: Epoch,
    n: Place,
) -> Result<Plan, Refusal>
    requires { (Sized z s) × ((From z s from) × ((2 * z.room.0 ≤ length hist.now) × ((2 * z.room.0 ≤ length cand.now) × ((2 * z.room.0 ≤ length load.now) × (n.0 ≤ z.room.0))))) }
    ensures { Plans z s result hist.now cand.now load.now (run (receive z s.me from (acke e.0 a.0 (txns n.0 load.now)) (server_of s hist.now cand.now))) }
{
    let f = usize::from(from);
    plan::gate(3, s.stage, s.joined[f])?;
    if s.stage == 6 && s.acked[f] {
        return Err(Refusal::Phase);
    }
    if e != s.p {
        return Err(Refusal::Epoch);
    }
    if s.stage != 6 {
        return Ok(plan::quiet(s));
    }
    count_epoch(z, s, hist, cand, load, from, a, n)
}

// L2: the candidate is replaced only by a strictly greater pair.
fn count_epoch<'a>(
    z: Sizes,
    s: State,
    hist: &[u64],
    cand: &'a [u64],
    load: &'a [u64],
    from: u8,
    a: Epoch,
    n: Place,
) -> Result<Plan, Refusal>
    requires { (Sized z s) × ((s.stage ≡ 6) × ((From z s from) × ((2 * z.room.0 ≤ length hist.now) × ((2 * z.room.0 ≤ length cand.now) × ((2 * z.room.0 ≤ length load.now) × (n.0 ≤ z.room.0)))))) }
    ensures { Plans z s result hist.now cand.now load.now (run (fork (beats a.0 (last_id (txns n.0 load.now)) s.cand_a.0 (last_id (txns s.cand_len.0 cand.now)))
        (l2_count z s.me (upd (has s.acked) from true) a.0 (txns n.0 load.now) (server_of s hist.now cand.now))
        (l2_count z s.me (upd (has s.acked) from true) s.cand_a.0 (txns s.cand_len.0 cand.now) (server_of s hist.now cand.now)))) }
{
    let x = words::last_id(load, n);
    let y = words::last_id(cand, s.cand_len);
    let wins = words::is_above(a, x, s.cand_a, y);
    let t = with_candidate(s, from, a, n, wins);
    let i = 2 * (s.cand_len.0 as usize);
    let j = 2 * (n.0 as usize);
    let w = words::choose(cand, i, load, j, wins);
    chosen(z, t, hist, w, wins)
}

// The sender is counted, and the candidate is (a, n) where it wins.
#[tactic(auto, unfolding(base::specs::Choice::pick))]
fn with_candidate(s: State, from: u8, a: Epoch, n: Place, wins: bool) -> State
    requires { from < 7 }
    ensures { result ≡ pick wins (counted_of s from (ep a.0) (pl n.0)) (counted_of s from s.cand_a s.cand_len) }
{
    let mut t = s;
    t.acked[usize::from(from)] = true;
    if wins {
        t.cand_a = a;
        t.cand_len = n;
    }
    t
}

// The record t has the sender counted and the candidate chosen, whose words are w.
// The plan is one of a record s in which that is still to do.
fn chosen(z: Sizes, t: State, hist: &[u64], w: &[u64], wins: bool) -> Result<Plan, Refusal>
    requires { (Sized z t) × ((t.stage ≡ 6) × ((2 * t.len.0 ≤ length hist.now) × (2 * t.cand_len.0 ≤ length w.now))) }
    ensures { (s : State) (k m : List ℕ) → s.me ≡ t.me → s.len ≡ t.len → (wins ≡ false → s.cand_len ≡ t.cand_len) →
        let n = t.cand_len.0 in txns n w.now ≡ pick wins (txns n m) (txns n k) → let u = server_of t hist.now k in
        Plans z s result hist.now k m (run (l2_count z t.me (has t.acked) t.cand_a.0 (txns n w.now) u)) }
{
    if !words::is_quorum(t.acked, z.n) {
        let source = if wins { 1 } else { 0 };
        return Ok(plan::planned(t, 0, source, plan::no_txn(), plan::nobody()));
    }
    if t.cand_len < t.d || !words::same_prefix(w, hist, t.d.0 as usize) {
        return Err(Refusal::Undo);
    }
    Ok(lead(t, wins))
}

// L3 begins, with the candidate for its history.
#[tactic(auto, unfolding(base::specs::Choice::pick))]
fn lead(t: State, wins: bool) -> Plan
    requires { t.me < 7 }
    ensures { result ≡ plan_of false (chosen_of t) (pick wins 1 2) 0 no_txn (all_cast t.joined 4 t.p.0 0) no_cast }
{
    let to = t.joined;
    let one = Cast {
        to,
        kind: 4,
        e: t.p,
        x: Place(0),
    };
    let synced = just(t.me);
    let u = State {
        a: t.p,
        len: t.cand_len,
        stage: 7,
        cand_a: Epoch(0),
        cand_len: Place(0),
        acked: [false; 7],
        synced,
        ..t
    };
    let source = if wins { 1 } else { 2 };
    plan::planned(u, source, 0, plan::no_txn(), one)
}
