// A leader's plans of ACK-LD, of ACK, and of a submission.
#![tactic(auto)]

ghost use Rattle.std.specs.Prelude.{◌≡◌, ◌≢◌, List, ℕ, ◌*◌, ◌≤◌, ◌<◌, length};
ghost use Rattle.base.specs.Quorum.{quorum};
ghost use Rattle.base.specs.Transaction.{LAST, ident, next_counter};
ghost use Rattle.rules.specs.Message.{ackld, ack};
ghost use Rattle.rules.specs.Tree.{run};
ghost use Rattle.rules.specs.Step.{holders, l3_sync, receive, on_submit};
ghost use Rattle.rules.specs.Words.{server_of, has, num};
ghost use Rattle.plan.specs.Plans.{Plans, Sized, From, pl};
ghost use Rattle.deliver.specs.Delivers.{raised_of, synced_of, reach, commits_of, committed_of, welcomed_of};

use base::{Epoch, Ident, Place, Refusal, Sizes, Txn};
use plan::{Cast, Plan};
use rules::State;

const TWO32: u64 = 1 << 32;

// The servers that hold the first c transactions: the leader does, another by its count.
fn held_by(t: &State, c: u32) -> [bool; 7]
    requires { t.now.me < 7 }
    ensures { (i : ℕ) → i < 7 → has result i ≡ holders t.now.me (num t.now.counts) c i }
{
    let mut q = t.counts.map(|count| c <= count);
    q[usize::from(t.me)] = true;
    q
}

// Whether a quorum holds them.
fn held(z: Sizes, t: &State, c: u32) -> bool
    requires { Sized z t.now }
    ensures { result ≡ quorum z.n (holders t.now.me (num t.now.counts) c) }
{
    words::is_quorum(held_by(t, c), z.n)
}

// The last place past those delivered that a quorum holds; if none, the last delivered.
fn advance_to(z: Sizes, t: &State) -> Place
    requires { Sized z t.now }
    ensures { result ≡ pl (reach z.n t.now) }
{
    (t.d.0 + 1..=t.len.0)
        .rev()
        .find(|&c| held(z, t, c))
        .map_or(t.d, Place)
}

// The count of f raised to c.
fn raised(mut s: State, f: u8, c: Place) -> State
    requires { f < 7 }
    ensures { result ≡ raised_of s f c.0 }
{
    let i = usize::from(f);
    s.counts[i] = s.counts[i].max(c.0);
    s
}

// f synced, its count raised.
fn synced(s: State, f: u8, c: Place) -> State
    requires { f < 7 }
    ensures { result ≡ synced_of s f c.0 }
{
    let mut t = raised(s, f, c);
    t.synced[usize::from(f)] = true;
    t
}

// COMMIT(p, d) to a set, if d rose.
fn commits(to: [bool; 7], old: Place, p: Epoch, d: Place) -> Cast
    ensures { result ≡ commits_of to old.0 p.0 d.0 }
{
    if d <= old {
        return plan::nobody();
    }
    Cast {
        to,
        kind: 9,
        e: p,
        x: d,
    }
}

// L4 after a count: advance, and COMMIT to all others of a set if d rose.
fn committed(z: Sizes, t: State, to: [bool; 7]) -> Plan
    requires { Sized z t }
    ensures { result ≡ committed_of z.n t to }
{
    let d = advance_to(z, &t);
    let one = commits(to, t.d, t.p, d);
    plan::planned(State { stage: 8, d, ..t }, 0, 0, plan::no_txn(), one)
}

// ACK-LD(p, c) in L3: with a quorum synced, L4, all delivered, and COMMIT-LD to all others synced.
fn sync_third(z: Sizes, s: State, f: u8, c: Place) -> Result<Plan, Refusal>
    requires { (Sized z s) × (From z s f) }
    ensures { (h k m : List ℕ) → Plans z s result h k m (run (l3_sync z s.me f c.0 (server_of s h k))) }
{
    if c != s.len {
        return Err(Refusal::Gap);
    }
    let t = synced(s, f, c);
    let to = t.synced;
    if !words::is_quorum(to, z.n) {
        return Ok(plan::quiet(State { stage: 7, ..t }));
    }
    let one = Cast {
        to,
        kind: 6,
        e: s.p,
        x: c,
    };
    let u = State {
        stage: 8,
        d: c,
        ..t
    };
    Ok(plan::planned(u, 0, 0, plan::no_txn(), one))
}

// ACK-LD(p, c) in L4: COMMIT to all others synced but f if d rose, then COMMIT-LD to f.
fn sync_fourth(z: Sizes, s: State, f: u8, c: Place) -> Plan
    requires { (Sized z s) × (From z s f) }
    ensures { result ≡ welcomed_of z.n s f c.0 }
{
    let mut to = s.synced;
    to[usize::from(f)] = false;
    let mut r = committed(z, synced(s, f, c), to);
    r.two = plan::solo(f, 6, s.p, r.state.d);
    r
}

// Stays: z, s and from apart, `Sized` and `From` in each clause: no plainer, since `server` tests and lends them apart.

// ACK-LD(e, c).
pub fn plan_ackld(z: Sizes, s: State, from: u8, e: Epoch, c: Place) -> Result<Plan, Refusal>
    requires { (Sized z s) × (From z s from) }
    ensures { (h k m : List ℕ) → Plans z s result h k m (run (receive z s.me from (ackld e.0 c.0) (server_of s h k))) }
{
    plan::gate(5, s.stage, s.joined[usize::from(from)])?;
    if e != s.p {
        return Err(Refusal::Epoch);
    }
    if s.stage == 7 {
        return sync_third(z, s, from, c);
    }
    if s.len < c {
        return Err(Refusal::Gap);
    }
    Ok(sync_fourth(z, s, from, c))
}

// ACK(e, n).
pub fn plan_ack(z: Sizes, s: State, from: u8, e: Epoch, n: Place) -> Result<Plan, Refusal>
    requires { (Sized z s) × (From z s from) }
    ensures { (h k m : List ℕ) → Plans z s result h k m (run (receive z s.me from (ack e.0 n.0) (server_of s h k))) }
{
    plan::gate(8, s.stage, s.joined[usize::from(from)])?;
    if e != s.p {
        return Err(Refusal::Epoch);
    }
    if s.len < n {
        return Err(Refusal::Gap);
    }
    let t = raised(s, from, n);
    Ok(committed(z, t, t.synced))
}

// The identifier of epoch e and counter c.
fn ident(e: Epoch, c: u64) -> Ident
    requires { c ≤ LAST }
    ensures { result.0 ≡ ident e.0 c }
{
    Ident(u64::from(e.0) * TWO32 + c)
}

// The next identifier of p after the last, which is not the last of p.
fn next_id(p: Epoch, last: Ident) -> Ident
    requires { last.0 ≢ ident p.0 LAST }
    ensures { result.0 ≡ ident p.0 (next_counter p.0 last.0) }
{
    ident(p, words::next_counter(p, last))
}

// A submission of v: one more transaction, proposed to all others joined.
pub fn plan_submit(z: Sizes, s: State, hist: &[u64], v: u64) -> Result<Plan, Refusal>
    requires { (Sized z s) × (2 * z.room.0 ≤ length hist.now) }
    ensures { (k m : List ℕ) → Plans z s result hist.now k m (run (on_submit z s.me v (server_of s hist.now k))) }
{
    if s.stage != 8 {
        return Err(Refusal::Role);
    }
    if z.room <= s.len {
        return Err(Refusal::Full);
    }
    let last = words::last_id(hist, s.len);
    if last == ident(s.p, TWO32 - 1) {
        return Err(Refusal::Full);
    }
    let len = Place(s.len.0 + 1);
    let one = Cast {
        to: s.joined,
        kind: 7,
        e: s.p,
        x: len,
    };
    let txn = Txn {
        id: next_id(s.p, last),
        val: v,
    };
    Ok(plan::planned(State { len, ..s }, 3, 0, txn, one))
}
