// Reads the words of a slot to a message; a malformed one reads as None.
// First the words past the fields, then the fields of each kind.
#![tactic(auto)]

ghost use Rattle.std.specs.Prelude.{◌≡◌, List, ℕ, ◌+◌, ◌*◌, ◌≤◌, length, drop, true, false, MatchOption};
ghost use Rattle.base.specs.declared.Sizes.{Sizes};
ghost use Rattle.rules.specs.Message.{cepoch, newepoch, acke, newleader, ackld, commitld, propose, ack, commit, positive};
ghost use Rattle.rules.specs.Words.{tidy, said, txns, txn_at, word, msg_size};
ghost use Rattle.message.specs.Reads.{placed, counted, Told, Reads};

use base::{Epoch, Ident, Place, Sizes, Txn};
use plan::Message;

// Whether x may be the second number of a kind: zero where it has none.
#[tactic(auto, unfolding(base::specs::Choice::either, crate::specs::Reads::placed, rules::specs::Words::second))]
fn second_fits(kind: u64, x: u64) -> bool
    ensures { result ≡ placed kind x }
{
    matches!(kind, 3 | 5..) || x == 0
}

// Whether n is the count of a kind: any for a history, 1 for PROPOSE, else 0.
#[tactic(auto, using(crate::proofs::Laws::count_is), unfolding(base::specs::Choice::either, base::specs::Choice::pick))]
fn count_fits(kind: u64, n: u64) -> bool
    ensures { result ≡ counted kind n }
{
    match kind {
        3 | 4 => true,
        7 => n == 1,
        _ => n == 0,
    }
}

// Whether the history is within the room and no word past the fields is other than zero.
#[tactic(auto, using(crate::proofs::Laws::tidy_is), unfolding(base::specs::Choice::both))]
fn is_tidy(room: Place, m: &[u64]) -> bool
    requires { (room.0 ≤ 64) × (length m.now ≡ msg_size room.0) }
    ensures { result ≡ tidy room.0 m.now }
{
    m[3] <= u64::from(room.0)
        && second_fits(m[0], m[2])
        && count_fits(m[0], m[3])
        && words::zero_from(m, 4 + 2 * m[3] as usize)
}

// x, if it has 32 bits and is not zero.
#[tactic(auto, using(crate::proofs::Laws::numbers))]
fn positive(x: u64) -> Option<u32>
    ensures { MatchOption result (positive x ≡ false) (λ v. (positive x ≡ true) × (v ≡ x)) }
{
    u32::try_from(x).ok().filter(|v| *v != 0)
}

fn read_cepoch(p: u64) -> Option<Message>
    ensures { (z : Sizes) (w : List ℕ) → Told z (cepoch p) w result }
{
    let e = u32::try_from(p).ok()?;
    Some(Message::Cepoch(Epoch(e)))
}

fn read_newepoch(n: u64) -> Option<Message>
    ensures { (z : Sizes) (w : List ℕ) → Told z (newepoch n) w result }
{
    let e = positive(n)?;
    Some(Message::Newepoch(Epoch(e)))
}

// The history rises for the epoch a, which is below e.
fn read_acke(m: &[u64]) -> Option<Message>
    requires { (4 + 2 * word m.now 3 ≤ length m.now) × (word m.now 3 ≤ 64) }
    ensures { (z : Sizes) → word m.now 3 ≤ z.room.0 → Told z (acke (word m.now 1) (word m.now 2) (txns (word m.now 3) (drop 4 m.now))) (drop 4 m.now) result }
{
    let e = positive(m[1])?;
    let a = u32::try_from(m[2]).ok()?;
    if a < e && words::rises(&m[4..], m[3] as usize, Epoch(a)) {
        Some(Message::Acke(Epoch(e), Epoch(a), Place(m[3] as u32)))
    } else {
        None
    }
}

// The history rises for the epoch e.
fn read_newleader(m: &[u64]) -> Option<Message>
    requires { (4 + 2 * word m.now 3 ≤ length m.now) × (word m.now 3 ≤ 64) }
    ensures { (z : Sizes) → word m.now 3 ≤ z.room.0 → Told z (newleader (word m.now 1) (txns (word m.now 3) (drop 4 m.now))) (drop 4 m.now) result }
{
    let e = positive(m[1])?;
    if words::rises(&m[4..], m[3] as usize, Epoch(e)) {
        Some(Message::Newleader(Epoch(e), Place(m[3] as u32)))
    } else {
        None
    }
}

// Stays: four readers of two numbers, as a closure for the variant that each makes is no plainer than its three lines.
fn read_ackld(x: u64, y: u64) -> Option<Message>
    ensures { (z : Sizes) (w : List ℕ) → Told z (ackld x y) w result }
{
    let e = positive(x)?;
    let c = u32::try_from(y).ok()?;
    Some(Message::Ackld(Epoch(e), Place(c)))
}

fn read_commitld(x: u64, y: u64) -> Option<Message>
    ensures { (z : Sizes) (w : List ℕ) → Told z (commitld x y) w result }
{
    let e = positive(x)?;
    let c = u32::try_from(y).ok()?;
    Some(Message::Commitld(Epoch(e), Place(c)))
}

// The identifier's epoch is e, and its counter is not zero.
fn read_propose(m: &[u64]) -> Option<Message>
    requires { 6 ≤ length m.now }
    ensures { (z : Sizes) (w : List ℕ) → Told z (propose (word m.now 1) (word m.now 2) (txn_at (drop 4 m.now))) w result }
{
    let e = positive(m[1])?;
    let k = positive(m[2])?;
    let id = m[4];
    if id / words::TWO32 == m[1] && 1 <= id % words::TWO32 {
        let t = Txn {
            id: Ident(id),
            val: m[5],
        };
        Some(Message::Propose(Epoch(e), Place(k), t))
    } else {
        None
    }
}

fn read_ack(x: u64, y: u64) -> Option<Message>
    ensures { (z : Sizes) (w : List ℕ) → Told z (ack x y) w result }
{
    let e = positive(x)?;
    let k = positive(y)?;
    Some(Message::Ack(Epoch(e), Place(k)))
}

fn read_commit(x: u64, y: u64) -> Option<Message>
    ensures { (z : Sizes) (w : List ℕ) → Told z (commit x y) w result }
{
    let e = positive(x)?;
    let c = positive(y)?;
    Some(Message::Commit(Epoch(e), Place(c)))
}

// The message that the fields say; an unknown kind is malformed.
fn read_said(m: &[u64]) -> Option<Message>
    requires { (6 ≤ length m.now) × ((4 + 2 * word m.now 3 ≤ length m.now) × (word m.now 3 ≤ 64)) }
    ensures { (z : Sizes) → word m.now 3 ≤ z.room.0 → Told z (said m.now) (drop 4 m.now) result }
{
    let e = m[1];
    let x = m[2];
    match m[0] {
        1 => read_cepoch(e),
        2 => read_newepoch(e),
        3 => read_acke(m),
        4 => read_newleader(m),
        5 => read_ackld(e, x),
        6 => read_commitld(e, x),
        7 => read_propose(m),
        8 => read_ack(e, x),
        9 => read_commit(e, x),
        _ => None,
    }
}

// The message in the words of a slot.
pub fn read(z: Sizes, m: &[u64]) -> Option<Message>
    requires { (1 ≤ z.room.0) × ((z.room.0 ≤ 64) × (length m.now ≡ msg_size z.room.0)) }
    ensures { Reads z m.now result }
{
    if is_tidy(z.room, m) {
        read_said(m)
    } else {
        None
    }
}
