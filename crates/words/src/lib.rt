// Leaves on lent words. Their contracts speak of the transactions that the words stand for.
#![tactic(auto)]

ghost use Rattle.std.specs.Prelude.{◌≡◌, ◌++◌, ◌+◌, ◌-◌, ◌*◌, ◌≤◌, ◌<◌, length, take, drop};
ghost use Rattle.base.specs.Choice.{pick};
ghost use Rattle.base.specs.Quorum.{size, quorum};
ghost use Rattle.base.specs.Transaction.{same_hist, last_id, next_counter, follows, rising};
ghost use Rattle.rules.specs.Step.{beats};
ghost use Rattle.rules.specs.Words.{txns, zeros, all_zero, good_words, has};

use base::{Epoch, Ident, Place};

// What an identifier counts for each epoch: its epoch is id / TWO32, and its counter id % TWO32.
pub const TWO32: u64 = 4294967296;

// Whether the first d transactions of both are the same.
pub fn same_prefix(a: &[u64], b: &[u64], d: usize) -> bool
    requires { (2 * d ≤ length a.now) × (2 * d ≤ length b.now) }
    ensures { result ≡ same_hist (txns d a.now) (txns d b.now) }
{
    a[..2 * d] == b[..2 * d]
}

// Whether id may follow last in a history of epochs 1 to a.
#[tactic(auto, unfolding(base::specs::Choice::both, base::specs::Transaction::follows))]
fn may_follow(a: Epoch, last: u64, id: u64) -> bool
    ensures { result ≡ follows a.0 last id }
{
    last < id && (1..=u64::from(a.0)).contains(&(id / TWO32)) && 1 <= id % TWO32
}

// Whether the first n transactions rise and keep the rules for a.
#[tactic(auto, using(crate::proofs::Laws::turns), unfolding(base::specs::Choice::both))]
pub fn rises(w: &[u64], n: usize, a: Epoch) -> bool
    requires { 2 * n ≤ length w.now }
    ensures { result ≡ rising a.0 0 (txns n w.now) }
{
    let mut last = 0;
    for i in 0..n {
        let id = w[2 * i];
        if !may_follow(a, last, id) {
            return false;
        }
        last = id;
    }
    true
}

// Whether every word from `from` on is zero.
pub fn zero_from(w: &[u64], from: usize) -> bool
    ensures { result ≡ all_zero (drop from w.now) }
{
    w.iter().skip(from).all(|x| *x == 0)
}

// Whether w has words for `room` transactions, holds n within it, and zeros past them.
#[tactic(auto, unfolding(base::specs::Choice::both, rules::specs::Words::good_words))]
pub fn good_words(w: &[u64], room: Place, n: Place) -> bool
    requires { room.0 ≤ 64 }
    ensures { result ≡ good_words room.0 n.0 w.now }
{
    w.len() == 2 * room.0 as usize && n.0 <= room.0 && zero_from(w, 2 * n.0 as usize)
}

// The last identifier of the first n transactions, 0 if there are none.
#[tactic(auto, using(crate::proofs::Laws::last), unfolding(base::specs::Transaction::id_at, rules::specs::Words::txns))]
pub fn last_id(w: &[u64], n: Place) -> Ident
    requires { 2 * n.0 ≤ length w.now }
    ensures { result.0 ≡ last_id (txns n.0 w.now) }
{
    if n.0 == 0 {
        Ident(0)
    } else {
        Ident(w[2 * (n.0 as usize - 1)])
    }
}

// The next counter of epoch e after the identifier z: 1, or one more than z's.
#[tactic(auto, unfolding(base::specs::Choice::pick, base::specs::Transaction::next_counter))]
pub fn next_counter(e: Epoch, z: Ident) -> u64
    ensures { (result ≡ next_counter e.0 z.0) × (result ≤ 4294967296) }
{
    if z.0 / TWO32 == u64::from(e.0) {
        z.0 % TWO32 + 1
    } else {
        1
    }
}

// The words of src over as many.
// Stays: by `copy_from_slice` the archive would ask its C host for `memmove`, too.
pub fn copy_over(dst: &mut [u64], src: &[u64])
    requires { length dst.old ≡ length src.now }
    ensures { dst.new ≡ src.now }
{
    for (i, x) in src.iter().enumerate() {
        dst[i] = *x;
    }
}

// The first n words of src, and zeros past them.
pub fn take_over(dst: &mut [u64], src: &[u64], n: usize)
    requires { (n ≤ length dst.old) × (n ≤ length src.now) }
    ensures { dst.new ≡ take n src.now ++ zeros (length dst.old - n) }
{
    copy_over(&mut dst[..n], &src[..n]);
    clear_from(dst, n);
}

// Zeros from word `from` on.
#[tactic(auto, using(crate::proofs::Laws::filled))]
pub fn clear_from(dst: &mut [u64], from: usize)
    requires { from ≤ length dst.old }
    ensures { dst.new ≡ take from dst.old ++ zeros (length dst.old - from) }
{
    dst[from..].fill(0);
}

// How many of the first n servers are in a set.
#[tactic(auto, using(crate::proofs::Laws::counted), unfolding(base::specs::Choice::pick))]
pub fn size_of(q: [bool; 7], n: u8) -> u8
    requires { n ≤ 7 }
    ensures { (result ≡ size (has q) n) × (result ≤ n) }
{
    let mut k = 0;
    for i in 0..n {
        if q[usize::from(i)] {
            k += 1;
        }
    }
    k
}

#[tactic(auto, unfolding(base::specs::Quorum::quorum))]
pub fn is_quorum(q: [bool; 7], n: u8) -> bool
    requires { n ≤ 7 }
    ensures { result ≡ quorum n (has q) }
{
    n < 2 * size_of(q, n)
}

// Whether the pair (a, x) is strictly greater than (b, y).
#[tactic(auto, unfolding(base::specs::Choice::both, base::specs::Choice::either, rules::specs::Step::beats))]
pub fn is_above(a: Epoch, x: Ident, b: Epoch, y: Ident) -> bool
    ensures { result ≡ beats a.0 x.0 b.0 y.0 }
{
    (a.0, x.0) > (b.0, y.0)
}

// The chosen history as it lies: the first n words of the message's where it wins, else the first m of the candidate's.
#[tactic(auto, unfolding(base::specs::Choice::pick))]
pub fn choose<'a>(cand: &'a [u64], m: usize, msg: &'a [u64], n: usize, wins: bool) -> &'a [u64]
    requires { (m ≤ length cand.now) × (n ≤ length msg.now) }
    ensures { result.now ≡ pick wins (take n msg.now) (take m cand.now) }
{
    if wins { &msg[..n] } else { &cand[..m] }
}

// A byte as a word.
pub fn wide(x: u8) -> u64
    ensures { (result ≡ x) × (result < 256) }
{
    u64::from(x)
}
