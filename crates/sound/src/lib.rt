// Whether sizes, record and lent words are well formed, clause by clause.
#![tactic(auto)]

ghost use Rattle.std.specs.Prelude.{◌≡◌, Bool, not, List, ℕ, ◌+◌, ◌*◌, ◌≤◌, ◌<◌, ltb, length};
ghost use Rattle.base.specs.Choice.{both, either};
ghost use Rattle.base.specs.Transaction.{Hist};
ghost use Rattle.base.specs.declared.Sizes.{Sizes};
ghost use Rattle.rules.specs.Server.{good_sizes, during, empty, inside, good_dur, good_epochs, good_oracle, good_sets, good_counts, good_largest, good_candidate, well_formed};
ghost use Rattle.rules.specs.Words.{has, txns, server_of, good_state};
ghost use Rattle.sound.specs.Parts.{dur_of, vol_of, accepted, promised, another, count_fits, sets_live, good_vol, Lent};

use base::{Epoch, Place, Sizes};
use rules::State;

// Servers 3 to 7, room 1 to 64.
#[tactic(auto, unfolding(base::specs::Choice::both, rules::specs::Server::good_sizes))]
pub fn good_sizes(z: Sizes) -> bool
    ensures { result ≡ good_sizes z }
{
    (3..=7).contains(&z.n) && (1..=64).contains(&z.room.0)
}

// a ≤ p, d ≤ length, and the history rules for a.
#[tactic(auto, using(crate::proofs::Laws::histories), unfolding(rules::specs::Server::good_dur))]
fn good_durable(s: State, hist: &[u64]) -> bool
    requires { 2 * s.len.0 ≤ length hist.now }
    ensures { (z : Sizes) → s.len.0 ≤ z.room.0 → result ≡ good_dur z (dur_of s.p.0 s.a.0 s.d.0 (txns s.len.0 hist.now)) }
{
    s.a.0 <= s.p.0 && s.d.0 <= s.len.0 && words::rises(hist, s.len.0 as usize, s.a)
}

// a = p in F3, F4, L3, L4.
#[tactic(auto, using(crate::proofs::Laws::plain), unfolding(crate::specs::Parts::accepted))]
fn has_accepted(stage: u8, p: Epoch, a: Epoch) -> bool
    ensures { result ≡ accepted stage p.0 a.0 }
{
    !matches!(stage, 3..=4 | 7..=8) || a.0 == p.0
}

// p at least 1 in F2 to F4 and L2 to L4.
#[tactic(auto, using(crate::proofs::Laws::plain), unfolding(crate::specs::Parts::promised))]
fn has_promised(stage: u8, p: Epoch) -> bool
    ensures { result ≡ promised stage p.0 }
{
    !matches!(stage, 2..=4 | 6..=8) || 1 <= p.0
}

// The rules on a and p in each stage.
#[tactic(auto, using(crate::proofs::Laws::epochs), unfolding(base::specs::Choice::both))]
fn good_epochs(stage: u8, p: Epoch, a: Epoch) -> bool
    ensures { (d : ℕ) (h : Hist) → result ≡ good_epochs stage (dur_of p.0 a.0 d h) }
{
    has_accepted(stage, p, a) && has_promised(stage, p)
}

// Whether the oracle is a server other than me.
#[tactic(auto, unfolding(base::specs::Choice::both, crate::specs::Parts::another))]
fn is_another(n: u8, me: u8, oracle: u8) -> bool
    requires { me < 7 }
    ensures { result ≡ another n me oracle }
{
    (1..=n).contains(&oracle) && oracle != me + 1
}

// LOOK has no oracle, a follower's is another server, a leader's is itself.
#[tactic(auto, using(crate::proofs::Laws::plain), unfolding(rules::specs::Server::good_oracle))]
fn good_oracle(z: Sizes, me: u8, stage: u8, oracle: u8) -> bool
    requires { me < 7 }
    ensures { result ≡ good_oracle z me stage oracle }
{
    match stage {
        0 => oracle == 0,
        1..=4 => is_another(z.n, me, oracle),
        5..=8 => oracle == me + 1,
        _ => false,
    }
}

// Whether no server is in q.
fn is_empty(q: [bool; 7]) -> bool
    ensures { result ≡ empty (has q) }
{
    !q.contains(&true)
}

// Whether every member of q is in p.
fn is_inside(q: [bool; 7], p: [bool; 7]) -> bool
    ensures { result ≡ inside (has q) (has p) }
{
    q.iter().zip(&p).all(|(x, y)| !*x || *y)
}

// Whether every member of q is a server below n.
fn is_below(q: [bool; 7], n: u8) -> bool
    requires { n ≤ 7 }
    ensures { result ≡ inside (has q) (λ s. ltb s n) }
{
    !q[usize::from(n)..].contains(&true)
}

// A leader's joined holds itself.
#[tactic(auto, unfolding(base::specs::Choice::either, base::specs::Choice::both, rules::specs::Server::during))]
fn holds_self(s: State) -> bool
    requires { s.me < 7 }
    ensures { result ≡ either (not (during 5 8 s.stage)) (has s.joined s.me) }
{
    !matches!(s.stage, 5..=8) || s.joined[usize::from(s.me)]
}

// Joined lives in L1 to L4, acked-epoch in L2, synced in L3 and L4.
#[tactic(auto, using(crate::proofs::Laws::plain), unfolding(crate::specs::Parts::sets_live))]
fn good_lives(s: State) -> bool
    ensures { result ≡ sets_live s.stage (has s.joined) (has s.acked) (has s.synced) }
{
    (matches!(s.stage, 5..=8) || is_empty(s.joined))
        && (s.stage == 6 || is_empty(s.acked))
        && (matches!(s.stage, 7..=8) || is_empty(s.synced))
}

// Sets lie inside the servers; a leader's joined holds itself and contains its other sets.
#[tactic(auto, unfolding(base::specs::Choice::both, rules::specs::Server::good_sets, crate::specs::Parts::sets_live))]
fn good_sets(z: Sizes, s: State) -> bool
    requires { (z.n ≤ 7) × (s.me < 7) }
    ensures { (g b : ℕ) (h : Hist) (q : List ℕ) → result ≡ good_sets z s.me s.stage (vol_of s.joined s.acked s.synced g b h q) }
{
    is_below(s.joined, z.n)
        && holds_self(s)
        && is_inside(s.acked, s.joined)
        && is_inside(s.synced, s.joined)
        && good_lives(s)
}

// A count is at most the length, and 0 for a server not below n or where counts do not live.
#[tactic(auto, unfolding(base::specs::Choice::both, base::specs::Choice::either, crate::specs::Parts::count_fits))]
fn count_fits(c: u32, len: Place, low: bool, live: bool) -> bool
    ensures { result ≡ count_fits c len.0 (both low live) }
{
    c <= len.0 && (low && live || c == 0)
}

// Counts live in L3 and L4.
fn good_counts(z: Sizes, s: State) -> bool
    ensures { (p a d : ℕ) (w : List ℕ) (j k y : List Bool) (g b : ℕ) (h : Hist) → result ≡ good_counts z s.stage (dur_of p a d (txns s.len.0 w)) (vol_of j k y g b h s.counts) }
{
    let live = matches!(s.stage, 7..=8);
    s.counts
        .iter()
        .enumerate()
        .all(|(i, c)| count_fits(*c, s.len, i < usize::from(z.n), live))
}

// Largest seen at least p in L1; it lives there.
#[tactic(auto, unfolding(base::specs::Choice::both, base::specs::Choice::either, rules::specs::Server::good_largest))]
fn good_largest(stage: u8, p: Epoch, largest: Epoch) -> bool
    ensures { (a d b : ℕ) (w h : Hist) (j k y : List Bool) (q : List ℕ) → result ≡ good_largest stage (dur_of p.0 a d w) (vol_of j k y largest.0 b h q) }
{
    if stage == 5 {
        p.0 <= largest.0
    } else {
        largest.0 == 0
    }
}

// The candidate in L2 keeps the history rules for its own epoch, which is below p; it lives there.
#[tactic(auto, using(crate::proofs::Laws::histories), unfolding(rules::specs::Server::good_candidate))]
fn good_candidate(s: State, cand: &[u64]) -> bool
    requires { 2 * s.cand_len.0 ≤ length cand.now }
    ensures { (z : Sizes) (b d : ℕ) (w : Hist) (j k y : List Bool) (g : ℕ) (q : List ℕ) → s.cand_len.0 ≤ z.room.0 → result ≡ good_candidate z s.stage (dur_of s.p.0 b d w) (vol_of j k y g s.cand_a.0 (txns s.cand_len.0 cand.now) q) }
{
    if s.stage == 6 {
        s.cand_a.0 < s.p.0 && words::rises(cand, s.cand_len.0 as usize, s.cand_a)
    } else {
        s.cand_a.0 == 0 && s.cand_len.0 == 0
    }
}

// The volatile part.
#[tactic(auto, unfolding(base::specs::Choice::both, crate::specs::Parts::good_vol))]
fn good_volatile(z: Sizes, s: State, cand: &[u64]) -> bool
    requires { (z.n ≤ 7) × ((s.me < 7) × ((s.cand_len.0 ≤ z.room.0) × (2 * s.cand_len.0 ≤ length cand.now))) }
    ensures { (h : List ℕ) → result ≡ good_vol z s h cand.now }
{
    good_sets(z, s)
        && good_counts(z, s)
        && good_largest(s.stage, s.p, s.largest)
        && good_candidate(s, cand)
}

// The record, with words for its history and its candidate.
#[tactic(auto, unfolding(base::specs::Choice::both, rules::specs::Server::well_formed, crate::specs::Parts::good_vol))]
fn well_formed(z: Sizes, s: State, hist: &[u64], cand: &[u64]) -> bool
    requires { Lent z s hist.now cand.now }
    ensures { result ≡ well_formed z s.me (server_of s hist.now cand.now) }
{
    s.me < z.n
        && good_durable(s, hist)
        && good_epochs(s.stage, s.p, s.a)
        && good_oracle(z, s.me, s.stage, s.oracle)
        && good_volatile(z, s, cand)
}

// Whether all is well formed: the sizes, the lent words, the record.
#[tactic(auto, using(crate::proofs::Laws::whole), unfolding(rules::specs::Words::good_state))]
pub fn sound(z: Sizes, s: State, hist: &[u64], cand: &[u64]) -> bool
    ensures { result ≡ both (good_sizes z) (good_state z s hist.now cand.now) }
{
    good_sizes(z)
        && words::good_words(hist, z.room, s.len)
        && words::good_words(cand, z.room, s.cand_len)
        && well_formed(z, s, hist, cand)
}
