// Words in lent bytes, eight bytes to a word, the lowest first; and the record of a server in words.
#![tactic(auto)]

ghost use Rattle.std.specs.Prelude.{◌≡◌, true, ◌++◌, ◌+◌, ◌-◌, ◌*◌, ◌≤◌, ◌<◌, length, take, drop, ℕ, slice_index};
ghost use Rattle.base.specs.Transaction.{LAST};
ghost use Rattle.rules.specs.Words.{put};
ghost use Rattle.octets.specs.Bytes.{word_at, words_of, eight, bytes_of, under};
ghost use Rattle.octets.specs.Record.{RECORD, bits, seven, flags, ten_of, state_words, state_at, fits};

use base::{Epoch, Place};
use rules::State;

// How many words a server's record has.
pub const RECORD_LEN: usize = 38;

// Where the parts after its three bytes begin: seven numbers of 32 bits, the three sets, seven words each, and the counts.
const NUMBERS: usize = 3;

const JOINED: usize = 10;

const ACKED: usize = 17;

const SYNCED: usize = 24;

const COUNTS: usize = 31;

// The word that starts at byte `at`.
fn word_at(b: &[u8], at: usize) -> u64
    requires { at + 8 ≤ length b.now }
    ensures { result ≡ word_at b.now at }
{
    u64::from_le_bytes(b[at..at + 8].try_into().unwrap())
}

// A word into eight lent bytes.
fn put_word(b: &mut [u8], x: u64)
    requires { length b.old ≡ 8 }
    ensures { b.new ≡ eight x }
{
    b.copy_from_slice(&x.to_le_bytes());
}

// The first n words of the bytes, into the first n of w.
pub fn load(b: &[u8], w: &mut [u64], n: usize)
    requires { (8 * n ≤ length b.now) × (n ≤ length w.old) }
    ensures { w.new ≡ words_of n b.now ++ drop n w.old }
{
    for (i, x) in w[..n].iter_mut().enumerate() {
        *x = word_at(b, 8 * i);
    }
}

// The first n words of w, into the first 8 * n bytes.
pub fn save(w: &[u64], b: &mut [u8], n: usize)
    requires { (8 * n ≤ length b.old) × (n ≤ length w.now) }
    ensures { b.new ≡ bytes_of (take n w.now) ++ drop (8 * n) b.old }
{
    for (i, x) in w[..n].iter().enumerate() {
        put_word(&mut b[8 * i..8 * i + 8], *x);
    }
}

// Is each word from `from` up to `to` at most k?
pub fn all_under(w: &[u64], from: usize, to: usize, k: u64) -> bool
    requires { (from ≤ to) × (to ≤ length w.now) }
    ensures { result ≡ under k (take (to - from) (drop from w.now)) }
{
    w[from..to].iter().all(|x| *x <= k)
}

// Is each of the RECORD_LEN words within its field?
#[tactic(auto, unfolding(crate::specs::Record::fits, base::specs::Choice::both))]
pub fn record_fits(w: &[u64]) -> bool
    requires { length w.now ≡ RECORD }
    ensures { result ≡ fits w.now }
{
    all_under(w, 0, NUMBERS, u64::from(u8::MAX))
        && all_under(w, NUMBERS, JOINED, u64::from(u32::MAX))
        && all_under(w, JOINED, COUNTS, 1)
        && all_under(w, COUNTS, RECORD_LEN, u64::from(u32::MAX))
}

pub fn tiny(x: u64) -> u8
    requires { x ≤ 255 }
    ensures { result ≡ x }
{
    x as u8
}

pub fn narrow(x: u64) -> u32
    requires { x ≤ LAST }
    ensures { result ≡ x }
{
    x as u32
}

fn flags_at(w: &[u64], at: usize) -> [bool; 7]
    requires { at + 7 ≤ length w.now }
    ensures { result ≡ flags (seven at w.now) }
{
    std::array::from_fn(|i| w[at + i] == 1)
}

fn counts_at(w: &[u64], at: usize) -> [u32; 7]
    requires { (at + 7 ≤ length w.now) × ((i : ℕ) → i < 7 → slice_index w.now (at + i) ≤ LAST) }
    ensures { result ≡ seven at w.now }
{
    std::array::from_fn(|i| narrow(w[at + i]))
}

// The record in RECORD_LEN words that fit.
#[tactic(auto, using(crate::proofs::Laws::fields), unfolding(crate::specs::Record::state_at))]
pub fn read_state(w: &[u64]) -> State
    requires { (length w.now ≡ RECORD) × (fits w.now ≡ true) }
    ensures { result ≡ state_at w.now }
{
    State {
        me: tiny(w[0]),
        stage: tiny(w[1]),
        oracle: tiny(w[2]),
        p: Epoch(narrow(w[3])),
        a: Epoch(narrow(w[4])),
        d: Place(narrow(w[5])),
        len: Place(narrow(w[6])),
        largest: Epoch(narrow(w[7])),
        cand_a: Epoch(narrow(w[8])),
        cand_len: Place(narrow(w[9])),
        joined: flags_at(w, JOINED),
        acked: flags_at(w, ACKED),
        synced: flags_at(w, SYNCED),
        counts: counts_at(w, COUNTS),
    }
}

// A u32 as a word.
pub fn long(n: u32) -> u64
    ensures { result ≡ n }
{
    u64::from(n)
}

// A set into seven words, 0 or 1 each.
// Stays: by `map` a host's step takes a tenth more.
fn put_flags(w: &mut [u64], at: usize, q: [bool; 7])
    requires { at + 7 ≤ length w.old }
    ensures { w.new ≡ put w.old at (bits q) }
{
    for (i, x) in q.iter().enumerate() {
        w[at + i] = u64::from(*x);
    }
}

fn put_counts(w: &mut [u64], at: usize, q: [u32; 7])
    requires { at + 7 ≤ length w.old }
    ensures { w.new ≡ put w.old at q }
{
    for (i, n) in q.iter().enumerate() {
        w[at + i] = u64::from(*n);
    }
}

fn put_ten(w: &mut [u64], s: State)
    requires { 10 ≤ length w.old }
    ensures { w.new ≡ put w.old 0 (ten_of s) }
{
    w[..JOINED].copy_from_slice(&[
        u64::from(s.me),
        u64::from(s.stage),
        u64::from(s.oracle),
        u64::from(s.p.0),
        u64::from(s.a.0),
        u64::from(s.d.0),
        u64::from(s.len.0),
        u64::from(s.largest.0),
        u64::from(s.cand_a.0),
        u64::from(s.cand_len.0),
    ]);
}

// The record into RECORD_LEN words.
pub fn write_state(w: &mut [u64], s: State)
    requires { length w.old ≡ RECORD }
    ensures { w.new ≡ state_words s }
{
    put_ten(w, s);
    put_flags(w, JOINED, s.joined);
    put_flags(w, ACKED, s.acked);
    put_flags(w, SYNCED, s.synced);
    put_counts(w, COUNTS, s.counts);
}
