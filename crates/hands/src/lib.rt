// The hands: they carry out a plan. Only they write the lent words.
#![tactic(auto)]

ghost use Rattle.std.specs.Prelude.{◌≡◌, ◌∷◌, ◌++◌, ◌+◌, ◌-◌, ◌*◌, ◌≤◌, ◌<◌, length, take};
ghost use Rattle.base.specs.Choice.{pick};
ghost use Rattle.rules.specs.Words.{txns, zeros, hist_words, msg_words, has, slot_size, put};
ghost use Rattle.plan.specs.Plans.{cast_of, hist_from, cand_from};
ghost use Rattle.hands.specs.Hands.{HistReady, CandReady, other, others, Load, Slots, Sent, Spread, Boxed, CastReady, Ready, Performed};

use base::{Place, Sizes, Txn};
use plan::{Cast, Plan};

// From word `at` on: the first n words of src, then zeros.
fn fill(dst: &mut [u64], at: usize, src: &[u64], n: usize)
    requires { (at + n ≤ length dst.old) × (n ≤ length src.now) }
    ensures { dst.new ≡ take at dst.old ++ (take n src.now ++ zeros (length dst.old - (at + n))) }
{
    words::copy_over(&mut dst[at..at + n], &src[..n]);
    words::clear_from(dst, at + n);
}

// Stays: n beside src: with a slice alone each clause would halve its length to say how many transactions it has.

// A cast's message into the slot that starts at word `at` of the outbox, written whole: the receiver, the kind, e, the
// other number, the count, n transactions of src, zeros.
fn send_at(out: &mut [u64], at: usize, room: Place, to: u8, c: Cast, n: Place, src: &[u64])
    requires { (at + slot_size room.0 ≤ length out.old) × ((2 * n.0 ≤ length src.now) × ((n.0 ≤ room.0) × (room.0 ≤ 64))) }
    ensures { out.new ≡ put out.old at (to ∷ msg_words room.0 c.kind c.e.0 c.x.0 (txns n.0 src.now)) }
{
    let b = at + 5 + 2 * (room.0 as usize);
    let slot = &mut out[at..b];
    slot[..5].copy_from_slice(&[
        u64::from(to),
        u64::from(c.kind),
        u64::from(c.e.0),
        u64::from(c.x.0),
        u64::from(n.0),
    ]);
    fill(slot, 5, src, 2 * (n.0 as usize));
}

// A cast's message to the server i, if it is another of the set: into slot k. How many slots are then written.
fn send_one(
    out: &mut [u64],
    k: usize,
    room: Place,
    i: u8,
    me: u8,
    c: Cast,
    n: Place,
    src: &[u64],
) -> usize
    requires { (i < 7) × (Slots room.0 k (pick (other me (has c.to) i) 1 0) out.old × Load room.0 n.0 src.now) }
    ensures { Sent room.0 out.old k (other me (has c.to) i) (i ∷ msg_words room.0 c.kind c.e.0 c.x.0 (txns n.0 src.now)) out.new result }
{
    if i == me || !c.to[usize::from(i)] {
        return k;
    }
    let at = (5 + 2 * (room.0 as usize)) * k;
    send_at(out, at, room, i, c, n, src);
    k + 1
}

// A cast's message to all others of its set, in rising number, each into its own slot, from slot k on.
fn send_all(out: &mut [u64], k: usize, z: Sizes, me: u8, c: Cast, n: Place, src: &[u64]) -> usize
    requires { (z.n ≤ 7) × (Slots z.room.0 k (others z.n me (has c.to)) out.old × Load z.room.0 n.0 src.now) }
    ensures { Spread z.room.0 out.old k z.n me (has c.to) (msg_words z.room.0 c.kind c.e.0 c.x.0 (txns n.0 src.now)) out.new result }
{
    let mut s = k;
    for i in 0..z.n {
        s = send_one(out, s, z.room, i, me, c, n, src);
    }
    s
}

// A cast with its load: ACK-E and NEWLEADER carry the history after the step, PROPOSE the plan's transaction, others nothing.
fn cast_out(
    out: &mut [u64],
    k: usize,
    z: Sizes,
    me: u8,
    c: Cast,
    hist: &[u64],
    len: Place,
    t: Txn,
) -> usize
    requires { CastReady z k me c hist.now len.0 out.old }
    ensures { Boxed z.room.0 out.old k (cast_of z.n me c (txns len.0 hist.now) t) out.new result }
{
    match c.kind {
        3 | 4 => send_all(out, k, z, me, c, len, hist),
        7 => send_all(out, k, z, me, c, Place(1), &[t.id.0, t.val]),
        _ => send_all(out, k, z, me, c, Place(0), hist),
    }
}

// Stays: kinds and sources as numbers, as in `Cast` and `Plan`, whose makers `solo` and `planned` take any number.

// The history after a step, into its words: 0 it stays, 1 the message's, 2 the candidate's, 3 one more transaction.
fn set_hist(hist: &mut [u64], cand: &[u64], load: &[u64], room: Place, from: u8, len: Place, t: Txn)
    requires { HistReady room.0 from len.0 hist.old cand.now load.now }
    ensures { hist.new ≡ hist_words room.0 (hist_from from len.0 t hist.old cand.now load.now) }
{
    let n = 2 * (len.0 as usize);
    match from {
        0 => {}
        1 => words::take_over(hist, load, n),
        2 => words::take_over(hist, cand, n),
        _ => {
            hist[n - 2] = t.id.0;
            hist[n - 1] = t.val;
        }
    }
}

// The candidate after a step: 0 it stays, cut where it is shorter than before, 1 the message's, 2 the history.
fn set_cand(
    cand: &mut [u64],
    hist: &[u64],
    load: &[u64],
    room: Place,
    from: u8,
    len: Place,
    old: Place,
)
    requires { CandReady room.0 from len.0 old.0 hist.now cand.old load.now }
    ensures { cand.new ≡ hist_words room.0 (cand_from from len.0 hist.now cand.old load.now) }
{
    let n = 2 * (len.0 as usize);
    match from {
        0 => words::clear_from(&mut cand[..2 * (old.0 as usize)], n),
        1 => words::take_over(cand, load, n),
        _ => words::take_over(cand, hist, n),
    }
}

// A plan carried out: the history, then the candidate, whose length was `old`, then the messages. How many were sent.
pub fn perform(
    z: Sizes,
    r: Plan,
    old: Place,
    hist: &mut [u64],
    cand: &mut [u64],
    load: &[u64],
    out: &mut [u64],
) -> usize
    requires { Ready z r old.0 hist.old cand.old load.now out.old }
    ensures { Performed z r hist.old cand.old load.now out.old result hist.new cand.new out.new }
{
    let s = r.state;
    set_hist(hist, cand, load, z.room, r.hist, s.len, r.txn);
    set_cand(cand, hist, load, z.room, r.cand, s.cand_len, old);
    let k = cast_out(out, 0, z, s.me, r.one, hist, s.len, r.txn);
    cast_out(out, k, z, s.me, r.two, hist, s.len, r.txn)
}
