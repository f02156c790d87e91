// The channels between servers: for each a ring of slots in one lent slice, so that no other slot moves.
#![tactic(auto)]

ghost use Rattle.std.specs.Prelude.{◌≡◌, true, ◌+◌, ◌*◌, ◌≤◌, ◌<◌, length, take};
ghost use Rattle.base.specs.declared.Sizes.{Sizes};
ghost use Rattle.rules.specs.Words.{msg_size, zeros, put};
ghost use Rattle.ring.specs.Queue.{RINGS, cell, head, count, wrap, slot_no, good_rings, Ringed, Chan, Pushed, Popped, Cleared, Parted, Emptied};

use base::Sizes;

// As many channels as seven servers have.
pub const CHANNELS: usize = 49;

// Of each ring: the slot of the first message, and how many wait.
#[derive(Clone, Copy, Debug, PartialEq, Eq)]
pub struct Rings {
    pub heads: [u8; CHANNELS],
    pub counts: [u8; CHANNELS],
}

// Whether every head and every count is in its range.
pub fn good_rings(depth: u8, r: Rings) -> bool
    ensures { result ≡ good_rings depth r }
{
    r.heads.iter().all(|h| *h < depth) && r.counts.iter().all(|n| *n <= depth)
}

// Past the last slot of a ring comes its first.
fn wrap(depth: u8, k: u8) -> u8
    ensures { result ≡ wrap depth k }
{
    if k < depth { k } else { k - depth }
}

// The ring of the channel from f to t.
pub fn channel(z: Sizes, f: u8, t: u8) -> usize
    requires { (z.n ≤ 7) × (Chan z f t) }
    ensures { (result ≡ cell z.n f t) × (result < RINGS) }
{
    usize::from(z.n) * usize::from(f) + usize::from(t)
}

// How many words a slot has.
pub fn msg_size(z: Sizes) -> usize
    requires { z.room.0 ≤ 64 }
    ensures { result ≡ msg_size z.room.0 }
{
    4 + 2 * (z.room.0 as usize)
}

// The first word of slot k of ring c.
fn slot_at(z: Sizes, depth: u8, c: usize, k: u8) -> usize
    requires { (z.room.0 ≤ 64) × ((depth ≤ 16) × ((c < RINGS) × (k ≤ 16))) }
    ensures { result ≡ msg_size z.room.0 * (depth * c + k) }
{
    msg_size(z) * (usize::from(depth) * c + usize::from(k))
}

// A message behind the last of its channel.
pub fn push(z: Sizes, depth: u8, r: Rings, queue: &mut [u64], f: u8, t: u8, ws: &[u64]) -> Rings
    requires { (Ringed z depth r queue.old) × ((Chan z f t) × ((count r (cell z.n f t) < depth) × (msg_size z.room.0 ≤ length ws.now))) }
    ensures { Pushed z depth r queue.old f t (take (msg_size z.room.0) ws.now) result queue.new }
{
    let c = channel(z, f, t);
    let k = wrap(depth, r.heads[c] + r.counts[c]);
    let at = slot_at(z, depth, c, k);
    let m = msg_size(z);
    words::copy_over(&mut queue[at..at + m], &ws[..m]);
    let mut s = r;
    s.counts[c] += 1;
    s
}

// Where the first message of a channel lies.
pub fn front(z: Sizes, depth: u8, r: Rings, f: u8, t: u8) -> usize
    requires { (z.n ≤ 7) × ((z.room.0 ≤ 64) × ((depth ≤ 16) × ((good_rings depth r ≡ true) × (Chan z f t)))) }
    ensures { result ≡ msg_size z.room.0 * slot_no depth r (cell z.n f t) 0 }
{
    let c = channel(z, f, t);
    slot_at(z, depth, c, r.heads[c])
}

// The first message of a channel taken: its slot becomes zero, the head goes forward.
pub fn pop(z: Sizes, depth: u8, r: Rings, queue: &mut [u64], f: u8, t: u8) -> Rings
    requires { (Ringed z depth r queue.old) × ((Chan z f t) × (1 ≤ count r (cell z.n f t))) }
    ensures { Popped z depth r queue.old f t result queue.new }
{
    let c = channel(z, f, t);
    let at = front(z, depth, r, f, t);
    let end = at + msg_size(z);
    queue[at..end].fill(0);
    let mut s = r;
    s.heads[c] = wrap(depth, r.heads[c] + 1);
    s.counts[c] -= 1;
    s
}

// Every slot of a channel zero, nothing waiting.
fn empty_ring(z: Sizes, depth: u8, r: Rings, queue: &mut [u64], f: u8, t: u8) -> Rings
    requires { (Ringed z depth r queue.old) × (Chan z f t) }
    ensures { Cleared z depth r queue.old f t result queue.new }
{
    let c = channel(z, f, t);
    let at = slot_at(z, depth, c, 0);
    let size = msg_size(z) * usize::from(depth);
    queue[at..at + size].fill(0);
    let mut s = r;
    s.heads[c] = 0;
    s.counts[c] = 0;
    s
}

// The channels between i and k, both ways.
fn empty_pair(z: Sizes, depth: u8, r: Rings, queue: &mut [u64], i: u8, k: u8) -> Rings
    requires { (Ringed z depth r queue.old) × (Chan z i k) }
    ensures { Parted z depth r queue.old i k result queue.new }
{
    let s = empty_ring(z, depth, r, queue, i, k);
    empty_ring(z, depth, s, queue, k, i)
}

// All channels to and from i emptied.
pub fn empty_channels(z: Sizes, depth: u8, r: Rings, queue: &mut [u64], i: u8) -> Rings
    requires { (Ringed z depth r queue.old) × (i < z.n) }
    ensures { Emptied z depth r queue.old i result queue.new }
{
    let mut s = r;
    for k in 0..z.n {
        s = empty_pair(z, depth, s, queue, i, k);
    }
    s
}
