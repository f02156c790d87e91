// What a server sends, from the outbox into the rings.
#![tactic(auto)]

ghost use Rattle.std.specs.Prelude.{◌≡◌, true, false, ◌+◌, ◌*◌, ◌≤◌, ◌<◌, length};
ghost use Rattle.rules.specs.Words.{slot_size, has};
ghost use Rattle.ring.specs.Queue.{cell, count, good_rings, Ringed, Chan, Pushed};
ghost use Rattle.post.specs.Posts.{to_at, words_at, Ready, Posted};
ghost use Rattle.post.specs.Room.{hit, due, fits};

use base::Sizes;
use ring::Rings;

// The message in slot k of the outbox, put behind what waits from i to its receiver.
fn post_one(z: Sizes, depth: u8, r: Rings, queue: &mut [u64], i: u8, out: &[u64], k: usize) -> Rings
    requires { (Ringed z depth r queue.old) × ((i < z.n) × ((6 * slot_size z.room.0 ≤ length out.now) × ((k < 6) × ((to_at z.room.0 out.now k < z.n) × (count r (cell z.n i (to_at z.room.0 out.now k)) < depth))))) }
    ensures { Pushed z depth r queue.old i (to_at z.room.0 out.now k) (words_at z.room.0 out.now k) result queue.new }
{
    let m = ring::msg_size(z);
    let at = (1 + m) * k;
    let to = out[at] as u8;
    let a = at + 1;
    let b = a + m;
    ring::push(z, depth, r, queue, i, to, &out[a..b])
}

// The messages in the first n slots of the outbox, one after the other.
pub fn post(z: Sizes, depth: u8, r: Rings, queue: &mut [u64], i: u8, out: &[u64], n: usize) -> Rings
    requires { Ready z depth r queue.old i out.now n }
    ensures { Posted z depth r queue.old i out.now n result queue.new }
{
    let mut s = r;
    for k in 0..n {
        s = post_one(z, depth, s, queue, i, out, k);
    }
    s
}

// Whether a message goes to t: it is another of the set.
fn hit(i: u8, q: [bool; 7], t: u8) -> u8
    requires { t < 7 }
    ensures { (result ≡ hit i (has q) t) × (result ≤ 1) }
{
    u8::from(t != i && q[usize::from(t)])
}

// How many would wait from i to t after a cast to each of two sets.
fn due(z: Sizes, r: Rings, i: u8, empties: bool, one: [bool; 7], two: [bool; 7], t: u8) -> u8
    requires { (z.n ≤ 7) × ((Chan z i t) × (count r (cell z.n i t) ≤ 16)) }
    ensures { result ≡ due z r i empties one two t }
{
    let waiting = if empties {
        0
    } else {
        r.counts[ring::channel(z, i, t)]
    };
    waiting + hit(i, one, t) + hit(i, two, t)
}

// Whether there is room for a cast to each of two sets, before anything is written.
pub fn has_room(
    z: Sizes,
    depth: u8,
    r: Rings,
    i: u8,
    empties: bool,
    one: [bool; 7],
    two: [bool; 7],
) -> bool
    requires { (z.n ≤ 7) × ((depth ≤ 16) × ((good_rings depth r ≡ true) × (i < z.n))) }
    ensures { result ≡ fits z depth r i empties one two }
{
    (0..z.n).all(|t| due(z, r, i, empties, one, two, t) <= depth)
}
