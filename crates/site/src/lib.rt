// What the code of a cluster holds, and whether its sizes, records, rings and lent words are well formed.
#![tactic(auto)]

ghost use Rattle.std.specs.Prelude.{◌≡◌, true, List, ℕ, ◌*◌, ◌≤◌, ◌<◌, leb, length};
ghost use Rattle.base.specs.Choice.{both, all_below};
ghost use Rattle.rules.specs.Server.{good_sizes};
ghost use Rattle.site.specs.Parts.{share};
ghost use Rattle.site.specs.Site.{site_of, good_seat, good_lens, fitting, good_site};

use base::{Refusal, Sizes};
use ring::Rings;
use rules::State;

// Seven places for servers, of which the first n are used, and the rings of the channels. Histories, candidates, queue and
// outbox are lent beside it.
#[derive(Clone, Copy)]
pub struct Cluster {
    pub sizes: Sizes,
    pub depth: u8,
    pub servers: [State; 7],
    pub rings: Rings,
}

// Whether an event was taken, and the cluster afterwards.
#[derive(Clone, Copy)]
pub struct Told {
    pub answer: Result<(), Refusal>,
    pub cluster: Cluster,
}

// Whether sizes and depth are in their ranges.
fn in_ranges(z: Sizes, depth: u8) -> bool
    ensures { result ≡ both (good_sizes z) (both (leb 2 depth) (leb depth 16)) }
{
    sound::good_sizes(z) && (2..=16).contains(&depth)
}

// Whether as many words are lent as the sizes ask.
fn good_lens(z: Sizes, depth: u8, h: usize, k: usize, q: usize, o: usize) -> bool
    requires { (z.n ≤ 7) × ((z.room.0 ≤ 64) × (depth ≤ 16)) }
    ensures { result ≡ good_lens z depth h k q o }
{
    let n = usize::from(z.n);
    let l = 2 * (z.room.0 as usize);
    h == l * n && k == l * n && q == (4 + l) * (usize::from(depth) * (n * n)) && 6 * (5 + l) <= o
}

// Sizes, depth and the lengths of what is lent.
pub fn may_lend(z: Sizes, depth: u8, h: usize, k: usize, q: usize, o: usize) -> bool
    ensures { result ≡ fitting z depth h k q o }
{
    in_ranges(z, depth) && good_lens(z, depth, h, k, q, o)
}

// Whether server i knows its number, and its record and lent words are well formed.
fn good_seat(c: Cluster, hists: &[u64], cands: &[u64], i: u8) -> bool
    requires { (good_sizes c.sizes ≡ true) × ((i < c.sizes.n) × ((length hists.now ≡ share c.sizes * c.sizes.n) × (length cands.now ≡ share c.sizes * c.sizes.n))) }
    ensures { (q o : List ℕ) → result ≡ good_seat c.sizes (site_of c hists.now cands.now q o) i }
{
    let j = usize::from(i);
    let s = c.servers[j];
    let l = 2 * (c.sizes.room.0 as usize);
    let x = l * j;
    let y = x + l;
    s.me == i && sound::sound(c.sizes, s, &hists[x..y], &cands[x..y])
}

// Whether every server's record and lent words are.
fn good_seats(c: Cluster, hists: &[u64], cands: &[u64]) -> bool
    requires { (good_sizes c.sizes ≡ true) × ((length hists.now ≡ share c.sizes * c.sizes.n) × (length cands.now ≡ share c.sizes * c.sizes.n)) }
    ensures { (q o : List ℕ) → result ≡ all_below c.sizes.n (good_seat c.sizes (site_of c hists.now cands.now q o)) }
{
    (0..c.sizes.n).all(|i| good_seat(c, hists, cands, i))
}

// Whether all is.
pub fn good(c: Cluster, hists: &[u64], cands: &[u64], queue: &[u64], out: &[u64]) -> bool
    ensures { result ≡ good_site c.sizes c.depth (site_of c hists.now cands.now queue.now out.now) }
{
    let z = c.sizes;
    let depth = c.depth;
    may_lend(z, depth, hists.len(), cands.len(), queue.len(), out.len())
        && ring::good_rings(depth, c.rings)
        && good_seats(c, hists, cands)
}
