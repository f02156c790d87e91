// A cluster's code and the theorems together: what its runs promise of the words that they leave.
#![tactic(auto)]

ghost use Rattle.std.specs.Prelude.{◌<◌, ◌≡◌};
ghost use Rattle.site.specs.Site.{site_of};
ghost use Rattle.pledge.specs.Ledger.{Pledged};
ghost use Rattle.pledge.specs.Moves.{other_at, name_words, Calms};

use base::{Refusal, Sizes};
use runs::Ran;
use site::Cluster;
use turn::Happening;

// What a calm run reports: whether its submission was taken; how many were named, and how many deliveries were taken before
// the submission and after it.
#[derive(Clone, Copy)]
pub struct Calmed {
    pub answer: Result<(), Refusal>,
    pub named: usize,
    pub first: usize,
    pub second: usize,
    pub cluster: Cluster,
}

// A run of events from fresh servers, and what it promises of what stands at its end.
pub fn ledger<'a>(
    z: Sizes,
    depth: u8,
    es: &[u64],
    budget: usize,
    hists: &mut [u64],
    cands: &'a mut [u64],
    queue: &'a mut [u64],
    out: &mut [u64],
) -> Ran
    ensures { Pledged z depth budget es.now hists.old cands.old queue.old out.old result hists.new cands.new queue.new out.new }
{
    let f = cluster::fresh(z, depth, hists, cands, queue, out);
    if let Err(why) = f.answer {
        return Ran {
            answer: Err(why),
            met: 0,
            taken: 0,
            cluster: f.cluster,
        };
    }
    runs::run(f.cluster, es, budget, hists, cands, queue, out)
}

// Of the servers other than x, in rising number, the one of number j.
fn other(x: u8, j: u64) -> u64
    requires { j < 7 }
    ensures { result ≡ other_at x j }
{
    if j < u64::from(x) { j } else { j + 1 }
}

// The words of the events that name x at itself and then at all others, for seven servers.
fn name_words(x: u8) -> [u64; 21]
    ensures { result ≡ name_words x }
{
    let y = u64::from(x);
    let mut words = [0; 21];
    words[..3].copy_from_slice(&[1, y, y]);
    for j in 0..6 {
        let at = 3 * j + 3;
        words[at..at + 3].copy_from_slice(&[1, other(x, j as u64), y]);
    }
    words
}

// Names x at x and then at all others in rising number, lets the cluster settle, submits v at x, and lets it settle again.
pub fn calm<'a>(
    c: Cluster,
    x: u8,
    v: u64,
    hists: &mut [u64],
    cands: &'a mut [u64],
    queue: &'a mut [u64],
    out: &mut [u64],
) -> Calmed
    ensures { Calms c.sizes c.depth (site_of c hists.old cands.old queue.old out.old) x v result (site_of result.cluster hists.new cands.new queue.new out.new) }
{
    let words = name_words(x);
    let n = usize::from(c.sizes.n);
    let a = runs::run(c, &words, n, hists, cands, queue, out);
    let b = runs::settle(a.cluster, 64, hists, cands, queue, out);
    let e = Happening::Submit(u64::from(x), v);
    let s = cluster::event(b.cluster, e, hists, cands, queue, out);
    let d = runs::settle(s.cluster, 64, hists, cands, queue, out);
    Calmed {
        answer: s.answer,
        named: a.taken,
        first: b.taken,
        second: d.taken,
        cluster: d.cluster,
    }
}
