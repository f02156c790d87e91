// Many events of a cluster: a run of those that lent words say, and settling.
#![tactic(auto)]

mod many;

ghost use Rattle.site.specs.Site.{site_of, cluster_of, good_site};
ghost use Rattle.runs.specs.Runs.{events_of, good_run, easings, Runs};

use base::Refusal;
use site::Cluster;

// How many events a run met, and how many of them were taken; refused with STATE if what was lent is not well formed.
#[derive(Clone, Copy)]
pub struct Ran {
    pub answer: Result<(), Refusal>,
    pub met: usize,
    pub taken: usize,
    pub cluster: Cluster,
}

// Events from lent words, as many as there are and the budget allows; a refusal stops nothing.
pub fn run<'a>(
    c: Cluster,
    es: &[u64],
    budget: usize,
    hists: &mut [u64],
    cands: &'a mut [u64],
    queue: &'a mut [u64],
    out: &mut [u64],
) -> Ran
    ensures { Runs c (good_run c.sizes c.depth (site_of c hists.old cands.old queue.old out.old) es.now) (events_of c.sizes es.now budget) hists.old cands.old queue.old out.old result hists.new cands.new queue.new out.new }
{
    if !site::good(c, hists, cands, queue, out) {
        return many::refused(c);
    }
    if es.len() % 3 != 0 {
        return many::refused(c);
    }
    let n = es.len() / 3;
    if n <= budget {
        return many::many(c, es, n, hists, cands, queue, out);
    }
    many::many(c, es, budget, hists, cands, queue, out)
}

// Waiting messages delivered, lowest channel first, until none waits or the budget is spent: how many, and how many were taken.
pub fn settle<'a>(
    c: Cluster,
    budget: usize,
    hists: &mut [u64],
    cands: &'a mut [u64],
    queue: &'a mut [u64],
    out: &mut [u64],
) -> Ran
    ensures { Runs c (good_site c.sizes c.depth (site_of c hists.old cands.old queue.old out.old)) (easings c.sizes c.depth budget (cluster_of c.sizes c.depth (site_of c hists.old cands.old queue.old out.old))) hists.old cands.old queue.old out.old result hists.new cands.new queue.new out.new }
{
    if !site::good(c, hists, cands, queue, out) {
        return many::refused(c);
    }
    many::ease(c, budget, hists, cands, queue, out)
}
