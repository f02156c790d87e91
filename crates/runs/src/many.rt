// Many events: the cluster is tested once and not at each event.
ghost use Rattle.std.specs.Prelude.{◌≡◌, ◌+◌, ◌*◌, ◌≤◌, ◌<◌, eqb, length};
ghost use Rattle.base.specs.Choice.{pick};
ghost use Rattle.base.specs.Refusals.{code_of};
ghost use Rattle.base.specs.declared.Sizes.{Sizes};
ghost use Rattle.site.specs.Site.{site_of, cluster_of, Good};
ghost use Rattle.turn.specs.Events.{meant};
ghost use Rattle.runs.specs.Runs.{event_at, events_from, lowest_ring, easings, On, Does, refused_of};

use crate::Ran;
use base::{Refusal, Sizes};
use ring::Rings;
use site::Cluster;
use turn::Happening;

// Event j of the lent words.
fn read_event(es: &[u64], j: usize) -> Happening
    requires { 3 * j + 3 ≤ length es.now }
    ensures { (z : Sizes) → meant z result ≡ event_at z es.now j }
{
    let at = 3 * j;
    let a = es[at + 1];
    let b = es[at + 2];
    match es[at] {
        1 => Happening::Oracle(a, b),
        2 => Happening::Restart(a),
        3 => Happening::Deliver(a, b),
        4 => Happening::Submit(a, b),
        _ => Happening::Unknown,
    }
}

// An event taken is counted.
fn one_if(answer: Result<(), Refusal>) -> usize
    ensures { (result ≡ pick (eqb (code_of answer) 0) 1 0) × (result ≤ 1) }
{
    usize::from(answer.is_ok())
}

// One event more.
fn on<'a>(
    t: Ran,
    e: Happening,
    hists: &mut [u64],
    cands: &'a mut [u64],
    queue: &'a mut [u64],
    out: &mut [u64],
) -> Ran
    requires { (Good t.cluster.sizes t.cluster.depth (site_of t.cluster hists.old cands.old queue.old out.old)) × (t.met < 18446744073709551615 × (t.taken ≤ t.met)) }
    ensures { On t (meant t.cluster.sizes e) hists.old cands.old queue.old out.old result hists.new cands.new queue.new out.new }
{
    let c = t.cluster;
    let a = turn::turn(c, e, hists, cands, queue, out);
    let d = a.cluster;
    let k = one_if(a.answer);
    Ran {
        answer: Ok(()),
        met: t.met + 1,
        taken: t.taken + k,
        cluster: d,
    }
}

// The first n events of the lent words.
pub fn many<'a>(
    c: Cluster,
    es: &[u64],
    n: usize,
    hists: &mut [u64],
    cands: &'a mut [u64],
    queue: &'a mut [u64],
    out: &mut [u64],
) -> Ran
    requires { (Good c.sizes c.depth (site_of c hists.old cands.old queue.old out.old)) × (3 * n ≤ length es.now) }
    ensures { Does c (events_from c.sizes es.now 0 n) hists.old cands.old queue.old out.old result hists.new cands.new queue.new out.new }
{
    let mut t = Ran {
        answer: Ok(()),
        met: 0,
        taken: 0,
        cluster: c,
    };
    for j in 0..n {
        let e = read_event(es, j);
        t = on(t, e, hists, cands, queue, out);
    }
    t
}

// The lowest channel in which a message waits, or their number.
fn lowest(z: Sizes, r: Rings) -> usize
    requires { z.n ≤ 7 }
    ensures { (result ≡ lowest_ring r 0 (z.n * z.n)) × (result ≤ z.n * z.n) }
{
    let n = usize::from(z.n) * usize::from(z.n);
    r.counts[..n].iter().position(|k| *k >= 1).unwrap_or(n)
}

// Deliveries, lowest channel first, until none waits or the budget is spent.
pub fn ease<'a>(
    c: Cluster,
    budget: usize,
    hists: &mut [u64],
    cands: &'a mut [u64],
    queue: &'a mut [u64],
    out: &mut [u64],
) -> Ran
    requires { Good c.sizes c.depth (site_of c hists.old cands.old queue.old out.old) }
    ensures { Does c (easings c.sizes c.depth budget (cluster_of c.sizes c.depth (site_of c hists.old cands.old queue.old out.old))) hists.old cands.old queue.old out.old result hists.new cands.new queue.new out.new }
{
    let z = c.sizes;
    let n = z.n as usize;
    let mut t = Ran {
        answer: Ok(()),
        met: 0,
        taken: 0,
        cluster: c,
    };
    // Stays: no plainer: `met` is part of the result and the budget bounds it; an index would count the same again.
    while t.met < budget {
        let d = t.cluster;
        let r = d.rings;
        let j = lowest(z, r);
        if n * n <= j {
            return t;
        }
        let e = Happening::Deliver((j / n) as u64, (j % n) as u64);
        t = on(t, e, hists, cands, queue, out);
    }
    t
}

pub fn refused(c: Cluster) -> Ran
    ensures { result ≡ refused_of c }
{
    Ran {
        answer: Err(Refusal::State),
        met: 0,
        taken: 0,
        cluster: c,
    }
}
