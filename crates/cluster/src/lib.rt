// The cluster: servers and the channels between them. Any event, and a fresh cluster.
#![tactic(auto)]

mod start;

ghost use Rattle.turn.specs.Events.{meant};
ghost use Rattle.cluster.specs.Any.{Happens, Freshly};

use base::{Refusal, Sizes};
use site::{Cluster, Told};
use turn::Happening;

// An event, of any input whatever.
pub fn event<'a>(
    c: Cluster,
    e: Happening,
    hists: &mut [u64],
    cands: &'a mut [u64],
    queue: &'a mut [u64],
    out: &mut [u64],
) -> Told
    ensures { Happens c (meant c.sizes e) hists.old cands.old queue.old out.old result hists.new cands.new queue.new out.new }
{
    if !site::good(c, hists, cands, queue, out) {
        return Told {
            answer: Err(Refusal::State),
            cluster: c,
        };
    }
    turn::turn(c, e, hists, cands, queue, out)
}

// A fresh cluster; the words lent to it become zero.
pub fn fresh(
    z: Sizes,
    depth: u8,
    hists: &mut [u64],
    cands: &mut [u64],
    queue: &mut [u64],
    out: &[u64],
) -> Told
    ensures { Freshly z depth hists.old cands.old queue.old out.now result hists.new cands.new queue.new }
{
    let c = start::fresh_cluster(z, depth);
    if !site::may_lend(z, depth, hists.len(), cands.len(), queue.len(), out.len()) {
        return Told {
            answer: Err(Refusal::State),
            cluster: c,
        };
    }
    words::clear_from(hists, 0);
    words::clear_from(cands, 0);
    words::clear_from(queue, 0);
    Told {
        answer: Ok(()),
        cluster: c,
    }
}
