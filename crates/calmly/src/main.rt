// The calm run of three to seven servers: for each a line with the number of deliveries that recovery took and the
// number that a submission took after it.
#![tactic(auto)]

ghost use Rattle.std.specs.Prelude.{◌≤◌, ◌<◌, ◌≡◌, true};
ghost use Rattle.cluster.specs.Any.{good_fresh};
ghost use Rattle.pledge.specs.Moves.{Counted};
ghost use Rattle.calmly.specs.Counts.{sizes_of};

use base::{Place, Sizes};
use pledge::Calmed;
use std::io;

// A fresh cluster of these sizes on the lent words, and its calm run with x as leader.
fn calm_run<'a>(
    z: Sizes,
    x: u8,
    hists: &mut [u64],
    cands: &'a mut [u64],
    queue: &'a mut [u64],
    out: &mut [u64],
) -> Calmed
    ensures { good_fresh z 2 hists.old cands.old queue.old out.old ≡ true → x < z.n → Counted z result }
{
    let f = cluster::fresh(z, 2, hists, cands, queue, out);
    pledge::calm(f.cluster, x, 7, hists, cands, queue, out)
}

// The calm run of n servers, the last of which leads: room for four transactions, channels of depth two.
fn calm_of(n: u8) -> Calmed
    requires { (3 ≤ n) × (n ≤ 7) }
    ensures { Counted (sizes_of n) result }
{
    let mut hists = [0u64; 56];
    let mut cands = [0u64; 56];
    let mut queue = [0u64; 1176];
    let mut out = [0u64; 78];
    let room = Place(4);
    let z = Sizes { n, room };
    let k = usize::from(n);
    calm_run(
        z,
        n - 1,
        &mut hists[..8 * k],
        &mut cands[..8 * k],
        &mut queue[..24 * k * k],
        &mut out,
    )
}

// Its two numbers, on a line.
fn print_of(rt: &impl Print, n: u8) -> io::Result<()>
    requires { (3 ≤ n) × (n ≤ 7) }
{
    let t = calm_of(n);
    println!(rt; "{} {}", t.first, t.second)
}

// Three to seven servers.
fn main(rt: HostRuntime) -> io::Result<()> {
    for n in 3..=7 {
        print_of(&rt, n)?;
    }
    Ok(())
}
