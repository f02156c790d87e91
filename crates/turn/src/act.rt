// An event at one server: room is tested before a word is written.
ghost use Rattle.std.specs.Prelude.{◌≡◌, true, ◌≤◌, ◌<◌};
ghost use Rattle.server.specs.Whole.{Known, reply};
ghost use Rattle.ring.specs.Queue.{good_rings};
ghost use Rattle.turn.specs.Act.{may_send, Set, Acts, Seat, Enacts};

use base::{Refusal, Sizes};
use plan::Plan;
use ring::Rings;
use rules::State;
use server::{Answer, Event};

// Whether there is room for what a plan sends.
fn may_send(z: Sizes, depth: u8, r: Rings, i: u8, p: Result<Plan, Refusal>) -> bool
    requires { (z.n ≤ 7) × ((depth ≤ 16) × ((good_rings depth r ≡ true) × (i < z.n))) }
    ensures { result ≡ may_send z depth r i p }
{
    match p {
        Ok(p) => post::has_room(z, depth, r, i, p.empties, p.one.to, p.two.to),
        Err(_) => true,
    }
}

// An event at a server: the plan, the test of room before anything is written, and then the hands.
fn act<'a>(
    z: Sizes,
    depth: u8,
    r: Rings,
    s: State,
    ev: Event,
    hist: &mut [u64],
    cand: &'a mut [u64],
    msg: &'a [u64],
    out: &mut [u64],
) -> Result<Answer, Refusal>
    requires { (Set z depth r s) × (Known z s ev hist.old cand.old msg.now out.old) }
    ensures { Acts z depth r s ev hist.old cand.old msg.now out.old (reply s result) hist.new cand.new out.new }
{
    let p = server::decide(z, s, hist, cand, ev, msg);
    if !may_send(z, depth, r, s.me, p) {
        return Err(Refusal::Room);
    }
    server::carry(z, s, ev, p, hist, cand, msg, out)
}

// The same, on the server's part of the lent words of all.
pub fn enact<'a>(
    z: Sizes,
    depth: u8,
    r: Rings,
    s: State,
    ev: Event,
    hists: &mut [u64],
    cands: &'a mut [u64],
    msg: &'a [u64],
    out: &mut [u64],
) -> Result<Answer, Refusal>
    requires { Seat z depth r s ev hists.old cands.old msg.now out.old }
    ensures { Enacts z depth r s ev hists.old cands.old msg.now out.old (reply s result) hists.new cands.new out.new }
{
    let l = 2 * (z.room.0 as usize);
    let x = l * usize::from(s.me);
    let y = x + l;
    act(
        z,
        depth,
        r,
        s,
        ev,
        &mut hists[x..y],
        &mut cands[x..y],
        msg,
        out,
    )
}
