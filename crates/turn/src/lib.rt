// An event of a cluster that is known to be well formed; it leaves a well-formed one.
#![tactic(auto)]

mod act;

ghost use Rattle.std.specs.Prelude.{◌≡◌, true, ◌+◌, ◌<◌};
ghost use Rattle.rules.specs.Cluster.{drops, O, D};
ghost use Rattle.ring.specs.Queue.{Ringed, Chan};
ghost use Rattle.server.specs.Whole.{lent_len, reply};
ghost use Rattle.base.specs.Refusals.{number};
ghost use Rattle.turn.specs.Act.{Enacts};
ghost use Rattle.site.specs.Site.{site_of, Good};
ghost use Rattle.turn.specs.Events.{meant, alone, ruled, waits};
ghost use Rattle.turn.specs.Turns.{Ships, Shipped, seat_of, Local, first_words, Hears, Delivered, Turned};

use base::{Refusal, Sizes};
use ring::Rings;
use rules::State;
use server::{Answer, Event};
use site::{Cluster, Told};

// What may happen, as a script says it: O s x, R s, D from to, S s v; and anything else.
#[derive(Clone, Copy)]
pub enum Happening {
    Oracle(u64, u64),
    Restart(u64),
    Deliver(u64, u64),
    Submit(u64, u64),
    Unknown,
}

// What a server sent into the rings, after its channels were emptied if it says so.
fn send(
    z: Sizes,
    depth: u8,
    r: Rings,
    queue: &mut [u64],
    i: u8,
    empties: bool,
    out: &[u64],
    n: usize,
) -> Rings
    requires { Ships z depth r queue.old i empties out.now n }
    ensures { Shipped z depth r queue.old i empties out.now n result queue.new }
{
    let s = if empties {
        ring::empty_channels(z, depth, r, queue, i)
    } else {
        r
    };
    post::post(z, depth, s, queue, i, out, n)
}

// The cluster with server i's record and the rings anew.
fn seat(c: Cluster, i: u8, s: State, r: Rings) -> Cluster
    requires { i < 7 }
    ensures { result ≡ seat_of c i s r }
{
    let mut d = c;
    d.servers[usize::from(i)] = s;
    d.rings = r;
    d
}

// An oracle event, a restart or a submission at server i.
fn local<'a>(
    c: Cluster,
    i: u8,
    ev: Event,
    hists: &mut [u64],
    cands: &'a mut [u64],
    queue: &'a mut [u64],
    out: &mut [u64],
) -> Told
    requires { (Good c.sizes c.depth (site_of c hists.old cands.old queue.old out.old)) × ((i < c.sizes.n) × (lent_len c.sizes ev 0 ≡ true)) }
    ensures { Local c i ev hists.old cands.old queue.old out.old result hists.new cands.new queue.new out.new }
{
    let z = c.sizes;
    let depth = c.depth;
    let r = c.rings;
    let s = c.servers[usize::from(i)];
    match act::enact(z, depth, r, s, ev, hists, cands, &queue[0..0], out) {
        Err(why) => Told {
            answer: Err(why),
            cluster: c,
        },
        Ok(a) => {
            let t = send(z, depth, r, queue, i, a.empties, out, a.sent);
            Told {
                answer: Ok(()),
                cluster: seat(c, i, a.state, t),
            }
        }
    }
}

// Whether a refused delivery drops the message handed over.
fn drops(why: Refusal) -> bool
    ensures { result ≡ drops (number why) }
{
    !matches!(
        why,
        Refusal::State | Refusal::Event | Refusal::Room | Refusal::Trace
    )
}

// The words of the first message from f to i.
fn first<'a>(z: Sizes, depth: u8, r: Rings, queue: &'a [u64], f: u8, i: u8) -> &'a [u64]
    requires { (Ringed z depth r queue.now) × (Chan z f i) }
    ensures { result.now ≡ first_words z depth r f i queue.now }
{
    let at = ring::front(z, depth, r, f, i);
    let end = at + ring::msg_size(z);
    &queue[at..end]
}

// The first message from f, handed to server s as it lies in its slot.
fn hear<'a>(
    z: Sizes,
    depth: u8,
    r: Rings,
    s: State,
    f: u8,
    hists: &mut [u64],
    cands: &'a mut [u64],
    queue: &'a [u64],
    out: &mut [u64],
) -> Result<Answer, Refusal>
    requires { (Ringed z depth r queue.now) × (Hears z depth r s f hists.old cands.old queue.now out.old) }
    ensures { Enacts z depth r s (Event.Deliver f) hists.old cands.old (first_words z depth r f s.me queue.now) out.old (reply s result) hists.new cands.new out.new }
{
    let m = first(z, depth, r, queue, f, s.me);
    act::enact(z, depth, r, s, Event::Deliver(f), hists, cands, m, out)
}

// The delivery of the first message from f to t.
fn deliver<'a>(
    c: Cluster,
    f: u8,
    t: u8,
    hists: &mut [u64],
    cands: &'a mut [u64],
    queue: &'a mut [u64],
    out: &mut [u64],
) -> Told
    requires { (Good c.sizes c.depth (site_of c hists.old cands.old queue.old out.old)) × (waits c.sizes c.rings f t ≡ true) }
    ensures { Delivered c f t hists.old cands.old queue.old out.old result hists.new cands.new queue.new out.new }
{
    let z = c.sizes;
    let depth = c.depth;
    let r = c.rings;
    let s = c.servers[usize::from(t)];
    match hear(z, depth, r, s, f, hists, cands, queue, out) {
        Ok(a) => {
            let w = ring::pop(z, depth, r, queue, f, t);
            let x = send(z, depth, w, queue, t, a.empties, out, a.sent);
            Told {
                answer: Ok(()),
                cluster: seat(c, t, a.state, x),
            }
        }
        Err(why) => {
            if drops(why) {
                let mut d = c;
                d.rings = ring::pop(z, depth, r, queue, f, t);
                return Told {
                    answer: Err(why),
                    cluster: d,
                };
            }
            Told {
                answer: Err(why),
                cluster: c,
            }
        }
    }
}

// A delivery, if a message waits.
fn delivery<'a>(
    c: Cluster,
    f: u64,
    t: u64,
    hists: &mut [u64],
    cands: &'a mut [u64],
    queue: &'a mut [u64],
    out: &mut [u64],
) -> Told
    requires { Good c.sizes c.depth (site_of c hists.old cands.old queue.old out.old) }
    ensures { Turned c (D f t) hists.old cands.old queue.old out.old result hists.new cands.new queue.new out.new }
{
    let n = u64::from(c.sizes.n);
    if n <= f || n <= t {
        return Told {
            answer: Err(Refusal::Event),
            cluster: c,
        };
    }
    let z = c.sizes;
    let r = c.rings;
    let k = ring::channel(z, f as u8, t as u8);
    if r.counts[k] == 0 {
        return Told {
            answer: Err(Refusal::Event),
            cluster: c,
        };
    }
    deliver(c, f as u8, t as u8, hists, cands, queue, out)
}

// What server s does for itself, if there is such a server.
fn alone<'a>(
    c: Cluster,
    s: u64,
    ev: Event,
    hists: &mut [u64],
    cands: &'a mut [u64],
    queue: &'a mut [u64],
    out: &mut [u64],
) -> Told
    requires { (Good c.sizes c.depth (site_of c hists.old cands.old queue.old out.old)) × (alone ev ≡ true) }
    ensures { Turned c (ruled s ev) hists.old cands.old queue.old out.old result hists.new cands.new queue.new out.new }
{
    if u64::from(c.sizes.n) <= s {
        return Told {
            answer: Err(Refusal::Event),
            cluster: c,
        };
    }
    local(c, s as u8, ev, hists, cands, queue, out)
}

// An oracle event, if there are such servers.
fn oracle<'a>(
    c: Cluster,
    s: u64,
    x: u64,
    hists: &mut [u64],
    cands: &'a mut [u64],
    queue: &'a mut [u64],
    out: &mut [u64],
) -> Told
    requires { Good c.sizes c.depth (site_of c hists.old cands.old queue.old out.old) }
    ensures { Turned c (O s x) hists.old cands.old queue.old out.old result hists.new cands.new queue.new out.new }
{
    if u64::from(c.sizes.n) <= x {
        return Told {
            answer: Err(Refusal::Event),
            cluster: c,
        };
    }
    alone(c, s, Event::Oracle(x as u8), hists, cands, queue, out)
}

// Any event.
pub fn turn<'a>(
    c: Cluster,
    e: Happening,
    hists: &mut [u64],
    cands: &'a mut [u64],
    queue: &'a mut [u64],
    out: &mut [u64],
) -> Told
    requires { Good c.sizes c.depth (site_of c hists.old cands.old queue.old out.old) }
    ensures { Turned c (meant c.sizes e) hists.old cands.old queue.old out.old result hists.new cands.new queue.new out.new }
{
    match e {
        Happening::Oracle(s, x) => oracle(c, s, x, hists, cands, queue, out),
        Happening::Restart(s) => alone(c, s, Event::Restart, hists, cands, queue, out),
        Happening::Deliver(f, t) => delivery(c, f, t, hists, cands, queue, out),
        Happening::Submit(s, v) => alone(c, s, Event::Submit(v), hists, cands, queue, out),
        Happening::Unknown => Told {
            answer: Err(Refusal::Event),
            cluster: c,
        },
    }
}
