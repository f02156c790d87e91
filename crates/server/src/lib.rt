// One server's step on lent words: the plan, carried out.
#![tactic(auto)]

ghost use Rattle.std.specs.Prelude.{◌≡◌, true, false, ◌+◌, ◌*◌, ◌≤◌, ◌<◌, length, drop};
ghost use Rattle.rules.specs.Tree.{run};
ghost use Rattle.rules.specs.Step.{receive};
ghost use Rattle.rules.specs.Words.{server_of};
ghost use Rattle.plan.specs.Plans.{Plans, Sized, From, meant, held};
ghost use Rattle.server.specs.Whole.{answer_of, load_at, lent_len, Known, Can, Decides, Steps, Does, step_of, reply};
ghost use Rattle.rules.specs.Words.{has};
ghost use Rattle.server.specs.Foreseen.{told, seen_of, foreseen, preview_of};

use base::{Refusal, Sizes};
use plan::{Message, Plan};
use rules::State;

// What may happen at a server; the words of a delivered message are lent beside it.
#[derive(Clone, Copy)]
pub enum Event {
    Oracle(u8),
    Restart,
    Deliver(u8),
    Submit(u64),
    Unknown,
}

// A step taken: how many messages stand in the outbox, whether the channels to and from the server are to be emptied, and the
// record after it.
#[derive(Clone, Copy)]
pub struct Answer {
    pub sent: usize,
    pub empties: bool,
    pub state: State,
}

// What an event that would be taken would do: whether the channels would be emptied, and how many messages would go to whom.
#[derive(Clone, Copy, Debug, PartialEq, Eq)]
pub struct Forecast {
    pub empties: bool,
    pub to: [u8; 7],
}

// What a message would do, its history in `load`.
fn decide_message<'a>(
    z: Sizes,
    s: State,
    hist: &[u64],
    cand: &'a [u64],
    load: &'a [u64],
    from: u8,
    m: Message,
) -> Result<Plan, Refusal>
    requires { (Sized z s) × ((From z s from) × ((2 * z.room.0 ≤ length hist.now) × ((2 * z.room.0 ≤ length cand.now) × ((2 * z.room.0 ≤ length load.now) × (held m ≤ z.room.0))))) }
    ensures { Plans z s result hist.now cand.now load.now (run (receive z s.me from (meant m load.now) (server_of s hist.now cand.now))) }
{
    match m {
        Message::Cepoch(e) => lead::plan_cepoch(z, s, from, e),
        Message::Newepoch(e) => follow::plan_newepoch(z, s, from, e),
        Message::Acke(e, a, n) => lead::plan_acke(z, s, hist, cand, load, from, e, a, n),
        Message::Newleader(e, n) => follow::plan_newleader(z, s, hist, load, from, e, n),
        Message::Ackld(e, c) => deliver::plan_ackld(z, s, from, e, c),
        Message::Commitld(e, c) => follow::plan_commitld(z, s, from, e, c),
        Message::Propose(e, n, t) => follow::plan_propose(z, s, hist, from, e, n, t),
        Message::Ack(e, n) => deliver::plan_ack(z, s, from, e, n),
        Message::Commit(e, c) => follow::plan_commit(z, s, from, e, c),
    }
}

// A delivery: the sender, then the message, then what the message does.
fn decide_delivery<'a>(
    z: Sizes,
    s: State,
    hist: &[u64],
    cand: &'a [u64],
    from: u8,
    msg: &'a [u64],
) -> Result<Plan, Refusal>
    requires { Can z s (Event.Deliver from) hist.now cand.now msg.now }
    ensures { Plans z s result hist.now cand.now (drop 4 msg.now) (answer_of z s (Event.Deliver from) hist.now cand.now msg.now) }
{
    if z.n <= from {
        return Err(Refusal::Event);
    }
    if from == s.me {
        return Err(Refusal::Event);
    }
    let m = message::read(z, msg).ok_or(Refusal::Message)?;
    decide_message(z, s, hist, cand, &msg[4..], from, m)
}

// What an event would do: nothing is written.
pub fn decide<'a>(
    z: Sizes,
    s: State,
    hist: &[u64],
    cand: &'a [u64],
    ev: Event,
    msg: &'a [u64],
) -> Result<Plan, Refusal>
    requires { Can z s ev hist.now cand.now msg.now }
    ensures { Decides z s ev result hist.now cand.now msg.now }
{
    match ev {
        Event::Oracle(x) => follow::plan_oracle(z, s, x),
        Event::Restart => follow::plan_restart(z, s),
        Event::Deliver(f) => decide_delivery(z, s, hist, cand, f, msg),
        Event::Submit(v) => deliver::plan_submit(z, s, hist, v),
        Event::Unknown => Err(Refusal::Event),
    }
}

// Where a delivered message's history begins.
fn load_at(ev: Event) -> usize
    ensures { result ≡ load_at ev }
{
    match ev {
        Event::Deliver(_) => 4,
        _ => 0,
    }
}

// The plan of an event, carried out.
pub fn carry(
    z: Sizes,
    s: State,
    ev: Event,
    r: Result<Plan, Refusal>,
    hist: &mut [u64],
    cand: &mut [u64],
    msg: &[u64],
    out: &mut [u64],
) -> Result<Answer, Refusal>
    requires { (Known z s ev hist.old cand.old msg.now out.old) × (Decides z s ev r hist.old cand.old msg.now) }
    ensures { Steps z s ev hist.old cand.old msg.now out.old (reply s result) hist.new cand.new out.new }
{
    let p = r?;
    let at = load_at(ev);
    let sent = hands::perform(z, p, s.cand_len, hist, cand, &msg[at..], out);
    Ok(Answer {
        sent,
        empties: p.empties,
        state: p.state,
    })
}

// The step of a record that is known to be well formed; it leaves a well-formed one.
pub fn step_known<'a>(
    z: Sizes,
    s: State,
    hist: &mut [u64],
    cand: &'a mut [u64],
    ev: Event,
    msg: &'a [u64],
    out: &mut [u64],
) -> Result<Answer, Refusal>
    requires { Known z s ev hist.old cand.old msg.now out.old }
    ensures { Steps z s ev hist.old cand.old msg.now out.old (reply s result) hist.new cand.new out.new }
{
    let r = decide(z, s, hist, cand, ev, msg);
    carry(z, s, ev, r, hist, cand, msg, out)
}

fn is_lent(z: Sizes, ev: Event, len: usize) -> bool
    requires { z.room.0 ≤ 64 }
    ensures { result ≡ lent_len z ev len }
{
    match ev {
        Event::Deliver(_) => len == 4 + 2 * (z.room.0 as usize),
        _ => true,
    }
}

// The step, of any input whatever.
pub fn step<'a>(
    z: Sizes,
    s: State,
    hist: &mut [u64],
    cand: &'a mut [u64],
    ev: Event,
    msg: &'a [u64],
    out: &mut [u64],
) -> Result<Answer, Refusal>
    ensures { Does (step_of z s ev hist.old cand.old msg.now out.old) (reply s result) hist.new cand.new out.new }
{
    if !sound::sound(z, s, hist, cand) {
        return Err(Refusal::State);
    }
    if !is_lent(z, ev, msg.len()) {
        return Err(Refusal::State);
    }
    if out.len() < 6 * (5 + 2 * (z.room.0 as usize)) {
        return Err(Refusal::State);
    }
    step_known(z, s, hist, cand, ev, msg, out)
}

// How many messages of two casts go to server j.
fn tell(one: [bool; 7], two: [bool; 7], n: u8, me: u8, j: u8) -> u8
    requires { j < 7 }
    ensures { result ≡ told n me (has one) (has two) j }
{
    if n <= j {
        return 0;
    }
    if j == me {
        return 0;
    }
    let k = j as usize;
    u8::from(one[k]) + u8::from(two[k])
}

fn seen(z: Sizes, me: u8, r: Plan) -> Forecast
    ensures { result ≡ seen_of z me r }
{
    let one = r.one.to;
    let two = r.two.to;
    let n = z.n;
    let a = tell(one, two, n, me, 0);
    let b = tell(one, two, n, me, 1);
    let c = tell(one, two, n, me, 2);
    let d = tell(one, two, n, me, 3);
    let e = tell(one, two, n, me, 4);
    let f = tell(one, two, n, me, 5);
    let g = tell(one, two, n, me, 6);
    Forecast {
        empties: r.empties,
        to: [a, b, c, d, e, f, g],
    }
}

// The preview of any input whatever; nothing is written.
pub fn preview<'a>(
    z: Sizes,
    s: State,
    hist: &[u64],
    cand: &'a [u64],
    ev: Event,
    msg: &'a [u64],
) -> Result<Forecast, Refusal>
    ensures { foreseen result ≡ preview_of z s ev hist.now cand.now msg.now }
{
    if !sound::sound(z, s, hist, cand) {
        return Err(Refusal::State);
    }
    if !is_lent(z, ev, msg.len()) {
        return Err(Refusal::State);
    }
    let r = decide(z, s, hist, cand, ev, msg)?;
    Ok(seen(z, s.me, r))
}
