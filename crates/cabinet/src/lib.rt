// What a host calls: one step of a server, its record, its histories and the messages in lent bytes; and the trace checker.
#![tactic(auto)]

mod run;

ghost use Rattle.std.specs.Prelude.{◌≡◌, [], ◌∷◌, ◌*◌, ◌≤◌, length};
ghost use Rattle.octets.specs.Bytes.{words_of, bytes_of};
ghost use Rattle.server.specs.Whole.{reply};
ghost use Rattle.trace.specs.Meaning.{meant, verdict};
ghost use Rattle.cabinet.specs.Trace.{check_of, Judges};
ghost use Rattle.cabinet.specs.Zab.{sized, slotted, lent_words, event_of, Lent, word_step, Steps, zab_of, Does};

use base::{Place, Refusal, Sizes};
use octets::RECORD_LEN;
use rules::State;
pub use run::zab_run;
use server::{Answer, Event};
use trace::Verdict;

// The number of the event that delivers a message.
const DELIVER: u8 = 3;

// The most transactions that a history has room for; and the words of such a history, of a message and of six slots.
const MOST_ROOM: usize = 64;

const HISTORY_LEN: usize = 2 * MOST_ROOM;

const MESSAGE_LEN: usize = 4 + HISTORY_LEN;

const OUTBOX_LEN: usize = 6 * (1 + MESSAGE_LEN);

// The most words of a trace, and the words that the checker works in.
const TRACE_LEN: usize = 5120;

const SPACE_LEN: usize = 4096;

// The event that a number names.
#[tactic(auto, unfolding(crate::specs::Zab::event_of, base::specs::Choice::pick))]
fn event_of(event: u8, who: u8, value: u64) -> Event
    ensures { result ≡ event_of event who value }
{
    match event {
        1 => Event::Oracle(who),
        2 => Event::Restart,
        DELIVER => Event::Deliver(who),
        4 => Event::Submit(value),
        _ => Event::Unknown,
    }
}

// How many words of the message an event reads.
#[tactic(auto, unfolding(crate::specs::Zab::lent_words, base::specs::Choice::pick))]
fn lent_words(event: u8, room: usize) -> usize
    requires { room ≤ 64 }
    ensures { result ≡ lent_words event room }
{
    if event == DELIVER { 4 + 2 * room } else { 0 }
}

// Are the lent slices of the right lengths? The message has its own test.
#[tactic(auto, unfolding(crate::specs::Zab::sized, base::specs::Choice::both))]
fn sizes_fit(room: usize, rec: usize, hist: usize, cand: usize, out: usize, told: usize) -> bool
    ensures { result ≡ sized room rec hist cand out told }
{
    room <= MOST_ROOM
        && rec == 8 * RECORD_LEN
        && hist == 8 * (2 * room)
        && cand == 8 * (2 * room)
        && out >= 8 * (6 * (5 + 2 * room))
        && out % 8 == 0
        && told == 2
}

#[tactic(auto, unfolding(crate::specs::Zab::slotted, base::specs::Choice::pick))]
fn slot_fits(event: u8, room: usize, msg: usize) -> bool
    requires { room ≤ 64 }
    ensures { result ≡ slotted event room msg }
{
    event != DELIVER || msg == 8 * (4 + 2 * room)
}

// A step on bytes of the right lengths. On a refusal nothing is written.
fn step_bytes(
    z: Sizes,
    s: State,
    ev: Event,
    lent: usize,
    hist: &mut [u8],
    cand: &mut [u8],
    msg: &[u8],
    out: &mut [u8],
) -> Result<Answer, Refusal>
    requires { Lent z.room.0 lent hist.old cand.old msg.now out.old }
    ensures { Steps (word_step z s ev lent hist.old cand.old msg.now out.old) (reply s result) hist.old cand.old out.old hist.new cand.new out.new }
{
    let room = z.room.0 as usize;
    let n = 2 * room;
    let k = 6 * (5 + 2 * room);
    let mut h = [0u64; HISTORY_LEN];
    let mut c = [0u64; HISTORY_LEN];
    let mut m = [0u64; MESSAGE_LEN];
    let mut o = [0u64; OUTBOX_LEN];
    octets::load(hist, &mut h, n);
    octets::load(cand, &mut c, n);
    octets::load(msg, &mut m, lent);
    octets::load(out, &mut o, k);
    let answer = server::step(
        z,
        s,
        &mut h[0..n],
        &mut c[0..n],
        ev,
        &m[0..lent],
        &mut o[0..k],
    )?;
    octets::save(&h, hist, n);
    octets::save(&c, cand, n);
    octets::save(&o, out, k);
    Ok(answer)
}

// The step of a server on lent bytes: 0, or the refusal's number, and then every byte is as it was.
#[tactic(auto, unfolding(crate::specs::Zab::sized, base::specs::Choice::both))]
pub fn zab_step(
    n: u8,
    room: u32,
    record: &mut [u8],
    hist: &mut [u8],
    cand: &mut [u8],
    event: u8,
    who: u8,
    value: u64,
    msg: &[u8],
    out: &mut [u8],
    told: &mut [u8],
) -> u8
    ensures { Does (zab_of n room event who value «record».old hist.old cand.old msg.now out.old told.old) result «record».new hist.new cand.new out.new told.new }
{
    let r = room as usize;
    if !sizes_fit(
        r,
        record.len(),
        hist.len(),
        cand.len(),
        out.len(),
        told.len(),
    ) {
        return u8::from(Refusal::State);
    }
    if !slot_fits(event, r, msg.len()) {
        return u8::from(Refusal::State);
    }
    let mut w = [0u64; RECORD_LEN];
    octets::load(record, &mut w, RECORD_LEN);
    if !octets::record_fits(&w) {
        return u8::from(Refusal::State);
    }
    let s = octets::read_state(&w);
    let z = Sizes {
        n,
        room: Place(room),
    };
    let ev = event_of(event, who, value);
    let lent = lent_words(event, r);
    match step_bytes(z, s, ev, lent, hist, cand, msg, out) {
        Ok(a) => {
            octets::write_state(&mut w, a.state);
            octets::save(&w, record, RECORD_LEN);
            told.copy_from_slice(&[a.sent as u8, u8::from(a.empties)]);
            0
        }
        Err(why) => u8::from(why),
    }
}

// What the checker says of the first k words of the bytes.
fn verdict_of(n: u32, recs: &[u8], k: usize) -> Verdict
    requires { (8 * k ≤ length recs.now) × (k ≤ 5120) }
    ensures { meant result ≡ verdict n (words_of k recs.now) 4096 }
{
    let mut w = [0u64; TRACE_LEN];
    let mut s = [0u64; SPACE_LEN];
    octets::load(recs, &mut w, k);
    trace::check(n, &w[0..k], &mut s)
}

// A record's place into eight lent bytes, the lowest first.
fn tell(told: &mut [u8], place: u32)
    requires { length told.old ≡ 8 }
    ensures { told.new ≡ bytes_of (place ∷ []) }
{
    octets::save(&[u64::from(place)], told, 1);
}

// The trace checker on lent bytes: 0 if the trace keeps the rules; the rule that is broken first, 1 to 6, its record's place
// then in `told`; or 13.
pub fn zab_check(n: u32, recs: &[u8], told: &mut [u8]) -> u8
    ensures { Judges (check_of n recs.now told.old) result told.new }
{
    let len = recs.len();
    if told.len() != 8 || len > 8 * TRACE_LEN || len % 8 != 0 {
        return u8::from(Refusal::Trace);
    }
    match verdict_of(n, recs, len / 8) {
        Verdict::Keeps => 0,
        Verdict::Breaks(place, rule) => {
            tell(told, place);
            rule as u8
        }
        Verdict::Refused => u8::from(Refusal::Trace),
    }
}
