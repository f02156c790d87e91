// What a line of the script does to the cluster, and what it leaves in the trace.
#![tactic(auto)]

ghost use Rattle.std.specs.Prelude.{◌≡◌, true, ◌+◌, ◌-◌, ◌*◌, ◌≤◌, ◌<◌, length, drop};
ghost use Rattle.base.specs.declared.Sizes.{Sizes};
ghost use Rattle.rules.specs.Words.{txn_at};
ghost use Rattle.site.specs.Parts.{part};
ghost use Rattle.site.specs.Site.{record_at};
ghost use Rattle.turn.specs.Events.{meant, actor, asks};
ghost use Rattle.script.specs.Text.{rec_of, Wrote};
ghost use Rattle.scribe.specs.Telling.{text, event_for, marked, notes, entered, done_by, Seen, MOST, Tells};

use rules::State;
use script::{Command, Note};
use site::Cluster;
use turn::Happening;
use words::TWO32;

// The paper's stage L4, in which a leader takes submissions.
const L4: u8 = 8;

// Where the line's records end, and the cluster after it.
#[derive(Clone, Copy)]
pub struct Said {
    pub end: usize,
    pub cluster: Cluster,
}

// The record of a place of a history: a submission taken, or a transaction delivered.
fn note_at(who: u64, submitted: bool, hist: &[u64], j: usize) -> Note
    requires { (2 * j + 2 ≤ length hist.now) × (j < 64) }
    ensures { rec_of result ≡ marked submitted who (txn_at (drop (2 * j) hist.now)) }
{
    let id = hist[2 * j];
    let v = hist[2 * j + 1];
    let e = id / TWO32;
    let k = id % TWO32;
    if submitted {
        Note::Takes(who, e, k, v)
    } else {
        Note::Delivers(who, e, k, v)
    }
}

// The records of the places from `from` up to `to`.
fn write_notes(
    out: &mut [u8],
    at: usize,
    who: u64,
    submitted: bool,
    hist: &[u64],
    from: usize,
    to: usize,
) -> usize
    requires { (2 * to ≤ length hist.now) × ((to ≤ 64) × (at + 96 * 64 ≤ length out.old)) }
    ensures { (Wrote out.old at (text (notes submitted who hist.now from (to - from))) result out.new) × (result ≤ at + 96 * 64) }
{
    let mut end = at;
    for j in from..to {
        end = script::write_record(out, end, note_at(who, submitted, hist, j));
    }
    end
}

// An E, if the server enters L4.
fn write_entered(out: &mut [u8], was: u8, is: u8, who: u64, p: u32) -> usize
    requires { 96 ≤ length out.old }
    ensures { (Wrote out.old 0 (text (entered was is who p)) result out.new) × (result ≤ 96) }
{
    if was == L4 || is != L4 {
        return 0;
    }
    script::write_record(out, 0, Note::Enters(who, u64::from(p)))
}

// The records of an event taken: E, B, V.
fn write_done(out: &mut [u8], submitted: bool, s: State, t: State, hist: &[u64]) -> usize
    requires { (2 * t.len.0 ≤ length hist.now) × ((t.len.0 ≤ 64) × ((t.d.0 ≤ t.len.0) × (MOST ≤ length out.old))) }
    ensures { Wrote out.old 0 (text (done_by submitted s t hist.now)) result out.new }
{
    let who = u64::from(t.me);
    let a = write_entered(out, s.stage, t.stage, who, t.p.0);
    let to = if submitted { t.len.0 as usize } else { 0 };
    let b = write_notes(out, a, who, true, hist, s.len.0 as usize, to);
    write_notes(out, b, who, false, hist, s.d.0 as usize, t.d.0 as usize)
}

// The event of a line; a bad line is one of no known kind.
#[tactic(auto, unfolding(crate::specs::Telling::event_for, turn::specs::Events::meant))]
fn event_for(cmd: Option<Command>) -> Happening
    ensures { (z : Sizes) → meant z result ≡ event_for z cmd }
{
    match cmd {
        Some(Command::Oracle(s, x)) => Happening::Oracle(s, x),
        Some(Command::Restart(s)) => Happening::Restart(s),
        Some(Command::Deliver(f, t)) => Happening::Deliver(f, t),
        Some(Command::Submit(s, v)) => Happening::Submit(s, v),
        Some(Command::Begin(_)) | None => Happening::Unknown,
    }
}

// Whose record a line reads, if it names a server.
// Stays: an Option would need an arm that is never reached: `tell` asks only where the event was taken; 7 is no server.
#[tactic(auto, unfolding(crate::specs::Telling::event_for, turn::specs::Events::actor))]
fn actor_of(cmd: Option<Command>) -> u64
    ensures { (z : Sizes) → actor (event_for z cmd) < z.n → result ≡ actor (event_for z cmd) }
{
    match cmd {
        Some(Command::Oracle(s, _) | Command::Restart(s) | Command::Submit(s, _)) => s,
        Some(Command::Deliver(_, t)) => t,
        Some(Command::Begin(_)) | None => 7,
    }
}

#[tactic(auto, unfolding(crate::specs::Telling::event_for, turn::specs::Events::asks))]
fn submits(cmd: Option<Command>) -> bool
    ensures { (z : Sizes) → result ≡ asks (event_for z cmd) }
{
    matches!(cmd, Some(Command::Submit(..)))
}

// The records of an event that server i took, between the cluster c before it and d after it.
fn write_taken(
    out: &mut [u8],
    c: Cluster,
    d: Cluster,
    i: u64,
    submitted: bool,
    hists: &[u64],
) -> usize
    requires { (Seen d i hists.now) × (MOST ≤ length out.old) }
    ensures { Wrote out.old 0 (text (done_by submitted (record_at c.servers i) (record_at d.servers i)
        (part d.sizes i hists.now))) result out.new }
{
    let j = i as usize;
    let l = 2 * d.sizes.room.0 as usize;
    write_done(
        out,
        submitted,
        c.servers[j],
        d.servers[j],
        &hists[l * j..l * j + l],
    )
}

// A line of the script: the event, and its records into `out`. Nothing is written by the event before a refusal is known.
pub fn tell<'a>(
    c: Cluster,
    line: u64,
    cmd: Option<Command>,
    hists: &mut [u64],
    cands: &'a mut [u64],
    queue: &'a mut [u64],
    outbox: &mut [u64],
    out: &mut [u8],
) -> Said
    requires { MOST ≤ length out.old }
    ensures { Tells c line (event_for c.sizes cmd) hists.old cands.old queue.old outbox.old out.old result hists.new cands.new queue.new outbox.new out.new }
{
    let e = event_for(cmd);
    let t = cluster::event(c, e, hists, cands, queue, outbox);
    let d = t.cluster;
    if let Err(why) = t.answer {
        let k = u64::from(u8::from(why));
        let end = script::write_record(out, 0, Note::Refuses(line, k));
        return Said { end, cluster: d };
    }
    let i = actor_of(cmd);
    let end = write_taken(out, c, d, i, submits(cmd), hists);
    Said { end, cluster: d }
}
