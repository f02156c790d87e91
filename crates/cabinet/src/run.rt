// The cluster's run from outside, for tests and replays in the same process: its struct and all that it is lent are words.
ghost use Rattle.std.specs.Prelude.{◌≡◌, true, ◌+◌, ◌*◌, ◌≤◌, ◌<◌, length};
ghost use Rattle.base.specs.Choice.{all_below};
ghost use Rattle.rules.specs.Words.{put};
ghost use Rattle.ring.specs.Queue.{RINGS};
ghost use Rattle.octets.specs.Bytes.{under, BYTE};
ghost use Rattle.octets.specs.Record.{RECORD, state_words, state_at};
ghost use Rattle.cabinet.specs.Run.{HELD, record_words, record_place, ring_words, record_fits, held_fits, cluster_at, five_of, records_of, held_of, run_of, Finishes};

use base::{Place, Refusal, Sizes};
use octets::RECORD_LEN;
use ring::Rings;
use rules::State;
use site::Cluster;

// Where the parts of the struct begin, after five numbers, and how many words it has.
const RECORDS: usize = 5;

const HEADS: usize = RECORDS + 7 * RECORD_LEN;

const COUNTS: usize = HEADS + 49;

const HELD_LEN: usize = COUNTS + 49;

// Whether the words of record i fit.
fn record_fits(held: &[u64], i: usize) -> bool
    requires { (length held.now ≡ HELD) × (i < 7) }
    ensures { result ≡ record_fits held.now i }
{
    let at = RECORDS + RECORD_LEN * i;
    octets::record_fits(&held[at..at + RECORD_LEN])
}

// Whether those of every record do.
fn records_fit(held: &[u64]) -> bool
    requires { length held.now ≡ HELD }
    ensures { result ≡ all_below 7 (record_fits held.now) }
{
    (0..7).all(|i| record_fits(held, i))
}

// Whether the struct's words are as many as it has, each within its field.
#[tactic(auto, unfolding(crate::specs::Run::held_fits, base::specs::Choice::both))]
fn held_fits(held: &[u64]) -> bool
    ensures { result ≡ held_fits held.now }
{
    held.len() == HELD_LEN
        && held[0] <= u64::from(u8::MAX)
        && held[1] <= u64::from(u32::MAX)
        && held[2] <= u64::from(u8::MAX)
        && records_fit(held)
        && octets::all_under(held, HEADS, HELD_LEN, u64::from(u8::MAX))
}

// The record of server i.
fn read_record(held: &[u64], i: usize) -> State
    requires { (length held.now ≡ HELD) × ((i < 7) × (record_fits held.now i ≡ true)) }
    ensures { result ≡ state_at (record_words held.now i) }
{
    let at = RECORDS + RECORD_LEN * i;
    octets::read_state(&held[at..at + RECORD_LEN])
}

// A byte of each ring.
fn read_ring(held: &[u64], at: usize) -> [u8; 49]
    requires { (at + RINGS ≤ length held.now) × (under BYTE (ring_words held.now at) ≡ true) }
    ensures { result ≡ ring_words held.now at }
{
    let mut q = [0u8; 49];
    for (i, x) in held[at..at + 49].iter().enumerate() {
        q[i] = octets::tiny(*x);
    }
    q
}

// The struct in words that fit.
#[tactic(auto, using(crate::proofs::Runs::fit_of))]
fn read_cluster(held: &[u64]) -> Cluster
    requires { held_fits held.now ≡ true }
    ensures { result ≡ cluster_at held.now }
{
    Cluster {
        sizes: Sizes {
            n: octets::tiny(held[0]),
            room: Place(octets::narrow(held[1])),
        },
        depth: octets::tiny(held[2]),
        servers: std::array::from_fn(|i| read_record(held, i)),
        rings: Rings {
            heads: read_ring(held, HEADS),
            counts: read_ring(held, COUNTS),
        },
    }
}

// Sizes, depth, how many events were met and how many of them were taken.
fn write_five(held: &mut [u64], z: Sizes, depth: u8, met: usize, taken: usize)
    requires { 5 ≤ length held.old }
    ensures { held.new ≡ put held.old 0 (five_of z depth met taken) }
{
    held[..RECORDS].copy_from_slice(&[
        u64::from(z.n),
        u64::from(z.room.0),
        u64::from(depth),
        met as u64,
        taken as u64,
    ]);
}

// The record of server i.
fn write_record(held: &mut [u64], i: usize, s: State)
    requires { (length held.old ≡ HELD) × (i < 7) }
    ensures { (held.new ≡ put held.old (record_place i) (state_words s)) × (length (state_words s) ≡ RECORD) }
{
    let at = RECORDS + RECORD_LEN * i;
    octets::write_state(&mut held[at..at + RECORD_LEN], s);
}

// All records.
fn write_records(held: &mut [u64], ss: [State; 7])
    requires { length held.old ≡ HELD }
    ensures { (held.new ≡ put held.old 5 (records_of ss)) × (length (records_of ss) ≡ RECORD * 7) }
{
    for (i, s) in ss.iter().enumerate() {
        write_record(held, i, *s);
    }
}

// A byte of each ring.
fn write_ring(held: &mut [u64], at: usize, q: [u8; 49])
    requires { at + RINGS ≤ length held.old }
    ensures { held.new ≡ put held.old at q }
{
    for (i, x) in q.iter().enumerate() {
        held[at + i] = u64::from(*x);
    }
}

// The struct into its words.
fn write_cluster(held: &mut [u64], c: Cluster, met: usize, taken: usize)
    requires { length held.old ≡ HELD }
    ensures { held.new ≡ held_of c met taken }
{
    write_five(held, c.sizes, c.depth, met, taken);
    write_records(held, c.servers);
    write_ring(held, HEADS, c.rings.heads);
    write_ring(held, COUNTS, c.rings.counts);
}

// The run of a cluster on lent words: 0, or 1 and then every word is as it was.
#[tactic(auto, unfolding(crate::specs::Run::held_fits, base::specs::Choice::both))]
pub fn zab_run<'a>(
    held: &mut [u64],
    hists: &mut [u64],
    cands: &'a mut [u64],
    queue: &'a mut [u64],
    out: &mut [u64],
    events: &[u64],
    budget: usize,
) -> u8
    ensures { Finishes (run_of held.old hists.old cands.old queue.old out.old events.now budget) result held.new hists.new cands.new queue.new out.new }
{
    if !held_fits(held) {
        return u8::from(Refusal::State);
    }
    let c = read_cluster(held);
    let t = runs::run(c, events, budget, hists, cands, queue, out);
    match t.answer {
        Ok(()) => {
            write_cluster(held, t.cluster, t.met, t.taken);
            0
        }
        Err(why) => u8::from(why),
    }
}
