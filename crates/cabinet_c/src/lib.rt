// What a C host links: the cabinet's three functions under their exported names, each one call and with the same promise.
#![tactic(auto)]

ghost use Rattle.cabinet.specs.Run.{run_of, Finishes};
ghost use Rattle.cabinet.specs.Trace.{check_of, Judges};
ghost use Rattle.cabinet.specs.Zab.{zab_of, Does};

// One step of a server, its record, its histories and the messages in lent bytes.
#[unsafe(no_mangle)]
pub extern "C" fn zab_step(
    n: u8,
    room: u32,
    record: &mut [u8],
    hist: &mut [u8],
    cand: &mut [u8],
    event: u8,
    who: u8,
    value: u64,
    msg: &[u8],
    out: &mut [u8],
    told: &mut [u8],
) -> u8
    ensures { Does (zab_of n room event who value «record».old hist.old cand.old msg.now out.old told.old) result «record».new hist.new cand.new out.new told.new }
{
    cabinet::zab_step(
        n, room, record, hist, cand, event, who, value, msg, out, told,
    )
}

// The trace checker on lent bytes.
#[unsafe(no_mangle)]
pub extern "C" fn zab_check(n: u32, recs: &[u8], told: &mut [u8]) -> u8
    ensures { Judges (check_of n recs.now told.old) result told.new }
{
    cabinet::zab_check(n, recs, told)
}

// The cluster's run on lent words.
#[unsafe(no_mangle)]
pub extern "C" fn zab_run<'a>(
    held: &mut [u64],
    hists: &mut [u64],
    cands: &'a mut [u64],
    queue: &'a mut [u64],
    out: &mut [u64],
    events: &[u64],
    budget: usize,
) -> u8
    ensures { Finishes (run_of held.old hists.old cands.old queue.old out.old events.now budget) result held.new hists.new cands.new queue.new out.new }
{
    cabinet::zab_run(held, hists, cands, queue, out, events, budget)
}
