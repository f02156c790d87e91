// Replays a script from standard input, and writes its trace to standard output.
#![tactic(auto)]

ghost use Rattle.std.specs.Prelude.{◌*◌, ◌≡◌, ◌≤◌, length};
ghost use Rattle.replay.specs.declared.TheConstants.{SERVERS, LINE_LEN};

use base::{Place, Sizes};
use script::{Command, Note};
use site::Cluster;
use std::io;
use std::io::{Read, Write};

// The most servers that a script has.
const SERVERS: u8 = 7;

// The transactions for which a history has room.
const ROOM: Place = Place(16);

// The messages for which a channel has room.
const DEPTH: u8 = 4;

// The words of a history, of a message with one, and of a channel.
const HISTORY_LEN: usize = 2 * ROOM.0 as usize;

const MESSAGE_LEN: usize = 4 + HISTORY_LEN;

const CHANNEL_LEN: usize = DEPTH as usize * MESSAGE_LEN;

// The words of every server's history, of the channels between any two, and of the outbox.
const HISTORIES_LEN: usize = SERVERS as usize * HISTORY_LEN;

const CHANNELS_LEN: usize = SERVERS as usize * SERVERS as usize * CHANNEL_LEN;

const OUTBOX_LEN: usize = 6 * (1 + MESSAGE_LEN);

// The bytes that a line may write.
const TRACE_LEN: usize = 12480;

// The bytes of a line that are kept: no command is as long.
const LINE_LEN: usize = 64;

// The bytes that are read at once.
const INPUT_LEN: usize = 4096;

// The start of the next line, as much of it as is read and there is room for.
#[derive(Drop)]
struct Kept {
    bytes: [u8; LINE_LEN],
    len: usize,
    ghost fits: { len ≤ LINE_LEN },
}

impl Kept {
    fn add(&mut self, part: &[u8]) {
        let n = part.len().min(LINE_LEN - self.len);
        self.bytes[self.len..self.len + n].copy_from_slice(&part[..n]);
        self.len += n;
    }

    // The command of the line, which ends here.
    fn take(&mut self) -> Option<Command> {
        let cmd = script::parse(&self.bytes[..self.len]);
        self.len = 0;
        cmd
    }
}

// The cluster between two events, and the number of the next line.
#[derive(Clone, Copy)]
struct Run {
    line: u64,
    cluster: Cluster,
    ghost few: { cluster.sizes.n ≤ SERVERS },
}

// What the next line is: the first, which has to be N; an event; nothing, since all is over.
#[derive(Clone, Copy)]
enum Phase {
    First,
    Event(Run),
    Over,
}

// The words that are lent by the number of servers.
#[derive(Drop)]
struct Words {
    hists: [u64; HISTORIES_LEN],
    cands: [u64; HISTORIES_LEN],
    queue: [u64; CHANNELS_LEN],
}

impl Words {
    // As many of each as n servers need.
    fn parts(&mut self, n: u8) -> (&mut [u64], &mut [u64], &mut [u64])
        requires { n ≤ SERVERS }
        ensures hists { length result.0.now ≡ HISTORY_LEN * n }
        ensures cands { length result.1.now ≡ HISTORY_LEN * n }
        ensures queue { length result.2.now ≡ CHANNEL_LEN * (n * n) }
    {
        let k = usize::from(n);
        let Words {
            hists,
            cands,
            queue,
        } = self;
        let (hists, _) = hists.split_at_mut(HISTORY_LEN * k);
        let (cands, _) = cands.split_at_mut(HISTORY_LEN * k);
        let (queue, _) = queue.split_at_mut(CHANNEL_LEN * (k * k));
        (hists, cands, queue)
    }
}

// The program between two parts of its input.
#[derive(Drop)]
struct Replay {
    phase: Phase,
    kept: Kept,
    words: Words,
    outbox: [u64; OUTBOX_LEN],
    trace: [u8; TRACE_LEN],
}

impl Replay {
    fn new() -> Self {
        Replay {
            phase: Phase::First,
            kept: Kept {
                bytes: [0; LINE_LEN],
                len: 0,
            },
            words: Words {
                hists: [0; HISTORIES_LEN],
                cands: [0; HISTORIES_LEN],
                queue: [0; CHANNELS_LEN],
            },
            outbox: [0; OUTBOX_LEN],
            trace: [0; TRACE_LEN],
        }
    }

    // The only output of a script whose first line is not N.
    fn no_header<W: Write>(&mut self, to: &mut W) -> io::Result<()> {
        self.phase = Phase::Over;
        let end = script::write_record(&mut self.trace, 0, Note::Refuses(1, 1));
        to.write_all(&self.trace[..end])
    }

    // The first line: N, and a fresh cluster.
    fn begin<W: Write>(&mut self, to: &mut W, n: u8) -> io::Result<()>
        requires { n ≤ SERVERS }
    {
        let z = Sizes { n, room: ROOM };
        let (hists, cands, queue) = self.words.parts(n);
        let t = cluster::fresh(z, DEPTH, hists, cands, queue, &self.outbox);
        self.phase = Phase::Event(Run {
            line: 2,
            cluster: t.cluster,
        });
        let end = script::write_header(&mut self.trace, 0, n);
        to.write_all(&self.trace[..end])
    }

    // A line after the first.
    #[tactic(auto, using(crate::proofs::Laws::wrote_in))]
    fn follow<W: Write>(&mut self, to: &mut W, run: Run, cmd: Option<Command>) -> io::Result<()> {
        let (hists, cands, queue) = self.words.parts(run.cluster.sizes.n);
        let t = scribe::tell(
            run.cluster,
            run.line,
            cmd,
            hists,
            cands,
            queue,
            &mut self.outbox,
            &mut self.trace,
        );
        self.phase = Phase::Event(Run {
            line: run.line.saturating_add(1),
            cluster: t.cluster,
        });
        to.write_all(&self.trace[..t.end])
    }

    // A line, whatever it is.
    fn meet<W: Write>(&mut self, to: &mut W, cmd: Option<Command>) -> io::Result<()> {
        match (self.phase, cmd) {
            (Phase::First, Some(Command::Begin(n))) if n <= SERVERS => self.begin(to, n),
            (Phase::First, _) => self.no_header(to),
            (Phase::Event(run), _) => self.follow(to, run, cmd),
            (Phase::Over, _) => Ok(()),
        }
    }

    // A part of the input: every line that ends in it, and the rest kept.
    fn feed<W: Write>(&mut self, to: &mut W, input: &[u8]) -> io::Result<()> {
        for part in input.split_inclusive(|b| *b == b'\n') {
            match part {
                [line @ .., b'\n'] => {
                    self.kept.add(line);
                    let cmd = self.kept.take();
                    self.meet(to, cmd)?;
                }
                rest => self.kept.add(rest),
            }
        }
        Ok(())
    }

    // Text after the last newline is a bad line; without a first line there is no header.
    fn end<W: Write>(&mut self, to: &mut W) -> io::Result<()> {
        match self.phase {
            Phase::First => self.no_header(to),
            _ if 0 < self.kept.len => self.meet(to, None),
            _ => Ok(()),
        }
    }

    // All of the input, part after part.
    fn drive<R: Read, W: Write>(&mut self, from: &mut R, to: &mut W) -> io::Result<()> {
        let mut input = [0; INPUT_LEN];
        // A proved loop has to end, so this one has as many turns as no run uses up.
        for _ in 0..u64::MAX {
            let n = from.read(&mut input)?;
            if n == 0 {
                break;
            }
            self.feed(to, &input[..n])?;
        }
        self.end(to)
    }
}

fn main(rt: HostRuntime) -> io::Result<()> {
    Replay::new().drive(&mut rt.stdin(), &mut rt.stdout())
}
