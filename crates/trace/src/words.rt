// The layout of a record, said here alone: WORDS words, the same for every kind. Word 0 is the kind (1 E, 2 B, 3 V, 4 X), word 1
// the server (of an X the line), word 2 the epoch (of an X the refusal), word 3 the counter, word 4 the value. The words that a
// kind does not use are not read: the paper's list of malformed records is whole, and says nothing of them.
ghost use Rattle.std.specs.Prelude.{◌≡◌};
ghost use Rattle.base.specs.Record.{same};
ghost use Rattle.trace.specs.Rules.{less};
ghost use Rattle.trace.specs.Words.{Within, kind_of, who_of, epoch_at, counter_at, value_at, entry_at};
ghost use Rattle.trace.specs.Kinds.{Kinded};

pub const WORDS: usize = 5;

// The kinds of records, each with its number.
#[derive(Clone, Copy, PartialEq, Eq, Debug)]
pub enum Kind {
    E = 1,
    B = 2,
    V = 3,
    X = 4,
}

// Record i of a trace, whose words are there.
#[derive(Clone, Copy)]
pub struct Record<'a> {
    pub recs: &'a [u64],
    pub i: usize,
    ghost here: { Within recs.now i },
}

impl<'a> Record<'a> {
    pub fn at(recs: &'a [u64], i: usize) -> Self
        requires { Within recs.now i }
        ensures { (result.recs.now ≡ recs.now) × (result.i ≡ i) }
    {
        Record { recs, i }
    }

    // What it is; None if the number is no kind's.
    pub fn kind(self) -> Option<Kind>
        ensures { Kinded result (kind_of self.entry.recs.now self.entry.i) }
    {
        match self.recs[WORDS * self.i] {
            1 => Some(Kind::E),
            2 => Some(Kind::B),
            3 => Some(Kind::V),
            4 => Some(Kind::X),
            _ => None,
        }
    }

    pub fn server(self) -> u64
        ensures { result ≡ who_of self.entry.recs.now self.entry.i }
    {
        self.recs[WORDS * self.i + 1]
    }

    pub fn epoch(self) -> u64
        ensures { result ≡ epoch_at self.entry.recs.now self.entry.i }
    {
        self.recs[WORDS * self.i + 2]
    }

    pub fn counter(self) -> u64
        ensures { result ≡ counter_at self.entry.recs.now self.entry.i }
    {
        self.recs[WORDS * self.i + 3]
    }

    pub fn value(self) -> u64
        ensures { result ≡ value_at self.entry.recs.now self.entry.i }
    {
        self.recs[WORDS * self.i + 4]
    }

    // Are the transactions of two records equal, in epoch, counter and value?
    pub fn same(self, other: Record) -> bool
        ensures { result ≡ same (entry_at self.entry.recs.now self.entry.i) (entry_at other.entry.recs.now other.entry.i) }
    {
        (self.epoch(), self.counter(), self.value())
            == (other.epoch(), other.counter(), other.value())
    }

    // Is its identifier below that of another record?
    pub fn below(self, other: Record) -> bool
        ensures { result ≡ less (entry_at self.entry.recs.now self.entry.i) (entry_at other.entry.recs.now other.entry.i) }
    {
        (self.epoch(), self.counter()) < (other.epoch(), other.counter())
    }
}
