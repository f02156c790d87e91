// Looking back in the trace.
ghost use Rattle.std.specs.Prelude.{◌≡◌, map, ◌≤◌, find, length};
ghost use Rattle.trace.specs.Fold.{mem};
ghost use Rattle.trace.specs.Words.{Within, Marked, entry_at, submits, road};
ghost use Rattle.trace.specs.Step.{Source};

use crate::words::{Kind, Record};

// Is record b a B of the transaction of record r?
fn submits(r: Record, b: Record) -> bool
    requires { b.recs.now ≡ r.recs.now }
    ensures { result ≡ submits r.entry.recs.now r.entry.i b.entry.i }
{
    b.kind() == Some(Kind::B) && r.same(b)
}

// The first B before record r of its transaction, looked for from record `seen` on and then from the beginning.
pub fn source(r: Record, seen: usize) -> Option<usize>
    requires { seen ≤ r.i }
    ensures any { Source r.entry.recs.now r.entry.i result }
    ensures first { result ≡ find (submits r.entry.recs.now r.entry.i) (road r.entry.i seen) }
{
    (seen..r.i)
        .chain(0..seen)
        .find(|j| submits(r, Record::at(r.recs, *j)))
}

// Is the transaction of record r among those of the records that `marks` names?
pub fn among(r: Record, marks: &[u64]) -> bool
    requires { Marked r.recs.now marks.now r.i (length marks.now) }
    ensures { result ≡ mem (entry_at r.entry.recs.now r.entry.i) (map (entry_at r.entry.recs.now) marks.now) }
{
    marks
        .iter()
        .any(|at| r.same(Record::at(r.recs, *at as usize)))
}
