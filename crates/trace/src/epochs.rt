// The table of epochs: for each epoch its latest E or B, so that no record looks through the trace.
//
// It is a digital search tree in the words of the space from word `count` on, three for each record. A node has three words:
// the latest E or B of its epoch, counted from 1, and its two children, each a node's number, or 0 for none. Node 0 is the root,
// empty at first. A walk for an epoch goes down by the epoch's bits, the lowest first, so it takes at most 64 steps.
// Stays: no heap, so the tree lies in lent words and a child is a node's number.
// Stays: a struct of `recs`, `space` and `count` is no plainer: steps write in the space, so each call makes it anew.
ghost use Rattle.std.specs.Prelude.{◌≡◌, ◌*◌, ◌≤◌, ◌<◌, leb, length};
ghost use Rattle.trace.specs.Words.{WORDS, kind_of};
ghost use Rattle.trace.specs.Table.{cell, cleared, ends, spot, Walkable, Found, Tabled, Noted};

use crate::words::{Kind, Record};

// Does the walk for epoch e end at node j? It is the epoch's, or the empty root.
fn ends(recs: &[u64], space: &[u64], count: usize, j: usize, e: u64) -> bool
    requires { Walkable recs.now space.now count × (j < count) }
    ensures { result ≡ ends recs.now (cell space.now count) e j }
{
    let k = space[count + 3 * j] as usize;
    k == 0 || Record::at(recs, k - 1).epoch() == e
}

// The word at which the walk for epoch e ends: the first of the node at which it does, or a child that is not there. After 64
// steps no bit is left, and the node is the epoch's.
fn walk(recs: &[u64], space: &[u64], count: usize, e: u64) -> usize
    requires { Walkable recs.now space.now count × (0 < count) }
    ensures { result ≡ spot recs.now (cell space.now count) e count 0 e }
{
    let mut j = 0;
    let mut rest = e;
    for _ in 0..u64::BITS {
        if ends(recs, space, count, j, e) {
            return 3 * j;
        }
        let at = 3 * j + 1 + (rest % 2) as usize;
        let child = space[count + at] as usize;
        if child == 0 {
            return at;
        }
        j = child;
        rest /= 2;
    }
    3 * j
}

// Is record r an E or a B? The table names no other.
fn listed(r: Record) -> bool
    requires { 1 ≤ kind_of r.recs.now r.i }
    ensures { result ≡ leb (kind_of r.entry.recs.now r.entry.i) 2 }
{
    matches!(r.kind(), Some(Kind::E | Kind::B))
}

// The word at which the walk for the epoch of record r ends, if it is an E or a B; else word 0.
pub fn find(r: Record, space: &[u64], count: usize) -> usize
    requires { Walkable r.recs.now space.now count × (r.i < count) × (1 ≤ kind_of r.recs.now r.i) }
    ensures { Found r.entry.recs.now (cell space.now count) count r.entry.i result }
{
    if listed(r) {
        walk(r.recs, space, count, r.epoch())
    } else {
        0
    }
}

// Record r is the latest of its epoch, whose walk ended at word `at`; how many nodes there are then.
pub fn note(r: Record, space: &mut [u64], count: usize, nodes: usize, at: usize) -> usize
    requires { Tabled r.recs.now (cell space.old count) count nodes r.i × (r.i < count) × Found r.recs.now (cell space.old count) count r.i at × (1 ≤ kind_of r.recs.now r.i) × (WORDS * count ≤ length r.recs.now) × (4 * count ≤ length space.old) }
    ensures { Noted r.entry.recs.now count r.entry.i space.old result space.new }
{
    if !listed(r) {
        return nodes;
    }
    let latest = r.i as u64 + 1;
    if at % 3 == 0 {
        space[count + at] = latest;
        return nodes;
    }
    space[count + at] = nodes as u64;
    space[count + 3 * nodes] = latest;
    nodes + 1
}

// All words of the table become 0.
pub fn clear(space: &mut [u64], count: usize)
    requires { 4 * count ≤ length space.old }
    ensures { space.new ≡ cleared count space.old }
{
    space[count..4 * count].fill(0);
}
