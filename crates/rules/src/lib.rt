// The record of a server as code holds it: types alone. What it stands for is in specs/Words.antt.
#![tactic(auto)]

use base::{Epoch, Place};

// The histories lie in lent words; `len` and `cand_len` say how many transactions they hold.
// Stays: `stage` a number, since `server::step` answers any record whatever (STATE), so an enum would ask more of its callers.
// Stays: `oracle` 0 or x + 1, as the C record and the paper's "all else zero" have it (docs/DECISIONS.md).
#[derive(Clone, Copy)]
pub struct State {
    pub me: u8,
    pub stage: u8,
    pub oracle: u8,
    pub p: Epoch,
    pub a: Epoch,
    pub d: Place,
    pub len: Place,
    pub largest: Epoch,
    pub cand_a: Epoch,
    pub cand_len: Place,
    pub joined: [bool; 7],
    pub acked: [bool; 7],
    pub synced: [bool; 7],
    pub counts: [u32; 7],
}
