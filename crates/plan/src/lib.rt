// A step is a pure plan, and hands that carry it out. Here: what a plan is, and the makers of plans.
// What a plan means as an answer of the rules is in specs/Plans.antt.
#![tactic(auto)]

ghost use Rattle.std.specs.Prelude.{◌≡◌, ◌≢◌, true, false, ◌<◌, ◌≤◌};
ghost use Rattle.base.specs.Refusals.{number, number_of};
ghost use Rattle.rules.specs.Table.{cell};
ghost use Rattle.rules.specs.Tree.{Tree, run, gate};
ghost use Rattle.plan.specs.Plans.{elsewhere, after, quiet_of, plan_of, solo_cast, no_cast, no_txn};

use base::{Epoch, Ident, Place, Refusal, Txn};
use rules::State;

// A message to each other server of a set; kinds 3 and 4 carry the history after the step, 7 the plan's transaction.
// Stays: kinds as numbers, since `solo` makes a cast of any kind (wrong program `kind_is_receiver`): an enum would ask more.
#[derive(Clone, Copy)]
pub struct Cast {
    pub to: [bool; 7],
    pub kind: u8,
    pub e: Epoch,
    pub x: Place,
}

// What a step that is not refused would do: whether the channels are emptied; the record after it; where the history and
// the candidate after it lie (0 where it lay, 1 in the message, 2 in the candidate for the history and in the history for
// the candidate, 3 with `txn` appended); what is sent, first `one` and then `two`.
// Stays: the two places as numbers, since `planned` takes any (wrong program `hist_as_cand`): an enum would ask more.
#[derive(Clone, Copy)]
pub struct Plan {
    pub empties: bool,
    pub state: State,
    pub hist: u8,
    pub cand: u8,
    pub txn: Txn,
    pub one: Cast,
    pub two: Cast,
}

// A well-formed message as read from its words; its history stays there.
#[derive(Clone, Copy)]
pub enum Message {
    Cepoch(Epoch),
    Newepoch(Epoch),
    Acke(Epoch, Epoch, Place),
    Newleader(Epoch, Place),
    Ackld(Epoch, Place),
    Commitld(Epoch, Place),
    Propose(Epoch, Place, Txn),
    Ack(Epoch, Place),
    Commit(Epoch, Place),
}

// A cell of the table: none where the kind is taken, else the refusal.
const TAKE: Option<Refusal> = None;

const ROLE: Option<Refusal> = Some(Refusal::Role);

const PHASE: Option<Refusal> = Some(Refusal::Phase);

// The table of nine kinds against nine stages; as a static it is not built anew at each call.
static TABLE: [[Option<Refusal>; 9]; 9] = [
    [ROLE, ROLE, ROLE, ROLE, ROLE, TAKE, TAKE, TAKE, TAKE],
    [ROLE, TAKE, PHASE, PHASE, PHASE, ROLE, ROLE, ROLE, ROLE],
    [ROLE, ROLE, ROLE, ROLE, ROLE, PHASE, TAKE, TAKE, TAKE],
    [ROLE, PHASE, TAKE, PHASE, PHASE, ROLE, ROLE, ROLE, ROLE],
    [ROLE, ROLE, ROLE, ROLE, ROLE, PHASE, PHASE, TAKE, TAKE],
    [ROLE, PHASE, PHASE, TAKE, PHASE, ROLE, ROLE, ROLE, ROLE],
    [ROLE, PHASE, PHASE, TAKE, TAKE, ROLE, ROLE, ROLE, ROLE],
    [ROLE, ROLE, ROLE, ROLE, ROLE, PHASE, PHASE, PHASE, TAKE],
    [ROLE, PHASE, PHASE, PHASE, TAKE, ROLE, ROLE, ROLE, ROLE],
];

// The cell of a kind and a stage.
// Stays: `by_table` and `by_match` say the same, for the paper names both forms (docs/DECISIONS.md).
pub fn by_table(kind: u8, stage: u8) -> Option<Refusal>
    requires { (1 ≤ kind) × ((kind ≤ 9) × (stage ≤ 8)) }
    ensures { number_of result ≡ cell kind stage }
{
    TABLE[usize::from(kind - 1)][usize::from(stage)]
}

// A follower's kind where it is not taken: another stage of the same role, or the other role.
fn at_follower(stage: u8) -> Refusal
    ensures { number result ≡ elsewhere 1 4 stage }
{
    match stage {
        1..=4 => Refusal::Phase,
        _ => Refusal::Role,
    }
}

// A leader's kind where it is not taken.
fn at_leader(stage: u8) -> Refusal
    ensures { number result ≡ elsewhere 5 8 stage }
{
    match stage {
        5..=8 => Refusal::Phase,
        _ => Refusal::Role,
    }
}

// The same by a match, for a kind that is not taken in the stage: PHASE in another stage of the same role, ROLE in the other.
pub fn by_match(kind: u8, stage: u8) -> Refusal
    requires { (1 ≤ kind) × ((kind ≤ 9) × ((stage ≤ 8) × (cell kind stage ≢ 0))) }
    ensures { number result ≡ cell kind stage }
{
    match kind {
        1 | 3 | 5 | 8 => at_leader(stage),
        _ => at_follower(stage),
    }
}

// The role's test, then the sender's, then the stage's.
pub fn gate(kind: u8, stage: u8, who: bool) -> Result<(), Refusal>
    requires { (1 ≤ kind) × ((kind ≤ 9) × (stage ≤ 8)) }
    ensures { (t : Tree) → run (gate kind stage who t) ≡ after result (run t) }
{
    let taken = by_table(kind, stage).is_none();
    if !taken && by_match(kind, stage) == Refusal::Role {
        return Err(Refusal::Role);
    }
    if !who {
        return Err(Refusal::Sender);
    }
    if !taken {
        return Err(Refusal::Phase);
    }
    Ok(())
}

pub fn no_txn() -> Txn
    ensures { result ≡ no_txn }
{
    Txn {
        id: Ident(0),
        val: 0,
    }
}

pub fn nobody() -> Cast
    ensures { result ≡ no_cast }
{
    Cast {
        to: [false; 7],
        kind: 1,
        e: Epoch(0),
        x: Place(0),
    }
}

pub fn solo(f: u8, kind: u8, e: Epoch, x: Place) -> Cast
    requires { f < 7 }
    ensures { result ≡ solo_cast f kind e.0 x.0 }
{
    let mut to = [false; 7];
    to[usize::from(f)] = true;
    Cast { to, kind, e, x }
}

// Only the record changes, and nothing is sent.
pub fn quiet(t: State) -> Plan
    ensures { result ≡ quiet_of t }
{
    planned(t, 0, 0, no_txn(), nobody())
}

pub fn planned(t: State, hist: u8, cand: u8, txn: Txn, one: Cast) -> Plan
    ensures { result ≡ plan_of false t hist cand txn one no_cast }
{
    Plan {
        empties: false,
        state: t,
        hist,
        cand,
        txn,
        one,
        two: nobody(),
    }
}
