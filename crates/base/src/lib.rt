// The kinds of numbers that the paper names, a transaction, the sizes, the refusals.
// What each means is in specs/.
#![tactic(auto)]

ghost use Rattle.std.specs.Prelude.{◌≡◌};
ghost use Rattle.base.specs.Refusals.{number};

// Three kinds of number, each of its own type.
#[derive(Clone, Copy, Debug, PartialEq, Eq, PartialOrd, Ord)]
pub struct Epoch(pub u32);

#[derive(Clone, Copy, Debug, PartialEq, Eq, PartialOrd, Ord)]
pub struct Place(pub u32);

#[derive(Clone, Copy, Debug, PartialEq, Eq, PartialOrd, Ord)]
pub struct Ident(pub u64);

// A transaction: the identifier and then the value.
#[derive(Clone, Copy, Debug, PartialEq, Eq)]
pub struct Txn {
    pub id: Ident,
    pub val: u64,
}

// n servers, and room for `room` transactions in a history.
#[derive(Clone, Copy, Debug, PartialEq, Eq)]
pub struct Sizes {
    pub n: u8,
    pub room: Place,
}

// The paper's refusals with their numbers, in the order in which they are tested.
#[derive(Clone, Copy, Debug, PartialEq, Eq)]
pub enum Refusal {
    State = 1,
    Event = 2,
    Message = 3,
    Role = 4,
    Sender = 5,
    Phase = 6,
    Epoch = 7,
    Gap = 8,
    Undo = 9,
    Full = 10,
    Spent = 11,
    Room = 12,
    Trace = 13,
}

// Its number, as a host and a trace have it.
impl From<Refusal> for u8 {
    ghost from_gives = { λ r k. k ≡ number r };

    fn from(refusal: Refusal) -> u8 {
        refusal as u8
    }
}
