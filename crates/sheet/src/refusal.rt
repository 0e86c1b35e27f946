// Why a call on a sheet is refused.
ghost use Rattle.cnf.specs.Refusals.{sink_number};
ghost use Rattle.sheet.specs.Refusals.{layer_of, sheet_number};
ghost use Rattle.sheet.specs.declared.refusal.SheetRefusal.{SheetRefusal as The-refusal};
ghost use Rattle.std.specs.Prelude.{◌≡◌};

use cnf::refusal::SinkRefusal;
use std::fmt;

// The part of the library that refuses.
#[derive(Clone, Copy, PartialEq, Eq, Debug)]
pub enum Layer {
    // a text that is read
    Text,
    // the sheet itself
    Sheet,
    // the sink that is written to
    Sink,
}

#[derive(Clone, Copy, PartialEq, Eq, Debug)]
pub enum SheetRefusal {
    // a sheet has 1 to 64 nodes
    NodeCount,
    // a sheet has 1 to 60,000 valves
    ValveCount,
    // the token is not for this sheet in this phase
    WrongToken,
    // a node's number is below the number of nodes
    NoSuchNode,
    // a pipe leads to another node
    SelfLoop,
    // a valve's number is from 1 to the number of valves
    NoSuchValve,
    // an ordered pair of nodes has at most one pipe
    PairTaken,
    // a node is eliminated once
    NodeEliminated,
    // the sink does not take the clauses
    Sink(SinkRefusal),
}

impl SheetRefusal {
    // The refusal's number, by which texts and programs name it.
    pub fn number(&self) -> u32
        ensures { result ≡ sheet_number self.now }
    {
        match self {
            SheetRefusal::NodeCount => 1,
            SheetRefusal::ValveCount => 2,
            SheetRefusal::WrongToken => 3,
            SheetRefusal::NoSuchNode => 4,
            SheetRefusal::SelfLoop => 5,
            SheetRefusal::NoSuchValve => 6,
            SheetRefusal::PairTaken => 7,
            SheetRefusal::NodeEliminated => 8,
            SheetRefusal::Sink(refusal) => refusal.number(),
        }
    }

    // Who refused.
    pub fn layer(&self) -> Layer
        ensures { result ≡ layer_of self.now }
    {
        match self {
            SheetRefusal::Sink(_) => Layer::Sink,
            _ => Layer::Sheet,
        }
    }
}

impl fmt::Display for SheetRefusal {
    fn fmt<W: fmt::Write>(&self, f: &mut fmt::Formatter<W>) -> fmt::Result {
        let number = self.number();
        let cause = match self {
            SheetRefusal::NodeCount => "a sheet has 1 to 64 nodes",
            SheetRefusal::ValveCount => "a sheet has 1 to 60000 valves",
            SheetRefusal::WrongToken => "the token is not for this sheet in this phase",
            SheetRefusal::NoSuchNode => "the sheet has no such node",
            SheetRefusal::SelfLoop => "a pipe leads to another node",
            SheetRefusal::NoSuchValve => "the sheet has no such valve",
            SheetRefusal::PairTaken => "the pair of nodes has a pipe already",
            SheetRefusal::NodeEliminated => "the node has been eliminated already",
            SheetRefusal::Sink(refusal) => return write!(f, "{refusal}"),
        };
        write!(f, "refused {number}: {cause}")
    }
}

// A sink's refusal climbs with its number, in the layer of the sink.
impl From<SinkRefusal> for SheetRefusal {
    ghost from_gives = { λ e r. r ≡ The-refusal.Sink e };

    fn from(refusal: SinkRefusal) -> SheetRefusal {
        SheetRefusal::Sink(refusal)
    }
}

// A refusal with the token that comes back. A refusal climbs by `?` within, where there is no token,
// and the token joins it outside; so a call and the function within have the same clauses.
#[derive(Drop)]
pub struct Refused<T> {
    pub token: T,
    pub refusal: SheetRefusal,
}
