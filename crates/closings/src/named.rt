// One of the three closings, chosen by its name; a closing itself.
ghost use Rattle.closings.specs.Named.{name_of, named_adds, named_means};
ghost use Rattle.closings.specs.declared.named.NamedClosing.{NamedClosing as The-closing};
ghost use Rattle.std.specs.Prelude.{◌≡◌, Some, MatchOption, Decides, ◌≢◌};
ghost use Rattle.closings.specs.ClosureLaw.{closure_closes, closure_uses, closure_small};
ghost use Rattle.closings.specs.NumbersLaw.{numbers_closes, numbers_uses, numbers_small};
ghost use Rattle.closings.specs.StepsLaw.{steps_closes, steps_uses, steps_small};
ghost use Rattle.closings.specs.declared.named.NamedClosing.TheVariants.{ByClosure, ByNumbers, BySteps};

use crate::closing::Closing;
use crate::closure::Closure;
use crate::numbers::Numbers;
use crate::remaining::Remaining;
use crate::steps::Steps;
use std::fmt;

#[derive(Clone, Copy, PartialEq, Eq, Debug)]
pub enum NamedClosing {
    BySteps,
    ByNumbers,
    ByClosure,
}

impl NamedClosing {
    // The three.
    pub const ALL: [NamedClosing; 3] = [
        NamedClosing::BySteps,
        NamedClosing::ByNumbers,
        NamedClosing::ByClosure,
    ];

    // The closing's name.
    pub fn name(self) -> &'static str
        ensures { result.now ≡ name_of self }
    {
        match self {
            NamedClosing::BySteps => "steps",
            NamedClosing::ByNumbers => "numbers",
            NamedClosing::ByClosure => "closure",
        }
    }

    // Whether a name is this closing's.
    fn is_named(self, name: &[u8]) -> bool
        ensures { Decides result (name.now ≡ name_of self) }
    {
        name == self.name().as_bytes()
    }

    // The closing of a name, or none. No `TryFrom` stands beside it: that would say the same again, with
    // an error that tells no more than `None`.
    pub fn from_name(name: &[u8]) -> Option<NamedClosing>
        ensures named { MatchOption result ((c : The-closing) → name.now ≢ name_of c) (λ c. name.now ≡ name_of c) }
    {
        NamedClosing::ALL
            .iter()
            .find(|closing| closing.is_named(name))
            .copied()
    }
}

impl fmt::Display for NamedClosing {
    ghost output = { λ c. Some (name_of c) };

    fn fmt<W: fmt::Write>(&self, f: &mut fmt::Formatter<W>) -> fmt::Result {
        f.write_str(self.name())
    }
}

// Each answer chooses for itself: a method that takes the question as a closure over `&dyn Closing` was
// tried, and gets no proof, since a bound with such a type cannot be stated yet.
impl Closing for NamedClosing {
    ghost means = { named_means };

    ghost adds = { named_adds };

    ghost closes = { elim [ BySteps ↦ steps_closes | ByNumbers ↦ numbers_closes | ByClosure ↦ closure_closes ] };

    ghost uses = { elim [ BySteps ↦ steps_uses | ByNumbers ↦ numbers_uses | ByClosure ↦ closure_uses ] };

    ghost small = { elim [ BySteps ↦ steps_small | ByNumbers ↦ numbers_small | ByClosure ↦ closure_small ] };

    fn added(&self, x: &Remaining) -> u32 {
        match self {
            NamedClosing::BySteps => Steps.added(x),
            NamedClosing::ByNumbers => Numbers.added(x),
            NamedClosing::ByClosure => Closure.added(x),
        }
    }

    fn count(&self, x: &Remaining) -> u32 {
        match self {
            NamedClosing::BySteps => Steps.count(x),
            NamedClosing::ByNumbers => Numbers.count(x),
            NamedClosing::ByClosure => Closure.count(x),
        }
    }

    fn length(&self, x: &Remaining, k: u32) -> Option<u32> {
        match self {
            NamedClosing::BySteps => Steps.length(x, k),
            NamedClosing::ByNumbers => Numbers.length(x, k),
            NamedClosing::ByClosure => Closure.length(x, k),
        }
    }

    fn literal(&self, x: &Remaining, k: u32, j: u32) -> Option<i32> {
        match self {
            NamedClosing::BySteps => Steps.literal(x, k, j),
            NamedClosing::ByNumbers => Numbers.literal(x, k, j),
            NamedClosing::ByClosure => Closure.literal(x, k, j),
        }
    }
}
