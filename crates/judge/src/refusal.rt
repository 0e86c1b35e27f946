// Why there is no verdict.
ghost use Rattle.judge.specs.Refusals.{verdict_number};
ghost use Rattle.std.specs.Prelude.{◌≡◌};

use std::fmt;

#[derive(Clone, Copy, PartialEq, Eq, Debug)]
pub enum VerdictRefusal {
    // there are fewer value bytes than valves
    TooFewValues,
    // a list has fewer places than there are nodes, or there are fewer marks
    TooFewPlaces,
    // the value of this drawn valve is neither 1 nor 2
    UnknownValve(u32),
}

impl VerdictRefusal {
    // The refusal's number, by which texts and programs name it.
    pub fn number(&self) -> u32
        ensures { result ≡ verdict_number self.now }
    {
        match self {
            VerdictRefusal::TooFewValues => 12,
            VerdictRefusal::TooFewPlaces => 13,
            VerdictRefusal::UnknownValve(_) => 14,
        }
    }
}

impl fmt::Display for VerdictRefusal {
    fn fmt<W: fmt::Write>(&self, f: &mut fmt::Formatter<W>) -> fmt::Result {
        let number = self.number();
        match self {
            VerdictRefusal::TooFewValues => write!(
                f,
                "refused {number}: there are fewer values than valves"
            ),
            VerdictRefusal::TooFewPlaces => write!(
                f,
                "refused {number}: there are fewer places or marks than nodes"
            ),
            VerdictRefusal::UnknownValve(valve) => write!(
                f,
                "refused {number}: the position of valve {valve} is not known"
            ),
        }
    }
}
