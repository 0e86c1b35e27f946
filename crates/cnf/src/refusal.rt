// Why a sink does not take a clause.
ghost use Rattle.cnf.specs.Refusals.{sink_number};
ghost use Rattle.std.specs.Prelude.{◌≡◌};

use std::fmt;

#[derive(Clone, Copy, PartialEq, Eq, Debug)]
pub enum SinkRefusal {
    // the clause is empty, or longer than the sink takes
    Length,
    // a literal is 0, or stands on a variable above the sink's top
    Literal,
    // too few entries or units are left
    Room,
}

impl SinkRefusal {
    // The refusal's number, by which texts and programs name it.
    pub fn number(&self) -> u32
        ensures { result ≡ sink_number self.now }
    {
        match self {
            SinkRefusal::Length => 9,
            SinkRefusal::Literal => 10,
            SinkRefusal::Room => 11,
        }
    }
}

impl fmt::Display for SinkRefusal {
    fn fmt<W: fmt::Write>(&self, f: &mut fmt::Formatter<W>) -> fmt::Result {
        let number = self.number();
        let cause = match self {
            SinkRefusal::Length => "the clause is empty or too long",
            SinkRefusal::Literal => "a literal is 0 or above the top",
            SinkRefusal::Room => "too few entries or units are left",
        };
        write!(f, "refused {number}: {cause}")
    }
}
