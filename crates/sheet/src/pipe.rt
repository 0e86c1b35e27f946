// A pipe: from one node to another, on a valve.
use std::fmt;

#[derive(Clone, Copy, PartialEq, Eq, Debug, Default)]
pub struct Pipe {
    pub from: u32,
    pub to: u32,
    pub valve: u32,
}

impl fmt::Display for Pipe {
    fn fmt<W: fmt::Write>(&self, f: &mut fmt::Formatter<W>) -> fmt::Result {
        let from = self.from;
        let to = self.to;
        let valve = self.valve;
        write!(f, "{from} -> {to} on valve {valve}")
    }
}
