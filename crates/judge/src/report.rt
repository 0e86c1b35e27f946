// A verdict as a line of text: `order` or `ring` and the nodes, after a ring its pipes, or the
// refusal.
use crate::refusal::VerdictRefusal;
use crate::verdict::Verdict;
use bounded::Bounded;
use sheet::pipe::Pipe;
use std::fmt;

// An answer of the judge with the lists that it left.
#[derive(Drop)]
pub struct Report<'n, 'p, 'a, 'b> {
    pub answer: Result<Verdict, VerdictRefusal>,
    pub nodes: &'n Bounded<'a, u32>,
    pub pipes: &'p Bounded<'b, Pipe>,
}

impl<'n, 'p, 'a, 'b> fmt::Display for Report<'n, 'p, 'a, 'b> {
    fn fmt<W: fmt::Write>(&self, f: &mut fmt::Formatter<W>) -> fmt::Result {
        match self.answer {
            Ok(Verdict::Order) => write!(f, "order")?,
            Ok(Verdict::Ring) => write!(f, "ring")?,
            Err(refusal) => return write!(f, "{refusal}"),
        }
        for node in self.nodes.as_slice() {
            write!(f, " {node}")?;
        }
        for pipe in self.pipes.as_slice() {
            write!(f, ", {pipe}")?;
        }
        Ok(())
    }
}
