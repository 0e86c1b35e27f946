// The arcs of a sheet, on variables that are given in turn.
ghost use Rattle.std.specs.Prelude.{◌≡◌, ◌+◌, ◌^◌, ◌<◌, ◌≤◌};
ghost use Rattle.sheet.specs.Implications.{with_arc};
ghost use Rattle.sheet.specs.Plans.{arcs_in};

use crate::pair_table::PairTable;

#[derive(Clone, Copy)]
pub(crate) struct Arcs {
    // the variable of the arc at each ordered pair of nodes
    pub(crate) variables: PairTable,
    // the next free variable
    pub(crate) next: u32,
}

impl Arcs {
    // Gives the pair (u, w) an arc on the next free variable, where it has none and joins two nodes.
    pub(crate) fn give(&mut self, u: u32, w: u32)
        requires pair { (u < 64) × (w < 64) }
        requires room { self.old.next + 1 < 2 ^ 31 }
        ensures arcs { arcs_in self.new ≡ with_arc (arcs_in self.old) (u, w) }
        ensures next { self.new.next ≤ self.old.next + 1 }
    {
        if u != w && self.variables.get(u, w).is_none() {
            self.variables.set(u, w, Some(self.next));
            self.next += 1;
        }
    }
}
