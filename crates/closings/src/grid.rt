// Two blocks of added variables of a graph, in rows of one width: a row for each node, then a row for
// each arc.
ghost use Rattle.std.specs.Prelude.{◌≡◌, ◌<◌, ◌≤◌};
ghost use Rattle.closings.specs.Grids.{arc_variable, grid_adds, node_variable};
ghost use Rattle.closings.specs.Inputs.{arc_count, input};

use crate::literals::Variable;
use crate::remaining::Remaining;

#[derive(Clone, Copy)]
pub(crate) struct Grid<'x> {
    x: &'x Remaining,
    pub(crate) width: u32,
    ghost narrow: { width < 64 },
}

impl<'x> Grid<'x> {
    // The two blocks of a graph in rows of a width.
    pub(crate) fn new(x: &'x Remaining, width: u32) -> Grid<'x>
        requires { width < 64 }
        ensures graph { result.x.now ≡ x.now }
        ensures width { result.width ≡ width }
    {
        Grid { x, width }
    }

    // How many variables the two blocks have.
    pub(crate) fn added(self) -> u32
        ensures { result ≡ grid_adds (input self.entry.x.now) self.entry.width }
    {
        self.x.nodes * self.width + self.x.arc_count() * self.width
    }

    // The variable of node i and k.
    pub(crate) fn node_variable(self, i: u32, k: u32) -> Variable
        requires row { i < self.x.now.nodes }
        requires first { 1 ≤ k }
        requires last { k ≤ self.width }
        ensures { result.number ≡ node_variable (input self.entry.x.now) self.entry.width i k }
    {
        Variable {
            number: self.x.first + i * self.width + k - 1,
        }
    }

    // The variable of arc a and k. (No plainer as one with the above by rows: every call for an arc would
    // name row `nodes + a`.)
    pub(crate) fn arc_variable(self, a: u32, k: u32) -> Variable
        requires row { a < arc_count (input self.x.now) }
        requires first { 1 ≤ k }
        requires last { k ≤ self.width }
        ensures { result.number ≡ arc_variable (input self.entry.x.now) self.entry.width a k }
    {
        Variable {
            number: self.x.first + self.x.nodes * self.width + a * self.width + k - 1,
        }
    }
}
