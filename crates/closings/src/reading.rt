// What a closing reads of the arcs that remain.
ghost use Rattle.std.specs.Prelude.{◌≡◌, ◌<◌, ◌≤◌};
ghost use Rattle.closings.specs.Inputs.{arc_at, arc_count, input};

use crate::arc::Arc;
use crate::literals::Variable;
use crate::remaining::Remaining;

impl Remaining {
    // How many arcs there are: never more than there are pairs of nodes.
    pub(crate) fn arc_count(&self) -> u32
        ensures is { result ≡ arc_count (input self.now) }
        ensures few { result ≤ 4096 }
    {
        self.count
    }

    // Arc a. Its number stays a plain one with a premise: it is found as part of a place, which the specs
    // compare, and a struct for it would hold its graph too, with a premise that this is the same one.
    pub(crate) fn arc_at(&self, a: u32) -> Arc
        requires { a < arc_count (input self.now) }
        ensures is { result ≡ arc_at (input self.now) a }
        ensures leaves { result.from < self.now.nodes }
        ensures enters { result.to < self.now.nodes }
    {
        self.arcs[a as usize]
    }

    // The variable of arc a, which is true where the arc is chosen.
    pub(crate) fn chosen(&self, a: u32) -> Variable
        requires { a < arc_count (input self.now) }
        ensures { result.number ≡ (arc_at (input self.now) a).variable }
    {
        Variable {
            number: self.arcs[a as usize].variable,
        }
    }
}
