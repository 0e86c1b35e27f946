// The closing by labels in unary. Each of the r nodes has a label below r, which rises along every
// chosen arc. The label of node i is told by r − 1 variables: y(i,k) says that it is at least r − k,
// so that what is true at one k stays true at the next. For arc a the variable s(a,k) says that step
// k tells its ends apart, which is that y(i,k) is false of the node it leaves and y(j,k) true of the
// node it enters; an arc that is chosen has such a step. The variables stand in rows of as many as
// there are steps.
ghost use Rattle.std.specs.Prelude.{◌≡◌, ◌-◌, ◌<◌, slice_get};
ghost use Rattle.closings.specs.Inputs.{arc_count, input};
ghost use Rattle.closings.specs.StepsClauses.{some_step, steps_adds, steps_clauses};
ghost use Rattle.closings.specs.StepsPlaces.{StepsIn, steps_at};
ghost use Rattle.closings.specs.StepsLaw.{steps_closes, steps_uses, steps_small};

use crate::closing::Closing;
use crate::grid::Grid;
use crate::literals::literal_at;
use crate::places::{ClausePlace, length_of, literal_of};
use crate::remaining::Remaining;

#[derive(Clone, Copy)]
pub struct Steps;

// Which clause stands at a number: what is true at one k stays true at the next, for a node and k;
// the node that an arc leaves and the one that it enters, for an arc and k; or an arc that is chosen
// has a step, for an arc.
#[derive(Clone, Copy)]
enum Place {
    Rises(u32, u32),
    Leaves(u32, u32),
    Enters(u32, u32),
    SomeStep(u32),
}

// How many steps tell labels apart: one fewer than there are nodes.
fn step_count(x: &Remaining) -> u32
    ensures { result ≡ x.now.nodes - 1 }
{
    x.nodes.saturating_sub(1)
}

// Literal j of the clause that has arc a, if it is chosen, have a step.
fn some_step(x: &Remaining, a: u32, j: u32) -> Option<i32>
    requires { a < arc_count (input x.now) }
    ensures { result ≡ slice_get (some_step (input x.now) a) j }
{
    if j == 0 {
        return Some(x.chosen(a).negative());
    }
    if j < x.nodes {
        let grid = Grid::new(x, step_count(x));
        return Some(grid.arc_variable(a, j).positive());
    }
    None
}

impl ClausePlace for Place {
    ghost clauses = { steps_clauses };

    ghost clause_at = { steps_at };

    ghost Within = { StepsIn };

    fn find(x: &Remaining, k: u32) -> Option<Place> {
        let steps = step_count(x);
        let row = x.nodes.saturating_sub(2);
        let rises = x.nodes * row;
        if k < rises {
            return Some(Place::Rises(k / row, k % row + 2));
        }
        let rest = k - rises;
        let width = steps * 2 + 1;
        let a = rest / width;
        if a >= x.arc_count() {
            return None;
        }
        let at = rest % width;
        if at >= steps * 2 {
            return Some(Place::SomeStep(a));
        }
        if at % 2 == 0 {
            Some(Place::Leaves(a, at / 2 + 1))
        } else {
            Some(Place::Enters(a, at / 2 + 1))
        }
    }

    fn length(self, x: &Remaining) -> u32 {
        match self {
            Place::Rises(_, _) | Place::Leaves(_, _) | Place::Enters(_, _) => 2,
            Place::SomeStep(_) => x.nodes,
        }
    }

    fn literal(self, x: &Remaining, j: u32) -> Option<i32> {
        let grid = Grid::new(x, step_count(x));
        match self {
            Place::Rises(i, k) => {
                let before = grid.node_variable(i, k - 1).negative();
                literal_at([before, grid.node_variable(i, k).positive()], j)
            }
            Place::Leaves(a, k) => {
                let label = grid.node_variable(x.arc_at(a).from, k).negative();
                literal_at([label, grid.arc_variable(a, k).negative()], j)
            }
            Place::Enters(a, k) => {
                let label = grid.node_variable(x.arc_at(a).to, k).positive();
                literal_at([label, grid.arc_variable(a, k).negative()], j)
            }
            Place::SomeStep(a) => some_step(x, a, j),
        }
    }
}

impl Closing for Steps {
    ghost means = { λ _ x. steps_clauses x };

    ghost adds = { λ _ x. steps_adds x };

    ghost closes = { λ s. steps_closes };

    ghost uses = { λ s. steps_uses };

    ghost small = { λ s. steps_small };

    fn added(&self, x: &Remaining) -> u32 {
        Grid::new(x, step_count(x)).added()
    }

    fn count(&self, x: &Remaining) -> u32 {
        let steps = step_count(x);
        let row = x.nodes.saturating_sub(2);
        x.nodes * row + x.arc_count() * (steps * 2 + 1)
    }

    fn length(&self, x: &Remaining, k: u32) -> Option<u32> {
        length_of::<Place>(x, k)
    }

    fn literal(&self, x: &Remaining, k: u32, j: u32) -> Option<i32> {
        literal_of::<Place>(x, k, j)
    }
}
