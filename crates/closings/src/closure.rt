// The closing by a transitive closure. An added variable y(i,j), one for each pair of nodes, says that i
// comes before j: no node comes before itself, the relation is transitive, and a chosen arc's start
// comes before its end.
ghost use Rattle.std.specs.Prelude.{◌≡◌, ◌<◌};
ghost use Rattle.closings.specs.ClosureClauses.{closure_adds, closure_clauses, closure_y};
ghost use Rattle.closings.specs.ClosurePlaces.{closure_at, ClosureIn};
ghost use Rattle.closings.specs.Inputs.{input};
ghost use Rattle.closings.specs.ClosureLaw.{closure_closes, closure_uses, closure_small};

use crate::closing::Closing;
use crate::literals::{Variable, literal_at};
use crate::places::{ClausePlace, length_of, literal_of};
use crate::remaining::Remaining;

#[derive(Clone, Copy)]
pub struct Closure;

// Which clause stands at a number.
#[derive(Clone, Copy)]
enum Place {
    NeverItself(u32),
    Transitive(u32, u32, u32),
    ArcBefore(u32),
}

// The variable y(i,j), which says that i comes before j.
fn before(x: &Remaining, i: u32, j: u32) -> Variable
    requires start { i < x.now.nodes }
    requires end { j < x.now.nodes }
    ensures { result.number ≡ closure_y (input x.now) i j }
{
    Variable {
        number: x.first + i * x.nodes + j,
    }
}

impl ClausePlace for Place {
    ghost clauses = { closure_clauses };

    ghost clause_at = { closure_at };

    ghost Within = { ClosureIn };

    fn find(x: &Remaining, k: u32) -> Option<Place> {
        let nodes = x.nodes;
        if k < nodes {
            return Some(Place::NeverItself(k));
        }
        let second = k - nodes;
        let square = nodes * nodes;
        let cube = nodes * square;
        if second < cube {
            let row = second % square;
            return Some(Place::Transitive(second / square, row / nodes, row % nodes));
        }
        let third = second - cube;
        if third < x.arc_count() {
            return Some(Place::ArcBefore(third));
        }
        None
    }

    fn length(self, _x: &Remaining) -> u32 {
        match self {
            Place::NeverItself(_) => 1,
            Place::Transitive(_, _, _) => 3,
            Place::ArcBefore(_) => 2,
        }
    }

    fn literal(self, x: &Remaining, j: u32) -> Option<i32> {
        match self {
            Place::NeverItself(i) => literal_at([before(x, i, i).negative()], j),
            Place::Transitive(i, m, t) => {
                let first = before(x, i, m).negative();
                let second = before(x, m, t).negative();
                literal_at([first, second, before(x, i, t).positive()], j)
            }
            Place::ArcBefore(a) => {
                let arc = x.arc_at(a);
                let rises = before(x, arc.from, arc.to).positive();
                literal_at([x.chosen(a).negative(), rises], j)
            }
        }
    }
}

impl Closing for Closure {
    ghost means = { λ _ x. closure_clauses x };

    ghost adds = { λ _ x. closure_adds x };

    ghost closes = { λ s. closure_closes };

    ghost uses = { λ s. closure_uses };

    ghost small = { λ s. closure_small };

    fn added(&self, x: &Remaining) -> u32 {
        x.nodes * x.nodes
    }

    fn count(&self, x: &Remaining) -> u32 {
        x.nodes + x.nodes * (x.nodes * x.nodes) + x.arc_count()
    }

    fn length(&self, x: &Remaining, k: u32) -> Option<u32> {
        length_of::<Place>(x, k)
    }

    fn literal(&self, x: &Remaining, k: u32, j: u32) -> Option<i32> {
        literal_of::<Place>(x, k, j)
    }
}
