// The closing by binary labels. Every node gets a label of as few bits as tell the nodes apart, and
// along every chosen arc the label has to rise, which it cannot do around a ring. There is one added
// variable for each bit of each node's label, and one for each arc and bit, which says that along
// that arc the label rises in that bit and those below it. They stand in rows of as many as there are
// bits.
ghost use Rattle.std.specs.Prelude.{◌≡◌, ◌≤◌};
ghost use Rattle.closings.specs.NumbersClauses.{bits_for, numbers_adds, numbers_clauses};
ghost use Rattle.closings.specs.NumbersPlaces.{NumbersIn, numbers_at};
ghost use Rattle.closings.specs.NumbersLaw.{numbers_closes, numbers_uses, numbers_small};

use crate::closing::Closing;
use crate::grid::Grid;
use crate::literals::literal_at;
use crate::places::{ClausePlace, length_of, literal_of};
use crate::remaining::Remaining;

#[derive(Clone, Copy)]
pub struct Numbers;

// Which clause stands at a number: its arc, and its bit where it has one.
#[derive(Clone, Copy)]
enum Place {
    LowLeaves(u32),
    LowEnters(u32),
    BitRises(u32, u32),
    RestLeaves(u32, u32),
    RestEnters(u32, u32),
    AllRise(u32),
}

// How many bits tell r nodes apart.
fn bits(r: u32) -> u32
    requires { r ≤ 64 }
    ensures is { result ≡ bits_for r }
    ensures few { result ≤ 6 }
{
    u32::BITS - r.saturating_sub(1).leading_zeros()
}

impl ClausePlace for Place {
    ghost clauses = { numbers_clauses };

    ghost clause_at = { numbers_at };

    ghost Within = { NumbersIn };

    fn find(x: &Remaining, k: u32) -> Option<Place> {
        let middle = bits(x.nodes).saturating_sub(1) * 3;
        let width = middle + 3;
        let a = k / width;
        if a >= x.arc_count() {
            return None;
        }
        let at = k % width;
        if at == 0 {
            return Some(Place::LowLeaves(a));
        }
        if at == 1 {
            return Some(Place::LowEnters(a));
        }
        let m = at - 2;
        if m >= middle {
            return Some(Place::AllRise(a));
        }
        let bit = m / 3 + 2;
        match m % 3 {
            0 => Some(Place::BitRises(a, bit)),
            1 => Some(Place::RestLeaves(a, bit)),
            _ => Some(Place::RestEnters(a, bit)),
        }
    }

    fn length(self, _x: &Remaining) -> u32 {
        match self {
            Place::LowLeaves(_) | Place::LowEnters(_) | Place::AllRise(_) => 2,
            Place::BitRises(_, _) | Place::RestLeaves(_, _) | Place::RestEnters(_, _) => 3,
        }
    }

    fn literal(self, x: &Remaining, j: u32) -> Option<i32> {
        let grid = Grid::new(x, bits(x.nodes));
        match self {
            Place::LowLeaves(a) => {
                let leaves = grid.node_variable(x.arc_at(a).from, 1).negative();
                literal_at([grid.arc_variable(a, 1).negative(), leaves], j)
            }
            Place::LowEnters(a) => {
                let enters = grid.node_variable(x.arc_at(a).to, 1).positive();
                literal_at([grid.arc_variable(a, 1).negative(), enters], j)
            }
            Place::BitRises(a, bit) => {
                let leaves = grid.node_variable(x.arc_at(a).from, bit).negative();
                let enters = grid.node_variable(x.arc_at(a).to, bit).positive();
                literal_at([grid.arc_variable(a, bit).negative(), leaves, enters], j)
            }
            Place::RestLeaves(a, bit) => {
                let leaves = grid.node_variable(x.arc_at(a).from, bit).negative();
                let rest = grid.arc_variable(a, bit - 1).positive();
                literal_at([grid.arc_variable(a, bit).negative(), leaves, rest], j)
            }
            Place::RestEnters(a, bit) => {
                let enters = grid.node_variable(x.arc_at(a).to, bit).positive();
                let rest = grid.arc_variable(a, bit - 1).positive();
                literal_at([grid.arc_variable(a, bit).negative(), enters, rest], j)
            }
            Place::AllRise(a) => {
                let rise = grid.arc_variable(a, grid.width).positive();
                literal_at([x.chosen(a).negative(), rise], j)
            }
        }
    }
}

impl Closing for Numbers {
    ghost means = { λ _ x. numbers_clauses x };

    ghost adds = { λ _ x. numbers_adds x };

    ghost closes = { λ s. numbers_closes };

    ghost uses = { λ s. numbers_uses };

    ghost small = { λ s. numbers_small };

    fn added(&self, x: &Remaining) -> u32 {
        Grid::new(x, bits(x.nodes)).added()
    }

    fn count(&self, x: &Remaining) -> u32 {
        x.arc_count() * (bits(x.nodes).saturating_sub(1) * 3 + 3)
    }

    fn length(&self, x: &Remaining, k: u32) -> Option<u32> {
        length_of::<Place>(x, k)
    }

    fn literal(&self, x: &Remaining, k: u32, j: u32) -> Option<i32> {
        literal_of::<Place>(x, k, j)
    }
}
