// Making a sheet in its place.
ghost use Rattle.sheet.specs.Making.{make_refusal, make_step};
ghost use Rattle.sheet.specs.View.{blank_view, unmade, view};
ghost use Rattle.std.specs.Prelude.{◌≡◌, ◌≤◌, IfOk, OnErr};
ghost use Rattle.std.specs.Result.{result_err};

use crate::arcs::Arcs;
use crate::pair_table::PairTable;
use crate::phase::Phase;
use crate::place::Sheet;
use crate::refusal::SheetRefusal;
use crate::token::DrawingToken;
use crate::valve_table::ValveTable;

impl Sheet {
    // A place where no sheet has been made: one node, one valve and no phase.
    pub fn unmade() -> Sheet
        ensures { view result ≡ unmade }
    {
        Sheet::blank(0, Phase::Unmade, 1, 1)
    }

    // Makes a sheet here, whatever the place held, and gives the token to draw on it.
    pub fn make(
        &mut self,
        number: u32,
        nodes: u32,
        valves: u32,
    ) -> Result<DrawingToken, SheetRefusal>
        ensures answer { result_err result ≡ make_refusal nodes valves }
        ensures after { view self.new ≡ make_step (view self.old) number nodes valves }
        ensures token { IfOk result (λ token. token.number ≡ number) }
        ensures same { OnErr result (self.new ≡ self.old) }
    {
        if !(1..=64).contains(&nodes) {
            return Err(SheetRefusal::NodeCount);
        }
        if !(1..=60_000).contains(&valves) {
            return Err(SheetRefusal::ValveCount);
        }
        *self = Sheet::blank(number, Phase::Drawing, nodes, valves);
        Ok(DrawingToken { number })
    }

    // A sheet with nothing drawn.
    fn blank(number: u32, phase: Phase, nodes: u32, valves: u32) -> Sheet
        requires nodes { (1 ≤ nodes) × (nodes ≤ 64) }
        requires valves { (1 ≤ valves) × (valves ≤ 60000) }
        ensures { view result ≡ blank_view number phase nodes valves }
    {
        Sheet {
            number,
            phase,
            nodes,
            valves,
            pipes: ValveTable::new(),
            arcs: Arcs {
                variables: PairTable::new(),
                next: valves + 1,
            },
            out: [false; 64],
        }
    }
}
