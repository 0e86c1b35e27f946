// The place of a sheet, with what every sheet keeps.
ghost use Rattle.std.specs.Prelude.{◌≡◌, ℕ, ◌+◌, ◌*◌, ◌^◌, ◌<◌, ◌≤◌, false, not, T, slice_index_or};
ghost use Rattle.graph.specs.Counts.{count};
ghost use Rattle.sheet.specs.Phases.{is_fresh};
ghost use Rattle.sheet.specs.Tables.{Above, Apart, Below, Joins, Staying, Upto, table};

use crate::arcs::Arcs;
pub use crate::phase::Phase;
use crate::valve_table::ValveTable;

// A sheet of nodes, numbered from 0, and valves, numbered from 1. (Contracts name its view, and it has
// no `Model`: a call that is refused leaves the same sheet in memory, which no clause on models says.)
#[derive(Drop)]
pub struct Sheet {
    // what its caller called it
    pub(crate) number: u32,
    pub(crate) phase: Phase,
    pub(crate) nodes: u32,
    pub(crate) valves: u32,
    // the valve of the pipe at each ordered pair of nodes
    pub(crate) pipes: ValveTable,
    // the arcs, and the next free variable
    pub(crate) arcs: Arcs,
    // whether each node has been eliminated; the nodes are the first of the 64, since a sheet lies in
    // fixed memory
    pub(crate) out: [bool; 64],
    ghost nodes_few: { (1 ≤ nodes) × (nodes ≤ 64) },
    ghost valves_few: { (1 ≤ valves) × (valves ≤ 60000) },
    ghost next_above: { (valves < arcs.next) × (arcs.next < 2 ^ 31) },
    ghost pipes_join: { Joins nodes (table pipes.numbers) },
    ghost pipes_upto: { Upto valves (table pipes.numbers) },
    ghost arcs_join: { Joins nodes (table arcs.variables.numbers) },
    ghost arcs_stay: { Staying out (table arcs.variables.numbers) },
    ghost arcs_above: { Above valves (table arcs.variables.numbers) },
    ghost arcs_below: { Below arcs.next (table arcs.variables.numbers) },
    ghost arcs_apart: { Apart (table arcs.variables.numbers) },
    ghost fresh_next: { (T (is_fresh phase) → arcs.next ≡ valves + 1) },
    ghost fresh_arcs: { (u w : ℕ) → T (is_fresh phase) → table arcs.variables.numbers u w ≡ 0 },
    ghost fresh_stays: { (u : ℕ) → T (is_fresh phase) → (T (slice_index_or out u false) → ⊥) },
    // each elimination gives fewer than 4096 variables
    ghost next_few: { arcs.next + 4096 * count 64 (λ u. not (slice_index_or out u false)) ≤ 326241 },
}
