// The graph that remains: nodes by position, the arcs between them in ascending order, and the first
// free variable. What a closing may rely on stands in its type.
ghost use Rattle.std.specs.Prelude.{◌≤◌, length};
ghost use Rattle.closings.specs.Arcs.{Apart, Ascending, Ends, Variables};

use crate::arc::Arc;

#[derive(Drop)]
pub struct Remaining {
    // how many nodes remain
    pub nodes: u32,
    // places for as many arcs as can remain, held by the graph itself: it outlives the arcs that it was
    // made of, and there is no heap
    pub arcs: [Arc; 4096],
    // how many places of `arcs` hold one
    pub count: u32,
    // the first free variable
    pub first: u32,
    ghost nodes_few: { nodes ≤ 64 },
    ghost first_in: { (1 ≤ first) × (first ≤ 1073741823) },
    ghost count_in: { count ≤ length arcs },
    ghost arcs_join: { Ends nodes arcs count },
    ghost variables_in: { Variables first arcs count },
    ghost variables_apart: { Apart arcs count },
    ghost arcs_ascend: { Ascending nodes arcs count },
}
