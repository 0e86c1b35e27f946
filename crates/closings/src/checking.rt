// A graph that remains, made of arcs from outside: each thing that a closing relies on is tested, and the
// graph is there exactly where all of them hold. Pairs of 64 nodes that ascend are at most 4096, so the arcs
// then have room.
ghost use Rattle.std.specs.Prelude.{◌≡◌, ℕ, ◌+◌, ◌*◌, ◌<◌, ◌≤◌, length, take, is_some, IfSome, Decides, ◌≢◌};
ghost use Rattle.closings.specs.Arcs.{Apart, Ascending, Ends, Variables, arc_in};
ghost use Rattle.closings.specs.Inputs.{Ready, input};

use crate::arc::Arc;
use crate::remaining::Remaining;

// Whether an arc joins two different nodes.
fn joins(nodes: u32, arc: Arc) -> bool
    ensures { Decides result ((arc.from < nodes) × (arc.to < nodes) × (arc.from ≢ arc.to)) }
{
    arc.from < nodes && arc.to < nodes && arc.from != arc.to
}

// Whether every arc joins two different nodes.
fn ends_fit(nodes: u32, arcs: &[Arc]) -> bool
    ensures { Decides result (Ends nodes arcs.now (length arcs.now)) }
{
    arcs.iter().all(|arc| joins(nodes, *arc))
}

// Whether every arc stands on a variable below the first free one.
fn variables_fit(arcs: &[Arc], first: u32) -> bool
    ensures { Decides result (Variables first arcs.now (length arcs.now)) }
{
    arcs.iter()
        .all(|arc| 1 <= arc.variable && arc.variable < first)
}

// The place of an arc among all ordered pairs of nodes.
fn pair(arc: Arc, nodes: u32) -> u64
    ensures { result ≡ arc.from * nodes + arc.to }
{
    u64::from(arc.from) * u64::from(nodes) + u64::from(arc.to)
}

// Whether the arcs ascend by their pairs.
fn pairs_ascend(nodes: u32, arcs: &[Arc]) -> bool
    ensures { Decides result (Ascending nodes arcs.now (length arcs.now)) }
{
    arcs.is_sorted_by(|a, b| pair(*a, nodes) < pair(*b, nodes))
}

// Whether none of the arcs stands on a variable.
fn is_new(arcs: &[Arc], variable: u32) -> bool
    ensures { Decides result ((a : ℕ) → a < length arcs.now → (arc_in arcs.now a).variable ≢ variable) }
{
    arcs.iter().all(|arc| arc.variable != variable)
}

// Whether no two arcs stand on the same variable.
fn variables_differ(arcs: &[Arc]) -> bool
    ensures { Decides result (Apart arcs.now (length arcs.now)) }
{
    arcs.iter()
        .enumerate()
        .all(|(a, arc)| is_new(&arcs[..a], arc.variable))
}

// Whether a closing may rely on the arcs. (Nodes, arcs and variable are one by one until they are
// checked; then they are a `Remaining`.)
fn ready(nodes: u32, arcs: &[Arc], first: u32) -> bool
    ensures { Decides result (Ready (record { nodes = nodes; arcs = arcs.now; first = first })) }
{
    1 <= first
        && first <= 1_073_741_823
        && nodes <= 64
        && ends_fit(nodes, arcs)
        && variables_fit(arcs, first)
        && pairs_ascend(nodes, arcs)
        && variables_differ(arcs)
}

// The arcs at the front of their places.
fn placed(arcs: &[Arc]) -> [Arc; 4096]
    requires { length arcs.now ≤ 4096 }
    ensures { take (length arcs.now) result ≡ arcs.now }
{
    let mut places = [Arc::default(); 4096];
    places[..arcs.len()].copy_from_slice(arcs);
    places
}

impl Remaining {
    // The graph of the given nodes and arcs, or none where a closing may not rely on it.
    pub fn checked(nodes: u32, arcs: &[Arc], first: u32) -> Option<Remaining>
        ensures value { IfSome result (λ x. input x ≡ record { nodes = nodes; arcs = arcs.now; first = first }) }
        ensures fits { Decides (is_some result) (Ready (record { nodes = nodes; arcs = arcs.now; first = first })) }
    {
        if !ready(nodes, arcs, first) {
            return None;
        }
        Some(Remaining {
            nodes,
            arcs: placed(arcs),
            count: arcs.len() as u32,
            first,
        })
    }
}
