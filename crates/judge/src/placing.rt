// Placing the nodes of a graph in order by their in-degrees. The in-degree of a node counts the
// edges from nodes that are not placed yet; it is counted once for every node and then lowered as
// nodes are placed, so that placing all n nodes looks at each pair of nodes twice.
ghost use Rattle.std.specs.Prelude.{◌≡◌, ℕ, ◌-◌, ◌<◌, ◌≤◌, ◌&&◌, length, if◌then◌else◌, ◌==◌, slice_index};
ghost use Rattle.graph.specs.Counts.{count};
ghost use Rattle.judge.specs.First.{first_below};
ghost use Rattle.judge.specs.Marks.{unmarked};
ghost use Rattle.judge.specs.Placed.{Placed};

use crate::digraph::Digraph;
use crate::marks::is_unmarked;

// How many nodes have an edge to w. (A sheet counts its arcs by a line of its own: they are no digraph
// here, which is a trait of this crate.)
fn in_degree<G: Digraph>(g: &G, w: u32) -> usize
    ensures { result ≡ count (G.Digraph.size g.now) (λ u. G.Digraph.edges g.now u w) }
{
    (0..g.nodes()).filter(|u| g.leads(*u, w)).count()
}

// The in-degrees of the nodes, before any is placed. (Not by `array::from_fn`: it would count at all
// 64 places, so that the work would no longer grow with the square of the nodes. Nor by a `zip` with
// the nodes: after it a proof knows nothing of what the loop wrote through `iter_mut`, and after an
// `enumerate` it does.)
fn in_degrees<G: Digraph>(g: &G) -> [usize; 64]
    ensures { (w : ℕ) → w < G.Digraph.size g.now → slice_index result w ≡ count (G.Digraph.size g.now) (λ u. G.Digraph.edges g.now u w) }
{
    let mut degrees = [0; 64];
    for (w, degree) in degrees[..g.nodes() as usize].iter_mut().enumerate() {
        *degree = in_degree(g, w as u32);
    }
    degrees
}

// The smallest node without a mark and with in-degree 0. (Two lists by node, since the marks are the
// caller's bytes.)
fn next_node<G: Digraph>(g: &G, degrees: &[usize; 64], marks: &[u8]) -> Option<u32>
    ensures { result ≡ first_below (G.Digraph.size g.now) (λ w. unmarked marks.now w && slice_index degrees.now w == 0) }
{
    (0..g.nodes()).find(|w| is_unmarked(marks, *w) && degrees[*w as usize] == 0)
}

// Takes the edges from v off the in-degrees. (By `enumerate`, for the reason told at `in_degrees`.)
fn release<G: Digraph>(g: &G, v: u32, degrees: &mut [usize; 64])
    ensures { (w : ℕ) → w < G.Digraph.size g.now → slice_index degrees.new w ≡ slice_index degrees.old w - (if G.Digraph.edges g.now v w then 1 else 0) }
{
    for (w, degree) in degrees[..g.nodes() as usize].iter_mut().enumerate() {
        if g.leads(v, w as u32) {
            *degree = degree.saturating_sub(1);
        }
    }
}

// Places every node that can be placed, and marks it: the nodes in their order, which lie in the
// first places of `order`. (The count is more than an index: it says how many are handed out. No
// bounded list here: the slice that is handed out outlives it.)
pub(crate) fn place_nodes<'o, G: Digraph>(
    g: &G,
    marks: &mut [u8],
    order: &'o mut [u32; 64],
) -> &'o [u32]
    requires { (G.Digraph.size g.now ≤ length marks.old) × ((u : ℕ) → u < G.Digraph.size g.now → slice_index marks.old u ≡ 0) }
    ensures { Placed (G.Digraph.edges g.now) (G.Digraph.size g.now) marks.new result.now }
{
    let n = g.nodes() as usize;
    let mut degrees = in_degrees(g);
    for count in 0..n {
        let Some(w) = next_node(g, &degrees, marks) else {
            return &order[..count];
        };
        order[count] = w;
        marks[w as usize] = 1;
        release(g, w, &mut degrees);
    }
    &order[..n]
}
