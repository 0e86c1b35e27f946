// Finding a ring among the nodes that cannot be placed: every one of them has an edge from another,
// so a walk back along such edges comes to a node twice. The walk is written from the end of `path`
// to its front, so that it lies in the direction of the edges; it goes by index, since each turn
// reads all that is written and then writes before it.
ghost use Rattle.std.specs.Prelude.{◌≡◌, ℕ, ◌<◌, ◌≤◌, ◌&&◌, true, false, length, MatchOption, ◌==◌, slice_index};
ghost use Rattle.judge.specs.First.{first_below};
ghost use Rattle.judge.specs.Marks.{unmarked};
ghost use Rattle.judge.specs.Placed.{Marked};
ghost use Rattle.judge.specs.Verdict.{is_stuck};
ghost use Rattle.judge.specs.Walking.{ring, way_back};

use crate::digraph::Digraph;
use crate::marks::is_unmarked;

// The smallest node without a mark.
fn first_unmarked<G: Digraph>(g: &G, marks: &[u8]) -> Option<u32>
    ensures { result ≡ first_below (G.Digraph.size g.now) (unmarked marks.now) }
{
    (0..g.nodes()).find(|u| is_unmarked(marks, *u))
}

// The smallest node without a mark and with an edge to w.
fn source_of<G: Digraph>(g: &G, marks: &[u8], w: u32) -> Option<u32>
    ensures { result ≡ first_below (G.Digraph.size g.now) (λ u. unmarked marks.now u && G.Digraph.edges g.now u w) }
{
    (0..g.nodes()).find(|u| is_unmarked(marks, *u) && g.leads(*u, w))
}

// The first place of a node in a list.
fn place_of(nodes: &[u32], u: u32) -> Option<usize>
    ensures { result ≡ first_below (length nodes.now) (λ k. slice_index nodes.now k == u) }
{
    nodes.iter().position(|node| *node == u)
}

// The place of the smallest node of a list.
fn lowest_place(nodes: &[u32]) -> Option<usize>
    ensures { MatchOption result (length nodes.now ≡ 0) (λ low. (low < length nodes.now) × ((k : ℕ) → k < length nodes.now → slice_index nodes.now low ≤ slice_index nodes.now k)) }
{
    place_of(nodes, *nodes.iter().min()?)
}

// Walks back from the smallest node without a mark until a node repeats: the part of the path that
// leads round. There is none where every node is marked.
fn walk<'p, G: Digraph>(g: &G, marks: &[u8], path: &'p mut [u32; 65]) -> Option<&'p mut [u32]>
    requires { Marked (G.Digraph.edges g.now) (G.Digraph.size g.now) marks.now }
    ensures { MatchOption result (is_stuck (G.Digraph.edges g.now) (G.Digraph.size g.now) ≡ false) (λ part. (is_stuck (G.Digraph.edges g.now) (G.Digraph.size g.now) ≡ true) × (part.now ≡ way_back (G.Digraph.edges g.now) (G.Digraph.size g.now))) }
{
    path[64] = first_unmarked(g, marks)?;
    let n = g.nodes() as usize;
    for head in (65 - n..=64).rev() {
        let u = source_of(g, marks, path[head])?;
        if let Some(at) = place_of(&path[head..], u) {
            return Some(&mut path[head..=head + at]);
        }
        path[head - 1] = u;
    }
    None
}

// Finds the ring among the nodes that cannot be placed and have no mark, its smallest node first:
// it lies in the path. There is none where every node is placed.
pub(crate) fn find_ring<'p, G: Digraph>(
    g: &G,
    marks: &[u8],
    path: &'p mut [u32; 65],
) -> Option<&'p [u32]>
    requires { Marked (G.Digraph.edges g.now) (G.Digraph.size g.now) marks.now }
    ensures { MatchOption result (is_stuck (G.Digraph.edges g.now) (G.Digraph.size g.now) ≡ false) (λ nodes. (is_stuck (G.Digraph.edges g.now) (G.Digraph.size g.now) ≡ true) × (nodes.now ≡ ring (G.Digraph.edges g.now) (G.Digraph.size g.now))) }
{
    let part = walk(g, marks, path)?;
    let low = lowest_place(part)?;
    part.rotate_left(low);
    Some(part)
}
