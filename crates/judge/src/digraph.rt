// A directed graph on numbered nodes, as far as placing and walking need it: how many nodes there
// are, and whether an edge leads from one node to another. Both are proved once for every such
// graph.
ghost use Rattle.std.specs.Prelude.{◌≡◌, ℕ, ◌≤◌, Bool};

pub(crate) trait Digraph {
    ghost size: { Self → ℕ };

    ghost edges: { Self → ℕ → ℕ → Bool };

    // The number of nodes.
    fn nodes(&self) -> u32
        ensures number { result ≡ size self.now }
        ensures few { result ≤ 64 };

    // Whether an edge leads from u to w.
    fn leads(&self, u: u32, w: u32) -> bool
        ensures { result ≡ edges self.now u w };
}
