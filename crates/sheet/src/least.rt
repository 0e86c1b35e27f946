// The least node: the one whose elimination is the cheapest to try first.
ghost use Rattle.sheet.specs.Least.{LeastRight, degree, in_degree, least_node, out_degree};
ghost use Rattle.sheet.specs.View.{view};
ghost use Rattle.std.specs.Prelude.{◌≡◌, ◌≤◌, nat_lt};

use crate::place::Sheet;

impl Sheet {
    // Whether an arc leads from u to w.
    fn has_arc(&self, u: u32, w: u32) -> bool
        ensures { result ≡ nat_lt 0 ((view self.now).arc u w) }
    {
        self.arc(u, w).is_some()
    }

    // How many arcs lead out of node u.
    fn out_degree(&self, u: u32) -> usize
        ensures value { result ≡ out_degree (view self.now) u }
        ensures few { result ≤ (view self.now).nodes }
    {
        (0..self.nodes).filter(|w| self.has_arc(u, *w)).count()
    }

    // How many arcs lead into node u. (It and its twin are a line each: with the way of the arc as a
    // parameter both would hand over a closure with a contract, which is longer than that line.)
    fn in_degree(&self, u: u32) -> usize
        ensures value { result ≡ in_degree (view self.now) u }
        ensures few { result ≤ (view self.now).nodes }
    {
        (0..self.nodes).filter(|w| self.has_arc(*w, u)).count()
    }

    // How many arcs lead into node u and out of it.
    fn degree(&self, u: u32) -> usize
        ensures { result ≡ degree (view self.now) u }
    {
        self.out_degree(u) + self.in_degree(u)
    }

    // The remaining node with fewest arcs in and out, the smaller number on ties, or none.
    pub fn least_node(&self) -> Option<u32>
        ensures value { result ≡ least_node (view self.now) }
        ensures right { LeastRight (view self.now) result }
    {
        (0..self.nodes)
            .filter(|u| !self.is_eliminated(*u))
            .min_by_key(|u| self.degree(*u))
    }
}
