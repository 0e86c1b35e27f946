// Elimination of a node: every way through it is bridged by an arc that one clause forces, and then
// the node and its arcs leave.
ghost use Rattle.std.specs.Prelude.{◌≡◌, OnErr};
ghost use Rattle.sheet.specs.Eliminating.{elimination_clauses, elimination_refusal, elimination_step, way_through};
ghost use Rattle.sheet.specs.Refusals.{clauses_after, refusal_in, sink_after, token_in};
ghost use Rattle.sheet.specs.View.{view};
ghost use Rattle.std.specs.Result.{result_err};

use crate::implications::{Body, Rule, write_planned};
use crate::phase::Phase;
use crate::place::Sheet;
use crate::refusal::{Refused, SheetRefusal};
use crate::token::ClosingToken;
use cnf::sink::Sink;

// Two arcs that lead through a node imply the arc that bridges them.
#[derive(Drop)]
struct WaysThrough<'s> {
    sheet: &'s Sheet,
    node: u32,
}

impl<'s> Rule for WaysThrough<'s> {
    ghost premises = { λ r. way_through (view r.sheet.now).arc r.node };

    fn body(&self, u: u32, w: u32) -> Option<Body> {
        let into = self.sheet.arc(u, self.node)?;
        let from = self.sheet.arc(self.node, w)?;
        Some(Body::Two(into, from))
    }
}

impl Sheet {
    // Eliminates a node: writes the clauses of its bridges, all or none. The token comes back, also
    // with a refusal.
    pub fn eliminate<S: Sink>(
        &mut self,
        token: ClosingToken,
        node: u32,
        sink: &mut S,
    ) -> Result<ClosingToken, Refused<ClosingToken>>
        ensures answer { refusal_in result ≡ elimination_refusal (view self.old) token.number node (S.Sink.state sink.old) }
        ensures after { view self.new ≡ elimination_step (view self.old) token.number node (S.Sink.state sink.old) }
        ensures written { S.Sink.state sink.new ≡ sink_after (refusal_in result) (S.Sink.state sink.old) (elimination_clauses (view self.old) node) }
        ensures appended { S.Formula.clauses sink.new ≡ clauses_after (refusal_in result) (S.Formula.clauses sink.old) (elimination_clauses (view self.old) node) }
        ensures lent { S.Sink.names sink.new ≡ S.Sink.names sink.old }
        ensures token { token_in result ≡ token }
        ensures same { OnErr result (self.new ≡ self.old) }
        ensures kept { OnErr result (sink.new ≡ sink.old) }
    {
        match self.bridge(token.number, node, sink) {
            Ok(()) => Ok(token),
            Err(refusal) => Err(Refused { token, refusal }),
        }
    }

    // Writes the clauses of an elimination, gives the bridges their arcs, and takes the node out.
    fn bridge<S: Sink>(&mut self, number: u32, node: u32, sink: &mut S) -> Result<(), SheetRefusal>
        ensures answer { result_err result ≡ elimination_refusal (view self.old) number node (S.Sink.state sink.old) }
        ensures after { view self.new ≡ elimination_step (view self.old) number node (S.Sink.state sink.old) }
        ensures written { S.Sink.state sink.new ≡ sink_after (result_err result) (S.Sink.state sink.old) (elimination_clauses (view self.old) node) }
        ensures appended { S.Formula.clauses sink.new ≡ clauses_after (result_err result) (S.Formula.clauses sink.old) (elimination_clauses (view self.old) node) }
        ensures lent { S.Sink.names sink.new ≡ S.Sink.names sink.old }
        ensures same { OnErr result (self.new ≡ self.old) }
        ensures kept { OnErr result (sink.new ≡ sink.old) }
    {
        self.check_token(Phase::Closing, number)?;
        if node >= self.nodes {
            return Err(SheetRefusal::NoSuchNode);
        }
        if self.is_eliminated(node) {
            return Err(SheetRefusal::NodeEliminated);
        }
        let mut arcs = write_planned(self, &WaysThrough { sheet: self, node }, sink)?;
        arcs.variables.clear_node(node);
        self.arcs = arcs;
        self.out[node as usize] = true;
        Ok(())
    }
}
