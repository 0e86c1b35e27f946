// Starting a sheet: every drawn pair gets an arc on a variable of its own, which is true where the
// pair's pipe is open.
ghost use Rattle.sheet.specs.Refusals.{clauses_after, refusal_in, sink_after};
ghost use Rattle.sheet.specs.Starting.{StartToken, start_clauses, start_refusal, start_step, valve_of};
ghost use Rattle.sheet.specs.View.{view};
ghost use Rattle.std.specs.Prelude.{◌≡◌, OnErr};
ghost use Rattle.std.specs.Result.{result_err};

use crate::implications::{Body, Rule, write_planned};
use crate::phase::Phase;
use crate::place::Sheet;
use crate::refusal::{Refused, SheetRefusal};
use crate::token::{ClosingToken, DrawingToken};
use cnf::sink::Sink;

// The valve of a pipe implies the arc of its pair.
#[derive(Drop)]
struct DrawnPipes<'s> {
    sheet: &'s Sheet,
}

impl<'s> Rule for DrawnPipes<'s> {
    ghost premises = { λ r. valve_of (view r.sheet.now).pipe };

    fn body(&self, u: u32, w: u32) -> Option<Body> {
        Some(Body::One(self.sheet.valve(u, w)?))
    }
}

impl Sheet {
    // Starts the sheet: spends the drawing token, writes the clauses that tie arcs to pipes, all or
    // none, and gives the closing token. With a refusal the drawing token comes back.
    pub fn start<S: Sink>(
        &mut self,
        token: DrawingToken,
        sink: &mut S,
    ) -> Result<ClosingToken, Refused<DrawingToken>>
        ensures answer { refusal_in result ≡ start_refusal (view self.old) token.number (S.Sink.state sink.old) }
        ensures after { view self.new ≡ start_step (view self.old) token.number (S.Sink.state sink.old) }
        ensures written { S.Sink.state sink.new ≡ sink_after (refusal_in result) (S.Sink.state sink.old) (start_clauses (view self.old)) }
        ensures appended { S.Formula.clauses sink.new ≡ clauses_after (refusal_in result) (S.Formula.clauses sink.old) (start_clauses (view self.old)) }
        ensures lent { S.Sink.names sink.new ≡ S.Sink.names sink.old }
        ensures token { StartToken token result }
        ensures same { OnErr result (self.new ≡ self.old) }
        ensures kept { OnErr result (sink.new ≡ sink.old) }
    {
        let number = token.number;
        match self.give_arcs(number, sink) {
            Ok(()) => Ok(ClosingToken { number }),
            Err(refusal) => Err(Refused { token, refusal }),
        }
    }

    // Writes the clauses of start, and gives the arcs.
    fn give_arcs<S: Sink>(&mut self, number: u32, sink: &mut S) -> Result<(), SheetRefusal>
        ensures answer { result_err result ≡ start_refusal (view self.old) number (S.Sink.state sink.old) }
        ensures after { view self.new ≡ start_step (view self.old) number (S.Sink.state sink.old) }
        ensures written { S.Sink.state sink.new ≡ sink_after (result_err result) (S.Sink.state sink.old) (start_clauses (view self.old)) }
        ensures appended { S.Formula.clauses sink.new ≡ clauses_after (result_err result) (S.Formula.clauses sink.old) (start_clauses (view self.old)) }
        ensures lent { S.Sink.names sink.new ≡ S.Sink.names sink.old }
        ensures same { OnErr result (self.new ≡ self.old) }
        ensures kept { OnErr result (sink.new ≡ sink.old) }
    {
        self.check_token(Phase::Drawing, number)?;
        let arcs = write_planned(self, &DrawnPipes { sheet: self }, sink)?;
        self.arcs = arcs;
        self.phase = Phase::Closing;
        Ok(())
    }
}
