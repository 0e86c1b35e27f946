// Drawing pipes on a sheet.
ghost use Rattle.sheet.specs.Drawing.{draw_refusal, draw_step};
ghost use Rattle.sheet.specs.Refusals.{refusal_in, token_in};
ghost use Rattle.sheet.specs.View.{view};
ghost use Rattle.std.specs.Prelude.{◌≡◌, OnErr};
ghost use Rattle.std.specs.Result.{result_err};

use crate::phase::Phase;
use crate::pipe::Pipe;
use crate::place::Sheet;
use crate::refusal::{Refused, SheetRefusal};
use crate::token::DrawingToken;

impl Sheet {
    // Draws a pipe. The token comes back, also with a refusal.
    pub fn draw(
        &mut self,
        token: DrawingToken,
        pipe: Pipe,
    ) -> Result<DrawingToken, Refused<DrawingToken>>
        ensures answer { refusal_in result ≡ draw_refusal (view self.old) token.number pipe }
        ensures after { view self.new ≡ draw_step (view self.old) token.number pipe }
        ensures token { token_in result ≡ token }
        ensures same { OnErr result (self.new ≡ self.old) }
    {
        match self.check_draw(token.number, pipe) {
            Ok(()) => {
                self.pipes.set(pipe.from, pipe.to, pipe.valve);
                Ok(token)
            }
            Err(refusal) => Err(Refused { token, refusal }),
        }
    }

    // Refuses a pipe that cannot be drawn with a token of this number.
    fn check_draw(&self, number: u32, pipe: Pipe) -> Result<(), SheetRefusal>
        ensures { result_err result ≡ draw_refusal (view self.now) number pipe }
    {
        self.check_token(Phase::Drawing, number)?;
        if pipe.from >= self.nodes || pipe.to >= self.nodes {
            return Err(SheetRefusal::NoSuchNode);
        }
        if pipe.from == pipe.to {
            return Err(SheetRefusal::SelfLoop);
        }
        if !(1..=self.valves).contains(&pipe.valve) {
            return Err(SheetRefusal::NoSuchValve);
        }
        if self.valve(pipe.from, pipe.to).is_some() {
            return Err(SheetRefusal::PairTaken);
        }
        Ok(())
    }
}
