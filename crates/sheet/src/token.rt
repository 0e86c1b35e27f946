// Tokens let their holders go on with a sheet. A token carries the number of its sheet, and its
// type is the phase that it is for. It is not copied, so a token that was spent is not used again.
ghost use Rattle.sheet.specs.Phases.{is_phase};
ghost use Rattle.sheet.specs.Refusals.{unless};
ghost use Rattle.sheet.specs.View.{view};
ghost use Rattle.sheet.specs.declared.refusal.SheetRefusal.TheVariants.{WrongToken};
ghost use Rattle.std.specs.Prelude.{◌≡◌, ◌&&◌, None, ◌==◌};
ghost use Rattle.std.specs.Result.{result_err};

use crate::phase::Phase;
use crate::place::Sheet;
use crate::refusal::SheetRefusal;

// Lets its holder draw on the sheet of its number.
#[derive(Drop)]
pub struct DrawingToken {
    pub(crate) number: u32,
}

// Lets its holder eliminate nodes of the sheet of its number, and obliges it to close the sheet or
// to call that off: it does not derive `Drop`, so a program that lets one go is refused.
pub struct ClosingToken {
    pub(crate) number: u32,
}

impl ClosingToken {
    // Spends the token. No sheet is touched: what has been written stays written.
    pub fn call_off(self) {
        let ClosingToken { number: _ } = self;
    }
}

impl Sheet {
    // Refuses a token of this number for this phase, where the sheet has another number or phase.
    pub(crate) fn check_token(&self, phase: Phase, number: u32) -> Result<(), SheetRefusal>
        ensures { result_err result ≡ unless (number == (view self.now).number && is_phase phase (view self.now).phase) WrongToken None }
    {
        if self.number == number && self.phase == phase {
            Ok(())
        } else {
            Err(SheetRefusal::WrongToken)
        }
    }
}
