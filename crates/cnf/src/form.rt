// The form of a clause: its length and its literals, tried in this order.
ghost use Rattle.cnf.specs.Clauses.{has_bad_literal};
ghost use Rattle.cnf.specs.States.{form_refusal};
ghost use Rattle.std.specs.Result.{result_err};
ghost use Rattle.std.specs.Prelude.{◌≡◌};

use crate::refusal::SinkRefusal;

// Whether some literal of a clause is 0 or stands on a variable above `top`. (A loop and not `any`: of
// this one the compiler takes several literals at a time, and every layer of a pile asks it.)
pub fn has_bad_literal(clause: &[i32], top: u32) -> bool
    ensures { result ≡ has_bad_literal top clause.now }
{
    for literal in clause {
        let variable = literal.unsigned_abs();
        if variable == 0 || variable > top {
            return true;
        }
    }
    false
}

// Refuses a clause that is empty or longer than `longest`, or has such a literal.
pub fn check_form(clause: &[i32], top: u32, longest: u32) -> Result<(), SinkRefusal>
    ensures { result_err result ≡ form_refusal top longest clause.now }
{
    if clause.is_empty() || clause.len() > longest as usize {
        return Err(SinkRefusal::Length);
    }
    if has_bad_literal(clause, top) {
        return Err(SinkRefusal::Literal);
    }
    Ok(())
}
