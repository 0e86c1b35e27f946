// A guard adds its literal at the end of every clause for the sink below, so that the clauses bind
// only where that literal is false, and reads each clause below without its last literal.
ghost use Rattle.std.specs.Prelude.{◌≡◌, ◌<◌, [], ◌∷◌, ◌++◌, length};
ghost use Rattle.cnf.specs.States.{guard};
ghost use Rattle.sinks.specs.Layers.{guarded};

use crate::layer::{Layer, Layered};
use cnf::sink::Sink;

pub type Guard<S> = Layered<S, GuardLiteral>;

// What a guard does to clauses.
#[derive(Clone, Copy)]
pub struct GuardLiteral {
    literal: i32,
}

// The clause and one literal more, which lie at the front of `out`.
fn put_onto<'o>(clause: &[i32], literal: i32, out: &'o mut [i32; 256]) -> &'o [i32]
    requires { length clause.now < 256 }
    ensures { result.now ≡ clause.now ++ (literal ∷ []) }
{
    let n = clause.len();
    out[..n].copy_from_slice(clause);
    out[n] = literal;
    &out[..=n]
}

impl Layer for GuardLiteral {
    ghost layer = { λ g. guard g.literal };

    fn limits(&self, below: (u32, u32)) -> (u32, u32) {
        let (top, longest) = below;
        let variable = self.literal.unsigned_abs();
        if variable == 0 || variable > top {
            (top, 0)
        } else {
            (top, longest.saturating_sub(1))
        }
    }

    fn store<'o>(&self, clause: &[i32], below: (u32, u32), out: &'o mut [i32; 256]) -> &'o [i32] {
        put_onto(clause, self.literal, out)
    }

    fn reads_all(&self) -> bool {
        false
    }

    fn shown(&self, n: u32) -> u32 {
        n.saturating_sub(1)
    }

    fn read(&self, literal: i32) -> i32 {
        literal
    }
}

impl<S: Sink> Guard<S> {
    pub fn new(below: S, literal: i32) -> Guard<S>
        ensures below { result.below ≡ below }
        ensures literal { result.layer.literal ≡ literal }
        ensures state { ⟦<Guard<S> as Sink>⟧.state result ≡ guarded literal (S.Sink.state below) }
    {
        Layered::over(below, GuardLiteral { literal })
    }
}
