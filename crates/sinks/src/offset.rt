// An offset adds its shift to every variable for the sink below, and reads a variable above the
// shift as that much less and any other unchanged.
ghost use Rattle.std.specs.Prelude.{◌≡◌, ◌+◌, ◌-◌, ◌≤◌, false, map, length, unsigned_abs};
ghost use Rattle.cnf.specs.Clauses.{has_bad_literal};
ghost use Rattle.cnf.specs.States.{lowered, offset, raised};
ghost use Rattle.sinks.specs.Layers.{shifted};

use crate::layer::{Layer, Layered};
use cnf::sink::Sink;

pub type Offset<S> = Layered<S, OffsetShift>;

// What an offset does to clauses.
#[derive(Clone, Copy)]
pub struct OffsetShift {
    shift: u32,
}

// A literal whose variable is moved up.
fn raise(literal: i32, shift: u32) -> i32
    requires { unsigned_abs literal + shift ≤ 1_073_741_823 }
    ensures { result ≡ raised shift literal }
{
    let by = shift as i32;
    if literal < 0 {
        literal - by
    } else {
        literal + by
    }
}

// A literal as it is read from below. (No twin of `raise`, though it moves the other way: it leaves the
// variables up to the shift alone, which `raise` never makes.)
fn lower(literal: i32, shift: u32) -> i32
    ensures { result ≡ lowered shift literal }
{
    if literal.unsigned_abs() <= shift {
        return literal;
    }
    let by = shift as i32;
    if literal < 0 {
        literal + by
    } else {
        literal - by
    }
}

// The clause with its variables moved up, which lies at the front of `out`. (Not by
// `out.iter_mut().zip(clause)`: once such a loop is over, a proof knows how many places there are
// and not what they hold.)
#[tactic(auto, using(crate::proofs::Offsets::raised_within))]
fn raise_all<'o>(clause: &[i32], top: u32, shift: u32, out: &'o mut [i32; 256]) -> &'o [i32]
    requires bound { top ≤ 1_073_741_823 }
    requires fits { has_bad_literal (top - shift) clause.now ≡ false }
    requires room { length clause.now ≤ 256 }
    ensures { result.now ≡ map (raised shift) clause.now }
{
    for (i, &literal) in clause.iter().enumerate() {
        out[i] = raise(literal, shift);
    }
    &out[..clause.len()]
}

impl Layer for OffsetShift {
    ghost layer = { λ d. offset d.shift };

    fn limits(&self, below: (u32, u32)) -> (u32, u32) {
        let (top, longest) = below;
        (top.saturating_sub(self.shift), longest)
    }

    fn store<'o>(&self, clause: &[i32], below: (u32, u32), out: &'o mut [i32; 256]) -> &'o [i32] {
        raise_all(clause, below.0, self.shift, out)
    }

    fn reads_all(&self) -> bool {
        true
    }

    fn shown(&self, n: u32) -> u32 {
        n
    }

    fn read(&self, literal: i32) -> i32 {
        lower(literal, self.shift)
    }
}

impl<S: Sink> Offset<S> {
    pub fn new(below: S, shift: u32) -> Offset<S>
        ensures below { result.below ≡ below }
        ensures shift { result.layer.shift ≡ shift }
        ensures state { ⟦<Offset<S> as Sink>⟧.state result ≡ shifted shift (S.Sink.state below) }
    {
        Layered::over(below, OffsetShift { shift })
    }
}
