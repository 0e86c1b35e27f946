// A sink is a formula that can also be written to. What it means is one record: its limits, what a
// clause costs, the room that is left, and the layers over what lies at the bottom.
ghost use Rattle.std.specs.Prelude.{◌≡◌, ℕ, ◌≤◌, List, [], ◌∷◌, ◌++◌, map, is_some, is_ok, if◌then◌else◌, OnErr, ◌==◌};
ghost use Rattle.cnf.specs.Clauses.{Clause};
ghost use Rattle.cnf.specs.States.{State, add_refusal, added, form_refusal, read_as};
ghost use Rattle.std.specs.Result.{result_err};

use crate::formula::Formula;
use crate::refusal::SinkRefusal;

pub trait Sink: Formula {
    ghost state: { Self → State };

    // the loans that it holds, which no call changes
    ghost names: { Self → List ℕ };

    // The largest variable and the most literals that it takes, as a pair, which the product asks for.
    // Its clauses are those at the bottom, read through its layers.
    fn limits(&mut self) -> (u32, u32)
        ensures top { result.0 ≡ (state self.old).top }
        ensures longest { result.1 ≡ (state self.old).longest }
        ensures bounds { (result.0 ≤ 1_073_741_823) × (result.1 ≤ 256) }
        ensures tied { Self.Formula.clauses self.old ≡ map (read_as (state self.old).layers) (state self.old).bottom }
        ensures same { self.new ≡ self.old };

    // How many clauses, and how many units of text or storage, are left.
    fn room(&mut self) -> (u32, u32)
        ensures entries { result.0 ≡ (state self.old).entries }
        ensures units { result.1 ≡ (state self.old).units }
        ensures same { self.new ≡ self.old };

    // What a clause costs: 1 to 4,096 units, or 0 for one that is refused for its length or a literal.
    // (A number and no option: what a sink tells of a cost is one number.)
    fn cost(&mut self, clause: &[i32]) -> u32
        ensures value { result ≡ (state self.old).cost clause.now }
        ensures most { result ≤ 4096 }
        ensures none { (result == 0) ≡ is_some (form_refusal (state self.old).top (state self.old).longest clause.now) }
        ensures same { self.new ≡ self.old };

    // Appends a clause, or refuses it by length, then literal, then room, and changes nothing.
    fn add(&mut self, clause: &[i32]) -> Result<(), SinkRefusal>
        ensures answer { result_err result ≡ add_refusal (state self.old) clause.now }
        ensures after { state self.new ≡ (if is_ok result then added (state self.old) clause.now else state self.old) }
        ensures appended { Self.Formula.clauses self.new ≡ (if is_ok result then Self.Formula.clauses self.old ++ (clause.now ∷ []) else Self.Formula.clauses self.old) }
        ensures lent { names self.new ≡ names self.old }
        ensures same { OnErr result (self.new ≡ self.old) };
}
