// A layer lies between two sinks: it says what limits the sink above has, how a clause is stored
// below, and how a clause below is read. Every layer makes a sink over every sink in the same way.
ghost use Rattle.std.specs.Prelude.{◌≡◌, ◌≤◌, map, length, None, IfOk};
ghost use Rattle.cnf.specs.States.{Layer, form_refusal};
ghost use Rattle.sinks.specs.Layers.{layer_longest, layer_top, layered, read_by, read_literal, reads_all, shown, stored_by};
ghost use Rattle.std.specs.Result.{result_err};

use cnf::form::check_form;
use cnf::formula::Formula;
use cnf::refusal::SinkRefusal;
use cnf::sink::Sink;

pub(crate) trait Layer: Copy {
    // what it is in a state
    ghost layer: { Self → Layer };

    // The largest variable and the most literals above it, from those below.
    fn limits(&self, below: (u32, u32)) -> (u32, u32)
        ensures top { result.0 ≡ layer_top (layer self.now) below.0 }
        ensures longest { result.1 ≡ layer_longest (layer self.now) below.0 below.1 };

    // A clause that it takes as it is stored below, which lies at the front of `out`. (Limits come as the
    // pair that a sink tells; the clause and the buffer are two loans of one call.)
    fn store<'o>(&self, clause: &[i32], below: (u32, u32), out: &'o mut [i32; 256]) -> &'o [i32]
        requires bounds { (below.0 ≤ 1_073_741_823) × (below.1 ≤ 256) }
        requires taken { form_refusal (layer_top (layer self.now) below.0) (layer_longest (layer self.now) below.0 below.1) clause.now ≡ None }
        ensures { result.now ≡ stored_by (layer self.now) clause.now };

    // Whether it reads every literal of a clause, each in its place.
    fn reads_all(&self) -> bool
        ensures { result ≡ reads_all (layer self.now) };

    // How many literals it reads of a clause of `n`.
    fn shown(&self, n: u32) -> u32
        ensures { result ≡ shown (layer self.now) n };

    // A literal as it reads it.
    fn read(&self, literal: i32) -> i32
        ensures { result ≡ read_literal (layer self.now) literal };
}

// A sink over the sink below, with a layer between.
#[derive(Drop)]
pub struct Layered<S, L> {
    below: S,
    layer: L,
}

impl<S: Sink, L: Layer> Layered<S, L> {
    pub(crate) fn over(below: S, layer: L) -> Layered<S, L>
        ensures below { result.below ≡ below }
        ensures layer { result.layer ≡ layer }
    {
        Layered { below, layer }
    }

    // The sink below.
    pub fn into_inner(self) -> S
        ensures { result ≡ self.below }
    {
        let Layered { below, layer: _ } = self;
        below
    }

    // The clause as it is stored below, which lies at the front of `out`.
    fn stored<'o>(
        &mut self,
        clause: &[i32],
        out: &'o mut [i32; 256],
    ) -> Result<&'o [i32], SinkRefusal>
        ensures answer { result_err result ≡ form_refusal (layer_top (L.Layer.layer self.old.layer) (S.Sink.state self.old.below).top) (layer_longest (L.Layer.layer self.old.layer) (S.Sink.state self.old.below).top (S.Sink.state self.old.below).longest) clause.now }
        ensures stored { IfOk result (λ c. c.now ≡ stored_by (L.Layer.layer self.old.layer) clause.now) }
        ensures same { self.new ≡ self.old }
    {
        let below = self.below.limits();
        let (top, longest) = self.layer.limits(below);
        check_form(clause, top, longest)?;
        Ok(self.layer.store(clause, below, out))
    }
}

impl<S: Sink, L: Layer> Formula for Layered<S, L> {
    ghost clauses = { λ s. map (read_by (L.Layer.layer s.layer)) (S.Formula.clauses s.below) };

    fn count(&mut self) -> u32 {
        self.below.count()
    }

    #[tactic(auto, using(crate::proofs::Piles::lengths_read))]
    fn length(&mut self, k: u32) -> Option<u32> {
        let n = self.below.length(k)?;
        Some(self.layer.shown(n))
    }

    #[tactic(auto, using(crate::proofs::Piles::literal_in_place, crate::proofs::Piles::literal_shown, crate::proofs::Piles::literal_hidden))]
    fn literal(&mut self, k: u32, j: u32) -> Option<i32> {
        // the clause's length is asked below only for a layer that hides some of its literals: each layer
        // of a pile would ask all those under it, once for every literal
        if !self.layer.reads_all() {
            let n = self.below.length(k)?;
            if j >= self.layer.shown(n) {
                return None;
            }
        }
        let literal = self.below.literal(k, j)?;
        Some(self.layer.read(literal))
    }
}

impl<S: Sink, L: Layer> Sink for Layered<S, L> {
    ghost state = { λ s. layered (L.Layer.layer s.layer) (S.Sink.state s.below) };

    ghost names = { λ s. S.Sink.names s.below };

    #[tactic(auto, using(crate::proofs::Piles::all_read_over))]
    fn limits(&mut self) -> (u32, u32) {
        let below = self.below.limits();
        self.layer.limits(below)
    }

    fn room(&mut self) -> (u32, u32) {
        self.below.room()
    }

    #[tactic(auto, using(crate::proofs::Piles::layer_cost, crate::proofs::Piles::taken_below))]
    fn cost(&mut self, clause: &[i32]) -> u32 {
        let mut buffer = [0; 256];
        match self.stored(clause, &mut buffer) {
            Ok(stored) => self.below.cost(stored),
            Err(_) => 0,
        }
    }

    #[tactic(auto, using(crate::proofs::Piles::layer_answer, crate::proofs::Piles::layer_appended, crate::proofs::Piles::layer_after))]
    fn add(&mut self, clause: &[i32]) -> Result<(), SinkRefusal> {
        let mut buffer = [0; 256];
        let stored = self.stored(clause, &mut buffer)?;
        self.below.add(stored)
    }
}
