// A formula or a sink that is lent serves as one, so that layers can be piled by `&mut`.
ghost use Rattle.std.specs.Prelude.{◌∷◌};

use crate::formula::Formula;
use crate::refusal::SinkRefusal;
use crate::sink::Sink;

impl<'a, F: Formula> Formula for &'a mut F {
    ghost clauses = { λ s. F.Formula.clauses s.now };

    fn count(&mut self) -> u32 {
        (**self).count()
    }

    fn length(&mut self, k: u32) -> Option<u32> {
        (**self).length(k)
    }

    fn literal(&mut self, k: u32, j: u32) -> Option<i32> {
        (**self).literal(k, j)
    }

    fn copy_literals(&mut self, k: u32, from: u32, out: &mut [i32]) -> usize {
        (**self).copy_literals(k, from, out)
    }
}

impl<'a, S: Sink> Sink for &'a mut S {
    ghost state = { λ s. S.Sink.state s.now };

    ghost names = { λ s. s.ghost_name ∷ S.Sink.names s.now };

    fn limits(&mut self) -> (u32, u32) {
        (**self).limits()
    }

    fn room(&mut self) -> (u32, u32) {
        (**self).room()
    }

    fn cost(&mut self, clause: &[i32]) -> u32 {
        (**self).cost(clause)
    }

    fn add(&mut self, clause: &[i32]) -> Result<(), SinkRefusal> {
        (**self).add(clause)
    }
}
