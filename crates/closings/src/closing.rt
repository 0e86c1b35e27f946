// A closing: for a graph that remains, a list of clauses and a number of added variables, so that
// for every choice of arcs some values of the added variables meet the clauses exactly when the
// chosen arcs have no ring. It tells its clauses as a formula tells its own.
ghost use Rattle.std.specs.Prelude.{◌≡◌, ℕ, ◌+◌, ◌-◌, ◌≤◌, min, List, [], ◌++◌, length, take, drop, slice_index_or, slice_get};
ghost use Rattle.closings.specs.Inputs.{Input, Lawful, input};
ghost use Rattle.closings.specs.Law.{Closes, Small, Uses};
ghost use Rattle.cnf.specs.Clauses.{Clause};
ghost use Rattle.std.specs.Option.{option_map};

use crate::remaining::Remaining;

pub trait Closing {
    // the clauses, in order
    ghost means: { Self → Input → List Clause };

    // how many variables it adds, from the first free one on
    ghost adds: { Self → Input → ℕ };

    // How many variables it adds.
    fn added(&self, x: &Remaining) -> u32
        ensures { result ≡ adds self.now (input x.now) };

    // How many clauses there are.
    fn count(&self, x: &Remaining) -> u32
        ensures { result ≡ length (means self.now (input x.now)) };

    // The length of clause k, or none past the last.
    fn length(&self, x: &Remaining, k: u32) -> Option<u32>
        ensures { result ≡ option_map length (slice_get (means self.now (input x.now)) k) };

    // Literal j of clause k, or none past the last of either.
    fn literal(&self, x: &Remaining, k: u32, j: u32) -> Option<i32>
        ensures { result ≡ slice_get (slice_index_or (means self.now (input x.now)) k []) j };

    // Copies the literals of clause k from place `from` on to the front of `out`, as many as there
    // are and as fit: how many. The places of `out` past them stay.
    fn copy_literals(&self, x: &Remaining, k: u32, from: u32, out: &mut [i32]) -> usize
        ensures value { result ≡ min (length (slice_index_or (means self.now (input x.now)) k []) - from) (length out.old) }
        ensures after { out.new ≡ take result (drop from (slice_index_or (means self.now (input x.now)) k [])) ++ drop result out.old }
    {
        // the body of a formula's copying again: one that passes `self` on to a generic function was
        // tried, and gets no proof unless it is final, which no closing could then write for itself
        let left = self.length(x, k).unwrap_or(0).saturating_sub(from) as usize;
        let n = left.min(out.len());
        for (i, place) in out[..n].iter_mut().enumerate() {
            *place = self.literal(x, k, from + i as u32).unwrap_or(0);
        }
        n
    }

    ghost closes: { (c : Self) (x : Input) → Lawful x → Closes x (adds c x) (means c x) };

    ghost uses: { (c : Self) (x : Input) → Lawful x → Uses x (adds c x) (means c x) };

    ghost small: { (c : Self) (x : Input) → Lawful x → x.nodes ≤ 64 → Small (adds c x) (means c x) };
}
