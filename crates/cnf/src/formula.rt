// A formula means a list of clauses, and tells it: how many there are, how long each is, and each
// literal. A question takes the formula for writing, since some formulas search as they answer, and
// changes nothing.
ghost use Rattle.std.specs.Prelude.{◌≡◌, ℕ, ◌+◌, ◌-◌, ◌<◌, min, List, [], ◌++◌, length, take, drop, slice_index_or, slice_get};
ghost use Rattle.cnf.specs.Clauses.{Clause};
ghost use Rattle.std.specs.Option.{option_map};

pub trait Formula {
    ghost clauses: { Self → List Clause };

    // How many clauses there are.
    fn count(&mut self) -> u32
        ensures value { result ≡ length (clauses self.old) }
        ensures same { self.new ≡ self.old };

    // The length of clause k, or none past the last.
    fn length(&mut self, k: u32) -> Option<u32>
        ensures value { result ≡ option_map length (slice_get (clauses self.old) k) }
        ensures same { self.new ≡ self.old };

    // Literal j of clause k, or none past the last of either.
    fn literal(&mut self, k: u32, j: u32) -> Option<i32>
        ensures value { result ≡ slice_get (slice_index_or (clauses self.old) k []) j }
        ensures same { self.new ≡ self.old };

    // Copies the literals of clause k from place `from` on to the front of `out`, as many as there
    // are and as fit: how many. The places of `out` past them stay. (A number and no slice, so that the
    // buffer is its caller's again at once.)
    fn copy_literals(&mut self, k: u32, from: u32, out: &mut [i32]) -> usize
        ensures value { result ≡ min (length (slice_index_or (clauses self.old) k []) - from) (length out.old) }
        ensures after { out.new ≡ take result (drop from (slice_index_or (clauses self.old) k [])) ++ drop result out.old }
        ensures same { self.new ≡ self.old }
    {
        let left = self.length(k).unwrap_or(0).saturating_sub(from) as usize;
        let n = left.min(out.len());
        for (i, place) in out[..n].iter_mut().enumerate() {
            *place = self.literal(k, from + i as u32).unwrap_or(0);
        }
        n
    }
}
