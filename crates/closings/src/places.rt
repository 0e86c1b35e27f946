// The places of a closing's clauses: each clause is found by its number, and its place tells its length
// and its literals.
ghost use Rattle.std.specs.Prelude.{◌≡◌, List, [], length, slice_index_or, slice_get};
ghost use Rattle.closings.specs.Inputs.{Input, input};
ghost use Rattle.cnf.specs.Clauses.{Clause};
ghost use Rattle.std.specs.Option.{IfSome, option_map};

use crate::remaining::Remaining;

pub(crate) trait ClausePlace: Copy {
    // the clauses, in order
    ghost clauses: { Input → List Clause };

    // the clause that stands at a place
    ghost clause_at: { Input → Self → Clause };

    // the place is one of the input
    ghost Within: { Input → Self → Type 0 };

    // The place of clause k, or none past the last.
    fn find(x: &Remaining, k: u32) -> Option<Self>
        ensures is { slice_get (clauses (input x.now)) k ≡ option_map (clause_at (input x.now)) result }
        ensures within { IfSome result (Within (input x.now)) };

    // The length of the clause that stands here.
    fn length(self, x: &Remaining) -> u32
        requires { Within (input x.now) self }
        ensures { result ≡ length (clause_at (input x.now) self) };

    // Literal j of the clause that stands here.
    fn literal(self, x: &Remaining, j: u32) -> Option<i32>
        requires { Within (input x.now) self }
        ensures { result ≡ slice_get (clause_at (input x.now) self) j };
}

// The length of clause k, or none past the last. (Each closing hands its two questions on by a line: one
// implementation for all with places would meet that of the named closing.)
pub(crate) fn length_of<P: ClausePlace>(x: &Remaining, k: u32) -> Option<u32>
    ensures { result ≡ option_map length (slice_get (P.clauses (input x.now)) k) }
{
    let place = P::find(x, k)?;
    Some(place.length(x))
}

// Literal j of clause k, or none past the last of either.
#[tactic(auto, using(crate::specs::RangesLemmas::told, crate::specs::RangesLemmas::told_none))]
pub(crate) fn literal_of<P: ClausePlace>(x: &Remaining, k: u32, j: u32) -> Option<i32>
    ensures { result ≡ slice_get (slice_index_or (P.clauses (input x.now)) k []) j }
{
    P::find(x, k)?.literal(x, j)
}
