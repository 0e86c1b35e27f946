// Theorems on what sheets write, each carried by a function whose contract is its statement. The
// functions do nothing: what they are for is that this crate is accepted only with the proofs.
#![tactic(auto)]

ghost use Rattle.law.specs.ClauseLists.{ClauseLaw, EliminationRight, StartLists};
ghost use Rattle.law.specs.Encoding.{Encodes, EncodingLaw};
ghost use Rattle.sheet.specs.Phases.{is_fresh};
ghost use Rattle.sheet.specs.Starting.{start_clauses, started};
ghost use Rattle.sheet.specs.View.{view};
ghost use Rattle.std.specs.Prelude.{T};

use sheet::place::Sheet;

// After start, and after any eliminations, values that follow a rank of the open pipes meet the
// clauses written so far, and whoever meets them keeps every ring.
pub fn clauses_encode_rings()
    ensures { EncodingLaw }
{}

// Start and elimination write the clauses that they are for, in their order, and give variables
// without gaps; elimination writes nothing on a valve.
pub fn clauses_are_listed()
    ensures { ClauseLaw }
{}

// Of every sheet in memory: before its start, what start writes is listed as it should be and
// encodes the drawing.
pub fn start_is_right(sheet: &Sheet)
    ensures lists { T (is_fresh (view sheet.now).phase) → StartLists (view sheet.now) }
    ensures encodes { T (is_fresh (view sheet.now).phase) → Encodes (started (view sheet.now)) (start_clauses (view sheet.now)) }
{
    let _ = sheet;
}

// And at any time, what the elimination of a node writes is listed as it should be.
pub fn elimination_is_right(sheet: &Sheet, node: u32)
    ensures { EliminationRight (view sheet.now) node }
{
    let _ = sheet;
    let _ = node;
}
