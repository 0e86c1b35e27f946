// Writing all clauses of a formula to a sink, or none. The length of every clause is tried first,
// then every literal, then the room against their number and what they cost together. A clause that
// passes has at most 256 literals, so one buffer serves them all. A formula is asked by number and
// lends no slice, so its clauses are gone over by their numbers, and by loops: it is asked through
// `&mut`, and that a closure leaves what it captures so as it was got no proof.
ghost use Rattle.std.specs.Prelude.{◌≡◌, ◌≤◌, false, [], ◌∷◌, ◌++◌, length, take, is_ok, if◌then◌else◌, None, OnErr, slice_index_or, sum_by};
ghost use Rattle.cnf.specs.Clauses.{bad_length, has_bad_literal};
ghost use Rattle.cnf.specs.Writing.{write_refusal, written};
ghost use Rattle.std.specs.List.{list_any};
ghost use Rattle.std.specs.Result.{result_err};

use crate::form::has_bad_literal;
use crate::formula::Formula;
use crate::refusal::SinkRefusal;
use crate::sink::Sink;

// Whether some clause is empty or longer than `longest`.
fn any_bad_length<F: Formula>(source: &mut F, longest: u32) -> bool
    ensures value { result ≡ list_any (bad_length longest) (F.Formula.clauses source.old) }
    ensures same { source.new ≡ source.old }
{
    for k in 0..source.count() {
        // every clause has a length here; where there were none, 0 would be as bad
        let m = source.length(k).unwrap_or(0);
        if m == 0 || m > longest {
            return true;
        }
    }
    false
}

// A formula no clause of which is longer than the buffer to which they are copied, one at a time.
#[derive(Drop)]
struct ShortClauses<'f, F: Formula> {
    source: &'f mut F,
    buffer: [i32; 256],
    ghost short: { list_any (bad_length 256) (F.Formula.clauses source.now) ≡ false },
}

impl<'f, F: Formula> ShortClauses<'f, F> {
    // Copies clause k to the front of the buffer: its length. (Not the slice: one out of `&mut self` is
    // not had beside a clause on what `self` is then. Nor is what each of these leaves of the source a
    // fact about one value.)
    fn load(&mut self, k: u32) -> usize
        ensures clause { take result self.new.buffer ≡ slice_index_or (F.Formula.clauses self.old.source.now) k [] }
        ensures few { result ≤ 256 }
        ensures same { self.new.source ≡ self.old.source }
    {
        self.source.copy_literals(k, 0, &mut self.buffer)
    }

    // Whether some clause has a literal that is 0 or stands above `top`.
    fn any_bad_literal(&mut self, top: u32) -> bool
        ensures value { result ≡ list_any (has_bad_literal top) (F.Formula.clauses self.old.source.now) }
        ensures same { self.new.source ≡ self.old.source }
    {
        for k in 0..self.source.count() {
            let m = self.load(k);
            if has_bad_literal(&self.buffer[..m], top) {
                return true;
            }
        }
        false
    }

    // What all clauses cost together.
    fn total_cost<S: Sink>(&mut self, sink: &mut S) -> u64
        ensures value { result ≡ sum_by (S.Sink.state sink.old).cost (F.Formula.clauses self.old.source.now) }
        ensures same { self.new.source ≡ self.old.source }
        ensures kept { sink.new ≡ sink.old }
    {
        let mut sum = 0;
        for k in 0..self.source.count() {
            let m = self.load(k);
            sum += u64::from(sink.cost(&self.buffer[..m]));
        }
        sum
    }

    // Adds all clauses, which the sink takes.
    fn add_all<S: Sink>(&mut self, sink: &mut S)
        requires { write_refusal (S.Sink.state sink.old) (F.Formula.clauses self.old.source.now) ≡ None }
        ensures after { S.Sink.state sink.new ≡ written (S.Sink.state sink.old) (F.Formula.clauses self.old.source.now) }
        ensures appended { S.Formula.clauses sink.new ≡ S.Formula.clauses sink.old ++ F.Formula.clauses self.old.source.now }
        ensures same { self.new.source ≡ self.old.source }
        ensures lent { S.Sink.names sink.new ≡ S.Sink.names sink.old }
    {
        for k in 0..self.source.count() {
            let m = self.load(k);
            let _ = sink.add(&self.buffer[..m]);
        }
    }
}

// Adds all clauses of the source, or none.
pub fn write_all<F: Formula, S: Sink>(source: &mut F, sink: &mut S) -> Result<(), SinkRefusal>
    ensures answer { result_err result ≡ write_refusal (S.Sink.state sink.old) (F.Formula.clauses source.old) }
    ensures after { S.Sink.state sink.new ≡ (if is_ok result then written (S.Sink.state sink.old) (F.Formula.clauses source.old) else S.Sink.state sink.old) }
    ensures appended { S.Formula.clauses sink.new ≡ (if is_ok result then S.Formula.clauses sink.old ++ F.Formula.clauses source.old else S.Formula.clauses sink.old) }
    ensures lent { S.Sink.names sink.new ≡ S.Sink.names sink.old }
    ensures same { source.new ≡ source.old }
    ensures kept { OnErr result (sink.new ≡ sink.old) }
{
    let (top, longest) = sink.limits();
    if any_bad_length(source, longest) {
        return Err(SinkRefusal::Length);
    }
    let mut clauses = ShortClauses {
        source,
        buffer: [0; 256],
    };
    if clauses.any_bad_literal(top) {
        return Err(SinkRefusal::Literal);
    }
    let (entries, units) = sink.room();
    if clauses.source.count() > entries || clauses.total_cost(sink) > u64::from(units) {
        return Err(SinkRefusal::Room);
    }
    clauses.add_all(sink);
    Ok(())
}
