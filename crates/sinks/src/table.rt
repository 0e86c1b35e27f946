// A table of clauses in two lent buffers: their literals one behind the other, and for each clause
// its offset and its length. Every question is answered in constant time.
ghost use Rattle.std.specs.Prelude.{◌≡◌, ◌+◌, ◌-◌, ◌<◌, ◌≤◌, min, [], ◌∷◌, ◌++◌, length, take, is_ok, if◌then◌else◌, OnErr, OnOk, slice_set, slice_get};
ghost use Rattle.cnf.specs.States.{add_refusal, added};
ghost use Rattle.sinks.specs.Table.{LaidOut, behind, cut, table_state};
ghost use Rattle.std.specs.Result.{result_err};

use bounded::Bounded;
use cnf::form::check_form;
use cnf::formula::Formula;
use cnf::refusal::SinkRefusal;
use cnf::sink::Sink;

const TOP: u32 = 1_073_741_823;

const LONGEST: u32 = 256;

const MOST_CLAUSES: usize = 1_000_000;

const MOST_LITERALS: usize = 1_073_741_824;

// Two slices with their lengths, and not two `Bounded` lists: a table of those was proved too, but its
// caller then no longer knew what its buffers hold, as of any loan in a struct inside a struct.
#[derive(Drop)]
pub struct TableSink<'a> {
    literals: &'a mut [i32],
    used: usize,
    pairs: &'a mut [(u32, u32)],
    count: usize,
    ghost laid_out: { LaidOut (take count pairs.now) (take used literals.now) },
    ghost inside: { used ≤ length literals.now },
    ghost few_units: { used ≤ 1_073_741_824 },
    ghost listed: { count ≤ length pairs.now },
    ghost few_entries: { count ≤ 1_000_000 },
}

// Stores a clause behind the first `at` literals: the one bounded list, taken up again over them.
fn store(literals: &mut [i32], at: usize, clause: &[i32])
    requires { at + length clause.now ≤ length literals.old }
    ensures { literals.new ≡ behind at clause.now literals.old }
{
    let mut list = Bounded::resume(literals, at);
    list.extend_from_slice(clause).unwrap();
}

// Lists one pair more behind the first `count`, by such a list over the pairs.
fn list_pair(pairs: &mut [(u32, u32)], count: usize, pair: (u32, u32))
    requires { count < length pairs.old }
    ensures { pairs.new ≡ slice_set pairs.old count pair }
{
    let mut list = Bounded::resume(pairs, count);
    list.push(pair).unwrap();
}

impl<'a> TableSink<'a> {
    // An empty table in these buffers.
    pub fn new(literals: &'a mut [i32], pairs: &'a mut [(u32, u32)]) -> TableSink<'a>
        ensures literals { (result.used ≡ 0) × (result.literals ≡ literals.entry) }
        ensures pairs { (result.count ≡ 0) × (result.pairs ≡ pairs.entry) }
    {
        TableSink {
            literals,
            used: 0,
            pairs,
            count: 0,
        }
    }

    // Pair k, or none past the last in use.
    fn pair(&self, k: u32) -> Option<(u32, u32)>
        ensures { result ≡ slice_get (take self.now.count self.now.pairs.now) k }
    {
        self.pairs[..self.count].get(k as usize).copied()
    }

    // The literals in use.
    fn run(&self) -> &[i32]
        ensures { result.now ≡ take self.now.used self.now.literals.now }
    {
        &self.literals[..self.used]
    }

    // How many clauses and literals there is room for.
    fn left(&self) -> (u32, u32)
        ensures entries { result.0 ≡ min (length self.now.pairs.now) 1_000_000 - self.now.count }
        ensures units { result.1 ≡ min (length self.now.literals.now) 1_073_741_824 - self.now.used }
    {
        let entries = self.pairs.len().min(MOST_CLAUSES) - self.count;
        let units = self.literals.len().min(MOST_LITERALS) - self.used;
        (entries as u32, units as u32)
    }

    // Appends a clause as `add` does. Its contract also says what every place of both buffers holds.
    #[tactic(auto, using(crate::proofs::Tables::table_laid_out, crate::proofs::Tables::table_appended, crate::proofs::Tables::table_added))]
    pub fn append(&mut self, clause: &[i32]) -> Result<(), SinkRefusal>
        ensures answer { result_err result ≡ add_refusal (⟦<TableSink<'a> as Sink>⟧.state self.old) clause.now }
        ensures counts { OnOk result ((self.new.count ≡ self.old.count + 1) × (self.new.used ≡ self.old.used + length clause.now)) }
        ensures literals { OnOk result (self.new.literals.now ≡ behind self.old.used clause.now self.old.literals.now) }
        ensures pairs { OnOk result (self.new.pairs.now ≡ slice_set self.old.pairs.now self.old.count (self.old.used, length clause.now)) }
        ensures after { ⟦<TableSink<'a> as Sink>⟧.state self.new ≡ (if is_ok result then added (⟦<TableSink<'a> as Sink>⟧.state self.old) clause.now else ⟦<TableSink<'a> as Sink>⟧.state self.old) }
        ensures appended { ⟦<TableSink<'a> as Formula>⟧.clauses self.new ≡ (if is_ok result then ⟦<TableSink<'a> as Formula>⟧.clauses self.old ++ (clause.now ∷ []) else ⟦<TableSink<'a> as Formula>⟧.clauses self.old) }
        ensures lent { (self.new.literals.ghost_name ≡ self.old.literals.ghost_name) × (self.new.pairs.ghost_name ≡ self.old.pairs.ghost_name) }
        ensures same { OnErr result (self.new ≡ self.old) }
    {
        check_form(clause, TOP, LONGEST)?;
        let (entries, units) = self.left();
        if entries == 0 || (units as usize) < clause.len() {
            return Err(SinkRefusal::Room);
        }
        store(self.literals, self.used, clause);
        let pair = (self.used as u32, clause.len() as u32);
        list_pair(self.pairs, self.count, pair);
        self.used += clause.len();
        self.count += 1;
        Ok(())
    }

    // How many clauses and how many literals are stored. After any use the buffers hold the clauses'
    // literals, one behind the other, and the offset and length of each.
    pub fn stored(&self) -> (usize, usize)
        ensures counts { (result.0 ≡ self.now.count) × (result.1 ≡ self.now.used) }
        ensures laid_out { LaidOut (take self.now.count self.now.pairs.now) (take self.now.used self.now.literals.now) }
    {
        (self.count, self.used)
    }
}

impl<'a> Formula for TableSink<'a> {
    ghost clauses = { λ s. cut (take s.count s.pairs.now) (take s.used s.literals.now) };

    fn count(&mut self) -> u32 {
        self.count as u32
    }

    #[tactic(auto, using(crate::proofs::Tables::lengths_told))]
    fn length(&mut self, k: u32) -> Option<u32> {
        self.pair(k).map(|(_, n)| n)
    }

    #[tactic(auto, using(crate::proofs::Tables::literal_at, crate::proofs::Tables::no_clause, crate::proofs::Tables::no_literal))]
    fn literal(&mut self, k: u32, j: u32) -> Option<i32> {
        let (at, n) = self.pair(k)?;
        if j >= n {
            return None;
        }
        self.run().get(at as usize + j as usize).copied()
    }
}

impl<'a> Sink for TableSink<'a> {
    ghost state = { λ s. table_state s.pairs.now s.count s.literals.now s.used };

    ghost names = { λ s. s.literals.ghost_name ∷ (s.pairs.ghost_name ∷ []) };

    #[tactic(auto, using(crate::proofs::Tables::read_as_they_are))]
    fn limits(&mut self) -> (u32, u32) {
        (TOP, LONGEST)
    }

    fn room(&mut self) -> (u32, u32) {
        self.left()
    }

    fn cost(&mut self, clause: &[i32]) -> u32 {
        match check_form(clause, TOP, LONGEST) {
            Ok(()) => clause.len() as u32,
            Err(_) => 0,
        }
    }

    fn add(&mut self, clause: &[i32]) -> Result<(), SinkRefusal> {
        self.append(clause)
    }
}
