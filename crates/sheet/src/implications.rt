// What start and elimination write: at each pair of nodes, ascending, whose premises are all there,
// the clause that the premises imply the arc of the pair. The pairs and the arcs are planned over a
// copy of the arcs first, so that a sink that cannot take all the clauses leaves the sheet as it
// was.
ghost use Rattle.std.specs.Prelude.{◌≡◌, ℕ, ◌+◌, ◌^◌, ◌<◌, ◌≤◌, true, List, [], map, length, is_some, IfOk, IfSome, OnErr, slice_get};
ghost use Rattle.bounded.specs.Lists.{entries, room};
ghost use Rattle.cnf.specs.Writing.{write_refusal};
ghost use Rattle.sheet.specs.Implications.{are_there, has_arc, has_premises, implication, implications, pairs_with, planned};
ghost use Rattle.sheet.specs.Plans.{Small, arcs_in, listed};
ghost use Rattle.sheet.specs.Refusals.{clauses_after, sink_after};
ghost use Rattle.sheet.specs.Tables.{Below, table};
ghost use Rattle.sheet.specs.View.{arcs_of, view};
ghost use Rattle.std.specs.List.{list_all};
ghost use Rattle.std.specs.Result.{result_err};

use crate::arcs::Arcs;
use crate::place::Sheet;
use bounded::Bounded;
use cnf::formula::Formula;
use cnf::refusal::SinkRefusal;
use cnf::sink::Sink;
use cnf::writing::write_all;

// The premises of a clause: one variable or two. (Not `[u32; N]`: each call of a rule would then owe
// that N numbers fit in memory.)
#[derive(Clone, Copy)]
pub(crate) enum Body {
    One(u32),
    Two(u32, u32),
}

impl Body {
    // How many premises there are.
    fn len(self) -> u32
        ensures { result ≡ length (listed self) }
    {
        match self {
            Body::One(_) => 1,
            Body::Two(_, _) => 2,
        }
    }

    // Premise j, or none past the last.
    fn premise(self, j: u32) -> Option<u32>
        ensures { result ≡ slice_get (listed self) j }
    {
        match (self, j) {
            (Body::One(v) | Body::Two(v, _), 0) => Some(v),
            (Body::Two(_, w), 1) => Some(w),
            _ => None,
        }
    }
}

// Which premises a clause has at each pair of nodes.
pub(crate) trait Rule {
    // the variables, 0 for one that is not there, as in the sheet's view
    ghost premises: { Self → ℕ → ℕ → List ℕ };

    // The premises at the pair (u, w), or none where one of them is not there.
    fn body(&self, u: u32, w: u32) -> Option<Body>
        ensures there { is_some result ≡ are_there (premises self.now u w) }
        ensures value { IfSome result (λ b. listed b ≡ premises self.now u w) }
        ensures small { IfSome result (λ b. Small (listed b)) };
}

// Plans the clauses of a rule: lists the pairs of nodes below `nodes` whose premises are there,
// ascending, and gives each its arc.
fn plan<R: Rule>(rule: &R, nodes: u32, arcs: &mut Arcs, pairs: &mut Bounded<'_, (u32, u32)>)
    requires nodes { nodes ≤ 64 }
    requires variables { arcs.old.next + 4096 < 2 ^ 31 }
    requires places { (entries pairs.old ≡ []) × (4096 ≤ length (room pairs.old)) }
    ensures pairs { entries pairs.new ≡ pairs_with (R.Rule.premises rule.now) nodes }
    ensures arcs { arcs_in arcs.new ≡ planned (R.Rule.premises rule.now) nodes (arcs_in arcs.old) }
    ensures next { arcs.new.next ≤ arcs.old.next + 4096 }
    ensures few { length (entries pairs.new) ≤ 4096 }
{
    for u in 0..nodes {
        for w in 0..nodes {
            if rule.body(u, w).is_some() {
                let _ = pairs.push((u, w));
                arcs.give(u, w);
            }
        }
    }
}

// The clauses that a rule gives at the pairs of a plan, on the planned arcs.
#[derive(Drop)]
pub(crate) struct Planned<'p, R: Rule> {
    pub(crate) rule: &'p R,
    pub(crate) pairs: &'p [(u32, u32)],
    pub(crate) arcs: &'p Arcs,
    ghost pairs_few: { length pairs.now ≤ 4096 },
    ghost premises_there: { list_all (has_premises (R.Rule.premises rule.now)) pairs.now ≡ true },
    ghost arcs_there: { list_all (has_arc (table arcs.now.variables.numbers)) pairs.now ≡ true },
    ghost arcs_small: { Below (2 ^ 31) (table arcs.now.variables.numbers) },
}

impl<'p, R: Rule> Formula for Planned<'p, R> {
    ghost clauses = { λ f. map (λ p. implication (R.Rule.premises f.rule.now p.0 p.1) (table f.arcs.now.variables.numbers) p) f.pairs.now };

    fn count(&mut self) -> u32 {
        self.pairs.len() as u32
    }

    fn length(&mut self, k: u32) -> Option<u32> {
        let (u, w) = *self.pairs.get(k as usize)?;
        let premises = self.rule.body(u, w)?.len();
        if u == w {
            Some(premises)
        } else {
            Some(premises + 1)
        }
    }

    // (A cast for each of two signs: a closing's variable bears its bound from its grid, and here the
    // bounds come from the premises and the table, so that each would be made and used in one line.)
    fn literal(&mut self, k: u32, j: u32) -> Option<i32> {
        let (u, w) = *self.pairs.get(k as usize)?;
        let body = self.rule.body(u, w)?;
        if let Some(variable) = body.premise(j) {
            return Some(-(variable as i32));
        }
        if u == w || j != body.len() {
            return None;
        }
        let variable = self.arcs.variables.get(u, w)?;
        Some(variable as i32)
    }
}

// Writes the clauses of a rule to a sink, all or none, and gives the arcs as they are then. (What this
// and the four calls above it say of the sink stays clause by clause: one definition would have to be
// given the state, the clauses and the names of S before and after, and would be no shorter.)
pub(crate) fn write_planned<R: Rule, S: Sink>(
    sheet: &Sheet,
    rule: &R,
    sink: &mut S,
) -> Result<Arcs, SinkRefusal>
    ensures answer { result_err result ≡ write_refusal (S.Sink.state sink.old) (implications (R.Rule.premises rule.now) (view sheet.now).nodes (arcs_of (view sheet.now))) }
    ensures after { S.Sink.state sink.new ≡ sink_after (result_err result) (S.Sink.state sink.old) (implications (R.Rule.premises rule.now) (view sheet.now).nodes (arcs_of (view sheet.now))) }
    ensures appended { S.Formula.clauses sink.new ≡ clauses_after (result_err result) (S.Formula.clauses sink.old) (implications (R.Rule.premises rule.now) (view sheet.now).nodes (arcs_of (view sheet.now))) }
    ensures lent { S.Sink.names sink.new ≡ S.Sink.names sink.old }
    ensures kept { OnErr result (sink.new ≡ sink.old) }
    ensures arcs { IfOk result (λ a. arcs_in a ≡ planned (R.Rule.premises rule.now) (view sheet.now).nodes (arcs_of (view sheet.now))) }
    ensures next { IfOk result (λ a. a.next ≤ sheet.now.arcs.next + 4096) }
{
    let mut places = [(0, 0); 4096];
    let mut pairs = Bounded::new(&mut places);
    let mut arcs = sheet.arcs;
    plan(rule, sheet.nodes, &mut arcs, &mut pairs);
    let mut planned = Planned {
        rule,
        pairs: pairs.as_slice(),
        arcs: &arcs,
    };
    write_all(&mut planned, sink)?;
    Ok(arcs)
}
