// The verdict on measured valves. The caller lends the lists for the answer and the marks that the
// judge works with; it allocates nothing, and its work grows with the square of the nodes.
ghost use Rattle.std.specs.Prelude.{◌≡◌, ℕ, ◌<◌, ◌≤◌, length, MatchBool, replicate, slice_index};
ghost use Rattle.bounded.specs.Lists.{Replaced, entries, room};
ghost use Rattle.judge.specs.Marks.{Cleared};
ghost use Rattle.judge.specs.Rightness.{RightAnswer};
ghost use Rattle.judge.specs.Values.{first_unknown, opens};
ghost use Rattle.judge.specs.Verdict.{Enough, Listed, after, answered, clears, found, ring_pipes, verdict_answer};
ghost use Rattle.judge.specs.declared.refusal.VerdictRefusal.TheVariants.{UnknownValve};
ghost use Rattle.sheet.specs.View.{view};
ghost use Rattle.std.specs.Option.{option_map};

use crate::marks::Marks;
use crate::open::OpenPipes;
use crate::placing::place_nodes;
use crate::refusal::VerdictRefusal;
use crate::walking::find_ring;
use bounded::Bounded;
use sheet::pipe::Pipe;
use sheet::place::Sheet;

// What is found: every node in an order along the open pipes, or a ring of open pipes.
#[derive(Clone, Copy, PartialEq, Eq, Debug)]
pub enum Verdict {
    Order,
    Ring,
}

// Lists the pipes of a ring: from each node to the next, and from the last to the first.
fn list_pipes(sheet: &Sheet, ring: &[u32], pipes: &mut Bounded<'_, Pipe>)
    requires few { length ring.now ≤ length (room pipes.old) }
    requires drawn { (k : ℕ) → k < length ring.now → 0 < (view sheet.now).pipe (slice_index ring.now k) (after ring.now k) }
    ensures { Replaced (ring_pipes (view sheet.now).pipe ring.now) pipes.old pipes.new }
{
    pipes.clear();
    for (&from, &to) in ring.iter().zip(ring.iter().skip(1).chain(ring)) {
        let valve = sheet.valve(from, to).unwrap();
        pipes.push(Pipe { from, to, valve }).unwrap();
    }
}

// The verdict where there are values and places enough. The marks are cleared before nodes are
// placed, and again however it ends.
fn judge_marked(
    sheet: &Sheet,
    values: &[u8],
    nodes: &mut Bounded<'_, u32>,
    pipes: &mut Bounded<'_, Pipe>,
    marks: &mut [u8],
) -> Result<Verdict, VerdictRefusal>
    requires enough { Enough (view sheet.now) values.now (length (room nodes.old)) (length (room pipes.old)) (length marks.old) }
    ensures answer { result ≡ answered (option_map UnknownValve (first_unknown (view sheet.now).nodes (view sheet.now).pipe values.now)) (found (opens (view sheet.now).pipe values.now) (view sheet.now).nodes) }
    ensures lists { Listed (view sheet.now) values.now result nodes.old nodes.new pipes.old pipes.new }
    ensures nodes_lent { nodes.new.places.ghost_name ≡ nodes.old.places.ghost_name }
    ensures pipes_lent { pipes.new.places.ghost_name ≡ pipes.old.places.ghost_name }
    ensures marks { marks.new ≡ replicate (length marks.old) 0 }
{
    let guard = Marks { bytes: marks };
    guard.bytes.fill(0);
    let flow = OpenPipes { sheet, values };
    if let Some(valve) = flow.first_unknown() {
        return Err(VerdictRefusal::UnknownValve(valve));
    }
    let mut places = [0; 64];
    let order = place_nodes(&flow, guard.bytes, &mut places);
    let mut path = [0; 65];
    match find_ring(&flow, guard.bytes, &mut path) {
        Some(ring) => {
            nodes.replace(ring).unwrap();
            list_pipes(sheet, ring, pipes);
            Ok(Verdict::Ring)
        }
        None => {
            nodes.replace(order).unwrap();
            pipes.clear();
            Ok(Verdict::Order)
        }
    }
}

// The verdict on value bytes. The lists get the order and no pipes, or the ring's nodes and pipes;
// a refusal leaves them. The marks may hold anything.
pub fn judge_valves(
    sheet: &Sheet,
    values: &[u8],
    nodes: &mut Bounded<'_, u32>,
    pipes: &mut Bounded<'_, Pipe>,
    marks: &mut [u8],
) -> Result<Verdict, VerdictRefusal>
    ensures answer { result ≡ verdict_answer (view sheet.now) values.now (length (room nodes.old)) (length (room pipes.old)) (length marks.old) }
    ensures lists { Listed (view sheet.now) values.now result nodes.old nodes.new pipes.old pipes.new }
    ensures nodes_lent { nodes.new.places.ghost_name ≡ nodes.old.places.ghost_name }
    ensures pipes_lent { pipes.new.places.ghost_name ≡ pipes.old.places.ghost_name }
    ensures right { RightAnswer (view sheet.now) values.now result (entries nodes.new) (entries pipes.new) }
    ensures marks { MatchBool (clears result) (Cleared (view sheet.now).nodes marks.old marks.new) (marks.new ≡ marks.old) }
{
    let n = sheet.nodes() as usize;
    if values.len() < sheet.valves() as usize {
        return Err(VerdictRefusal::TooFewValues);
    }
    if nodes.capacity() < n || pipes.capacity() < n || marks.len() < n {
        return Err(VerdictRefusal::TooFewPlaces);
    }
    judge_marked(sheet, values, nodes, pipes, &mut marks[..n])
}
