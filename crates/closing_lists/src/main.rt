// The clauses of the three closings on many small graphs that a fixed sequence of numbers draws, and
// on the largest graph. What it must print was worked out by tests/closing_lists.py, straight from
// the rules and without this library.
#![tactic(auto)]

ghost use Rattle.std.specs.Prelude.{◌<◌};

use bounded::Bounded;
use closings::arc::Arc;
use closings::closing::Closing;
use closings::named::NamedClosing;
use closings::remaining::Remaining;
use std::io;
use trials::Sequence;

// Lists those pairs of the nodes that are chosen. (There is room: 4,096 places hold all pairs of 64 nodes.
// Nothing is allocated, so that no run ends for want of memory.)
fn draw<F: FnMut(u32, u32) -> bool>(
    pairs: &mut Bounded<'_, (u32, u32)>,
    nodes: u32,
    mut is_chosen: F,
)
    requires { F.IsAlwaysCallable is_chosen }
{
    for from in 0..nodes {
        for to in 0..nodes {
            if is_chosen(from, to) {
                let _ = pairs.push((from, to));
            }
        }
    }
}

// Lists the pairs as arcs, each on the next of the variables.
fn number<I: Iterator<Item = u32> + Drop>(
    arcs: &mut Bounded<'_, Arc>,
    pairs: &[(u32, u32)],
    variables: I,
)
    requires { I.can_next variables }
{
    for (&(from, to), variable) in pairs.iter().zip(variables) {
        let _ = arcs.push(Arc { from, to, variable });
    }
}

// Prints clause k of a closing. (Other programs print a formula's: a closing is asked with its graph.)
fn print_clause<C: Closing>(
    rt: &HostRuntime,
    closing: &C,
    x: &Remaining,
    k: u32,
) -> io::Result<()> {
    let mut buffer = [0; 64];
    let n = closing.copy_literals(x, k, 0, &mut buffer);
    let clause = &buffer[0..n];
    println!(rt; "{clause:?}")
}

// Prints how much each closing adds, and every clause, or every so many-th.
fn print_closings(rt: &HostRuntime, x: &Remaining, stride: usize) -> io::Result<()>
    requires { 0 < stride }
{
    for closing in NamedClosing::ALL {
        let added = closing.added(x);
        let count = closing.count(x);
        println!(rt; "{closing} {added} {count}")?;
        for k in (0..count).step_by(stride) {
            print_clause(rt, &closing, x, k)?;
        }
        if closing.length(x, count).is_some() {
            println!(rt; "a clause past the last")?;
        }
    }
    Ok(())
}

// Prints the closings of the graph of these nodes and arcs with that first free variable.
fn print_graph(
    rt: &HostRuntime,
    nodes: u32,
    arcs: &[Arc],
    first: u32,
    stride: usize,
) -> io::Result<()>
    requires { 0 < stride }
{
    match Remaining::checked(nodes, arcs, first) {
        Some(x) => print_closings(rt, &x, stride),
        None => println!(rt; "not fit"),
    }
}

fn main(rt: HostRuntime) -> io::Result<()> {
    let mut numbers = Sequence { state: 9 };
    let mut pair_places = [(0, 0); 4096];
    let mut arc_places = [Arc::default(); 4096];
    let mut pairs = Bounded::new(&mut pair_places);
    let mut arcs = Bounded::new(&mut arc_places);
    for _ in 0..40 {
        let nodes = numbers.below(6);
        pairs.clear();
        draw(&mut pairs, nodes, |from, to| {
            numbers.below(3) == 0 && from != to
        });
        let last = u32::try_from(pairs.len()).unwrap_or(u32::MAX);
        arcs.clear();
        if numbers.below(2) == 1 {
            // the variables fall while the pairs rise
            number(&mut arcs, pairs.as_slice(), (1..=last).rev());
        } else {
            number(&mut arcs, pairs.as_slice(), 1..=last);
        }
        let gap = numbers.below(3).saturating_add(1);
        println!(rt; "graph {nodes}")?;
        print_graph(&rt, nodes, arcs.as_slice(), last.saturating_add(gap), 1)?;
    }
    // the largest graph, whose arcs take the variables below the first free one
    pairs.clear();
    draw(&mut pairs, 64, |from, to| from != to);
    let first = 64 * 63 + 1;
    arcs.clear();
    number(&mut arcs, pairs.as_slice(), 1..first);
    print_graph(&rt, 64, arcs.as_slice(), first, 9_973)
}
