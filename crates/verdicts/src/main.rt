// Verdicts on many small sheets that a fixed sequence of numbers draws. What it must print was
// worked out by tests/verdicts.py, straight from the rules and without this library.
#![tactic(auto)]

use bounded::Bounded;
use judge::report::Report;
use judge::verdict::judge_valves;
use sheet::pipe::Pipe;
use sheet::place::Sheet;
use std::{array, io};
use trials::{Sequence, draw_some};

// Values of ten valves: mostly open, some shut, a few unknown.
fn read_valves(numbers: &mut Sequence) -> [u8; 10] {
    array::from_fn(|_| match numbers.below(24) {
        0 => 0,
        1..=5 => 2,
        _ => 1,
    })
}

// Prints the verdict on a sheet and some values. (No plainer as one with that of the
// line-up, which prints the values before it: they would be handed over as a text to be made first.)
fn print_verdict(rt: &HostRuntime, sheet: &Sheet, values: &[u8]) -> io::Result<()> {
    let mut node_places = [0; 8];
    let mut pipe_places = [Pipe::default(); 8];
    let mut nodes = Bounded::new(&mut node_places);
    let mut pipes = Bounded::new(&mut pipe_places);
    let answer = judge_valves(sheet, values, &mut nodes, &mut pipes, &mut [7; 8]);
    let report = Report {
        answer,
        nodes: &nodes,
        pipes: &pipes,
    };
    println!(rt; "{report}")
}

fn main(rt: HostRuntime) -> io::Result<()> {
    let mut numbers = Sequence { state: 1 };
    let mut sheet = Sheet::unmade();
    for case in 0..400 {
        let nodes = numbers.below(8).saturating_add(1);
        let valves = numbers.below(10).saturating_add(1);
        if let Ok(token) = sheet.make(case, nodes, valves) {
            let _ = draw_some(&mut sheet, token, &mut numbers, nodes.saturating_mul(3));
            let values = read_valves(&mut numbers);
            print_verdict(&rt, &sheet, &values)?;
        }
    }
    Ok(())
}
