// The clauses of many small sheets that a fixed sequence of numbers draws and eliminates. What it
// must print was worked out by tests/encodings.py, straight from the rules and without this library.
#![tactic(auto)]

use cnf::formula::Formula;
use cnf::sink::Sink;
use sheet::place::Sheet;
use sheet::refusal::{Refused, SheetRefusal};
use sheet::token::{ClosingToken, DrawingToken};
use sinks::table::TableSink;
use std::io;
use trials::{Sequence, draw_some};

// The node to try next: mostly the least, now and then any number.
fn choose(sheet: &Sheet, numbers: &mut Sequence) -> u32 {
    let other = numbers.below(sheet.nodes().saturating_add(1));
    if numbers.below(3) == 0 {
        return other;
    }
    sheet.least_node().unwrap_or(other)
}

// Prints a node that was to be eliminated, with the refusal if there was one.
fn print_answer(rt: &HostRuntime, node: u32, refusal: Option<SheetRefusal>) -> io::Result<()> {
    match refusal {
        None => println!(rt; "out {node}"),
        Some(refusal) => println!(rt; "out {node} {refusal}"),
    }
}

// Eliminates some nodes, printing each with its answer, and calls off.
fn eliminate_some<S: Sink>(
    rt: &HostRuntime,
    sheet: &mut Sheet,
    closing: ClosingToken,
    numbers: &mut Sequence,
    sink: &mut S,
) -> io::Result<()> {
    let mut closing = closing;
    let count = numbers.below(sheet.nodes().saturating_add(2));
    for _ in 0..count {
        let node = choose(sheet, numbers);
        let (token, refusal) = match sheet.eliminate(closing, node, sink) {
            Ok(token) => (token, None),
            Err(Refused { token, refusal }) => (token, Some(refusal)),
        };
        if let Err(fault) = print_answer(rt, node, refusal) {
            token.call_off();
            return Err(fault);
        }
        closing = token;
    }
    closing.call_off();
    Ok(())
}

// Prints clause k. (No plainer as one with that of the line-up, which names the formula: the line to
// print would be a closure, and longer than this.)
fn print_clause<F: Formula>(rt: &HostRuntime, formula: &mut F, k: u32) -> io::Result<()> {
    let mut buffer = [0; 4];
    let n = formula.copy_literals(k, 0, &mut buffer);
    let clause = &buffer[0..n];
    println!(rt; "{clause:?}")
}

// Starts a sheet, eliminates nodes, and prints all clauses.
fn encode<S: Sink>(
    rt: &HostRuntime,
    sheet: &mut Sheet,
    token: DrawingToken,
    numbers: &mut Sequence,
    sink: &mut S,
) -> io::Result<()> {
    match sheet.start(token, sink) {
        Ok(closing) => eliminate_some(rt, sheet, closing, numbers, sink)?,
        Err(Refused { token: _, refusal }) => println!(rt; "start {refusal}")?,
    }
    for k in 0..sink.count() {
        print_clause(rt, sink, k)?;
    }
    Ok(())
}

// One sheet, with a table that is too small now and then.
fn case(rt: &HostRuntime, number: u32, numbers: &mut Sequence) -> io::Result<()> {
    let nodes = numbers.below(9).saturating_add(1);
    let valves = numbers.below(12).saturating_add(1);
    let mut sheet = Sheet::unmade();
    let token = match sheet.make(number, nodes, valves) {
        Ok(token) => token,
        Err(refusal) => return println!(rt; "make {refusal}"),
    };
    println!(rt; "sheet {nodes} {valves}")?;
    let token = draw_some(&mut sheet, token, numbers, nodes.saturating_mul(4));
    let mut literals = [0; 600];
    let mut pairs = [(0, 0); 300];
    let room = literals.len().min(numbers.below(200) as usize);
    let mut table = TableSink::new(&mut literals[0..room], &mut pairs);
    encode(rt, &mut sheet, token, numbers, &mut table)?;
    let next = sheet.next_free();
    println!(rt; "next {next}")
}

fn main(rt: HostRuntime) -> io::Result<()> {
    let mut numbers = Sequence { state: 4 };
    for number in 0..150 {
        case(&rt, number, &mut numbers)?;
    }
    Ok(())
}
