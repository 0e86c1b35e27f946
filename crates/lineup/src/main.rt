// A guided run on a small mill sheet. Four pipes enter the machine chest, node 0: from the hardwood
// pump 1, the softwood pump 2, the broke chest 3 and the saveall 4. The pulper 5 feeds both pumps,
// and the machine chest overflows into the saveall. Each action is printed as it is taken, from what
// the call answered.
#![tactic(auto)]

use bounded::Bounded;
use cnf::formula::Formula;
use cnf::sink::Sink;
use judge::report::Report;
use judge::verdict::judge_valves;
use sheet::pipe::Pipe;
use sheet::place::Sheet;
use sheet::refusal::Refused;
use sheet::token::DrawingToken;
use sinks::guard::Guard;
use sinks::offset::Offset;
use sinks::table::TableSink;
use std::io;

// The pipes to draw, each from a node to a node on a valve, with the slips of the pencil among them.
const PIPES: [Pipe; 11] = [
    Pipe {
        from: 1,
        to: 0,
        valve: 1,
    },
    Pipe {
        from: 2,
        to: 0,
        valve: 2,
    },
    Pipe {
        from: 3,
        to: 0,
        valve: 3,
    },
    Pipe {
        from: 4,
        to: 0,
        valve: 4,
    },
    Pipe {
        from: 0,
        to: 0,
        valve: 4,
    },
    Pipe {
        from: 5,
        to: 1,
        valve: 5,
    },
    Pipe {
        from: 5,
        to: 2,
        valve: 6,
    },
    Pipe {
        from: 5,
        to: 6,
        valve: 6,
    },
    Pipe {
        from: 0,
        to: 4,
        valve: 8,
    },
    Pipe {
        from: 0,
        to: 4,
        valve: 7,
    },
    Pipe {
        from: 4,
        to: 0,
        valve: 7,
    },
];

// Draws a pipe, and prints it as the sheet has it then, or why it was refused.
fn draw(
    rt: &HostRuntime,
    sheet: &mut Sheet,
    token: DrawingToken,
    pipe: Pipe,
) -> io::Result<DrawingToken> {
    match sheet.draw(token, pipe) {
        Ok(token) => {
            if let Some(valve) = sheet.valve(pipe.from, pipe.to) {
                let drawn = Pipe { valve, ..pipe };
                println!(rt; "{drawn} drawn")?;
            }
            Ok(token)
        }
        Err(Refused { token, refusal }) => {
            println!(rt; "{pipe} {refusal}")?;
            Ok(token)
        }
    }
}

// Judges one reading of the valves, and prints it with the verdict. (No plainer as one with that of
// the verdicts, which prints no values: they would be handed over as a text to be made first.)
fn judge(rt: &HostRuntime, sheet: &Sheet, values: &[u8]) -> io::Result<()> {
    let mut node_places = [0; 6];
    let mut pipe_places = [Pipe::default(); 6];
    let mut nodes = Bounded::new(&mut node_places);
    let mut pipes = Bounded::new(&mut pipe_places);
    let answer = judge_valves(sheet, values, &mut nodes, &mut pipes, &mut [0; 6]);
    let report = Report {
        answer,
        nodes: &nodes,
        pipes: &pipes,
    };
    println!(rt; "valves {values:?}: {report}")
}

// Adds a clause, and prints it with what the sink said.
fn add<S: Sink>(rt: &HostRuntime, sink: &mut S, clause: &[i32]) -> io::Result<()> {
    match sink.add(clause) {
        Ok(()) => println!(rt; "clause {clause:?} taken"),
        Err(refusal) => println!(rt; "clause {clause:?} {refusal}"),
    }
}

// Prints clause k as a formula reads it. (No plainer as one with that of the encodings,
// which names no formula: the line to print would be a closure, and longer than this.)
fn tell_clause<F: Formula>(
    rt: &HostRuntime,
    name: &str,
    formula: &mut F,
    k: u32,
) -> io::Result<()> {
    let mut buffer = [0; 256];
    let n = formula.copy_literals(k, 0, &mut buffer);
    let clause = &buffer[0..n];
    println!(rt; "{name} reads {clause:?}")
}

// Prints every clause as a formula reads it.
fn tell<F: Formula>(rt: &HostRuntime, name: &str, formula: &mut F) -> io::Result<()> {
    for k in 0..formula.count() {
        tell_clause(rt, name, formula, k)?;
    }
    Ok(())
}

// Adds clauses through a guard with the literal 8, and prints what it reads.
fn add_guarded<S: Sink>(rt: &HostRuntime, below: &mut S) -> io::Result<()> {
    let mut guard = Guard::new(below, 8);
    add(rt, &mut guard, &[-4, -7])?;
    add(rt, &mut guard, &[])?;
    add(rt, &mut guard, &[4, 0])?;
    add(rt, &mut guard, &[-4])?;
    tell(rt, "guard", &mut guard)
}

// Adds them through a guard over an offset by 100, and prints what the offset reads.
fn add_shifted<S: Sink>(rt: &HostRuntime, below: &mut S) -> io::Result<()> {
    let mut offset = Offset::new(below, 100);
    add_guarded(rt, &mut offset)?;
    tell(rt, "offset", &mut offset)
}

// The planner's clause that valves 4 and 7 are not open together, on its way through a guard and an
// offset to a table with four places for literals, and clauses that do not get there.
fn add_to_table(rt: &HostRuntime) -> io::Result<()> {
    let mut literals = [0; 4];
    let mut pairs = [(0, 0); 2];
    let mut table = TableSink::new(&mut literals, &mut pairs);
    add_shifted(rt, &mut table)?;
    tell(rt, "table", &mut table)
}

fn main(rt: HostRuntime) -> io::Result<()> {
    println!(rt; "A line-up for the machine chest")?;
    let mut sheet = Sheet::unmade();
    let mut token = match sheet.make(7, 6, 7) {
        Ok(token) => token,
        Err(refusal) => return println!(rt; "{refusal}"),
    };
    let number = sheet.number();
    let nodes = sheet.nodes();
    let valves = sheet.valves();
    println!(rt; "sheet {number} made: {nodes} nodes, {valves} valves")?;
    for pipe in PIPES {
        token = draw(&rt, &mut sheet, token, pipe)?;
    }
    judge(&rt, &sheet, &[1, 1, 1, 2, 1, 1, 1])?;
    judge(&rt, &sheet, &[1, 1, 1, 1, 1, 1, 1])?;
    judge(&rt, &sheet, &[2, 2, 2, 1, 2, 2, 1])?;
    judge(&rt, &sheet, &[1, 1, 0, 2, 1, 1, 1])?;
    judge(&rt, &sheet, &[1, 1, 1, 2, 1, 1])?;
    add_to_table(&rt)
}
