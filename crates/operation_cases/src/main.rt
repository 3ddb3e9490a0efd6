// The operations, but for the checks, on the cases of cases.txt, which tools/case_input turns into rows of standard input: a line for each row, with
// its name and the operation's answer.
#![tactic(auto)]

mod cabinets;
mod cells;
mod jobs;
mod runs;
mod sums;

use crate::cabinets::{ask, begin, report, state_of};
use crate::cells::fill;
use crate::jobs::{compare_bytes, read};
use crate::runs::{replay, run, walk};
use crate::sums::sum;
use lamp_line::Cabinet;
use row_cases::reading::{print_field, read_byte, read_slice};
use std::io;
use std::io::Read;

// What a row asks for.
#[derive(Clone, Copy)]
enum Operation {
    Read,
    Run,
    Walk,
    Replay,
    Fill,
    Sum,
    CompareBytes,
    Begin,
    Ask,
    Report,
}

impl Operation {
    // The operation with this number. None has the number 0, and every number above 9 is the last one's.
    fn numbered(number: u8) -> Option<Operation> {
        match number {
            0 => None,
            1 => Some(Operation::Read),
            2 => Some(Operation::Run),
            3 => Some(Operation::Walk),
            4 => Some(Operation::Replay),
            5 => Some(Operation::Fill),
            6 => Some(Operation::Sum),
            7 => Some(Operation::CompareBytes),
            8 => Some(Operation::Begin),
            9 => Some(Operation::Ask),
            _ => Some(Operation::Report),
        }
    }
}

// Calls the operation, which reads its own arguments and prints its answer. The cabinet's calls are handed the state that the call before has left,
// and answer the one that they leave; the other operations leave it as it is.
fn call(
    rt: &impl Print,
    rows: &mut impl Read,
    operation: Operation,
    file: &[u8],
    list: &[u8],
    cabinet: Cabinet,
) -> io::Result<Cabinet> {
    match operation {
        Operation::Read => read(rt, file)?,
        Operation::Run => run(rt, rows, file, list)?,
        Operation::Walk => walk(rt, rows, file)?,
        Operation::Replay => replay(rt, file, list)?,
        Operation::Fill => fill(rt, rows, file)?,
        Operation::Sum => sum(rt, rows, list)?,
        Operation::CompareBytes => compare_bytes(rt, rows, file)?,
        Operation::Begin => return begin(rt, rows, file),
        Operation::Ask => return ask(rt, rows, file, cabinet),
        Operation::Report => return report(rt, rows, file, cabinet),
    }
    Ok(cabinet)
}

// One row: a name, a file, a list of bytes, and what the operation reads itself. Answers the state of the cabinet.
fn one_row(
    rt: &impl Print,
    rows: &mut impl Read,
    operation: Operation,
    cabinet: Cabinet,
) -> io::Result<Cabinet> {
    print_field(rt, rows)?;
    let mut file = [0u8; 65536];
    let file = read_slice(rows, &mut file)?;
    let mut list = [0u8; 65536];
    let list = read_slice(rows, &mut list)?;
    let next = call(rt, rows, operation, file, list, cabinet)?;
    println!(rt)?;
    Ok(next)
}

// The rows end with the number 0, which comes after the last byte too. They are counted, since nothing says that an input ends.
fn main(rt: HostRuntime) -> io::Result<()> {
    let mut rows = rt.stdin();
    let mut cabinet = state_of(0, 0);
    for _ in 0..100000 {
        let Some(operation) = Operation::numbered(read_byte(&mut rows)?) else {
            break;
        };
        cabinet = one_row(&rt, &mut rows, operation, cabinet)?;
    }
    Ok(())
}
