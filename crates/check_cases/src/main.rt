// Both checks on the cases of operation_cases' table, which tools/case_input turns into rows of standard input: with lent buffers of given sizes, and on
// the bench cases of 01 beside plain means. Prints a line for each row, with its name and the answer.
#![tactic(auto)]

mod checking;
mod checks;
mod comparing;
mod kept;
mod plain_count;
mod plain_search;
mod shape;

use crate::checks::check_with_buffers;
use crate::comparing::compare;
use row_cases::reading::{print_field, read_byte, read_slice};
use std::io;
use std::io::Read;

// What a row asks for.
#[derive(Clone, Copy)]
enum Operation {
    Check,
    Compare,
}

impl Operation {
    // The operation with this number. None has the number 0, and every number above 1 is the last one's.
    fn numbered(number: u8) -> Option<Operation> {
        match number {
            0 => None,
            1 => Some(Operation::Check),
            _ => Some(Operation::Compare),
        }
    }
}

// Calls the operation, which reads its own arguments and prints the answer.
fn call(
    rt: &impl Print,
    rows: &mut impl Read,
    operation: Operation,
    file: &[u8],
) -> io::Result<()> {
    match operation {
        Operation::Check => check_with_buffers(rt, rows, file),
        Operation::Compare => compare(rt, rows, file),
    }
}

// One row: a name, a file, and what the operation reads itself.
fn one_row(rt: &impl Print, rows: &mut impl Read, operation: Operation) -> io::Result<()> {
    print_field(rt, rows)?;
    let mut file = [0u8; 65536];
    let file = read_slice(rows, &mut file)?;
    call(rt, rows, operation, file)?;
    println!(rt)
}

// The rows end with the number 0, which comes after the last byte too. They are counted, since nothing says that an input ends.
fn main(rt: HostRuntime) -> io::Result<()> {
    let mut rows = rt.stdin();
    for _ in 0..100000 {
        let Some(operation) = Operation::numbered(read_byte(&mut rows)?) else {
            break;
        };
        one_row(&rt, &mut rows, operation)?;
    }
    Ok(())
}
