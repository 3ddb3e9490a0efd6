// Runs, walks at one lamp, and replays.
use lamp_line::{Ending, Pair, ProgramState, WorldState};
use lamp_walk::Walked;
use line_run::Ran;
use log_replay::ReplayError;
use row_cases::printing::print_refused;
use row_cases::reading::{read_byte, read_u32};
use std::io;
use std::io::Read;

// An ending, with the number of counted steps before it.
fn print_ended(rt: &impl Print, ending: Ending, steps: u32) -> io::Result<()> {
    match ending {
        Ending::Goal => print!(rt; " goal with {steps}"),
        Ending::Failure(kind) => print!(rt; " failure {} with {steps}", kind.number()),
    }
}

// Runs a line: the start, the kind of end and the limit are read.
pub fn run(rt: &impl Print, rows: &mut impl Read, file: &[u8], line: &[u8]) -> io::Result<()> {
    let start = WorldState(read_byte(rows)?);
    let end = read_byte(rows)?;
    match line_run::run_line(file, start, line, end, read_u32(rows)?) {
        Ok(Ran::Ended(ending, steps)) => print_ended(rt, ending, steps),
        Ok(Ran::Stopped(limit)) => print!(rt; " stopped {limit}"),
        Err(refusal) => print_refused(rt, refusal),
    }
}

// Walks from a pair at one lamp: the pair and the column are read. The pair on arriving at the next lamp or at the line's end is printed with the
// number of steps.
pub fn walk(rt: &impl Print, rows: &mut impl Read, file: &[u8]) -> io::Result<()> {
    let pair = Pair {
        state: ProgramState(read_byte(rows)?),
        world: WorldState(read_byte(rows)?),
    };
    match lamp_walk::walk_lamp(file, pair, read_byte(rows)?) {
        Ok(Walked::Ended(ending, steps)) => print_ended(rt, ending, steps),
        Ok(Walked::Arrived(next, steps)) => {
            print!(rt; " arrived {} {} with {steps}", next.state.0, next.world.0)
        }
        Err(refusal) => print_refused(rt, refusal),
    }
}

// Replays a log.
pub fn replay(rt: &impl Print, file: &[u8], log: &[u8]) -> io::Result<()> {
    match log_replay::replay_log(file, log) {
        Ok(()) => print!(rt; " possible"),
        Err(ReplayError::ImpossibleAt(place)) => print!(rt; " impossible at {place}"),
        Err(ReplayError::Refused(refusal)) => print_refused(rt, refusal),
    }
}
