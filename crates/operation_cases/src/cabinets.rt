// The cabinet's calls. Each goes on from the state that the call before has left, or from one that its row gives.
use lamp_line::{Cabinet, ProgramState};
use row_cases::printing::print_refused;
use row_cases::reading::{read_byte, read_u16};
use std::io;
use std::io::Read;

// The cabinet's state with this program state and this number of lamps left.
pub fn state_of(state: u8, lamps: u16) -> Cabinet {
    Cabinet {
        state: ProgramState(state),
        lamps,
    }
}

// The program state and the lamps left.
fn print_state(rt: &impl Print, cabinet: Cabinet) -> io::Result<()> {
    print!(rt; " {} {}", cabinet.state.0, cabinet.lamps)
}

// The state that a call is handed, which is printed: that of the call before, unless the row gives one.
fn handed(rt: &impl Print, rows: &mut impl Read, before: Cabinet) -> io::Result<Cabinet> {
    let cabinet = match read_byte(rows)? {
        1 => state_of(read_byte(rows)?, read_u16(rows)?),
        _ => before,
    };
    print!(rt; " at")?;
    print_state(rt, cabinet)?;
    print!(rt; ":")?;
    Ok(cabinet)
}

// Begins with a count of lamps, which is read. After a refusal the state is 0 with no lamps.
pub fn begin(rt: &impl Print, rows: &mut impl Read, file: &[u8]) -> io::Result<Cabinet> {
    match cabinet::begin(file, read_u16(rows)?) {
        Ok(cabinet) => {
            print_state(rt, cabinet)?;
            Ok(cabinet)
        }
        Err(refusal) => {
            print_refused(rt, refusal)?;
            Ok(state_of(0, 0))
        }
    }
}

// Asks for the action.
pub fn ask(
    rt: &impl Print,
    rows: &mut impl Read,
    file: &[u8],
    before: Cabinet,
) -> io::Result<Cabinet> {
    let cabinet = handed(rt, rows, before)?;
    match cabinet::next_action(file, cabinet) {
        Ok(Some(action)) => print!(rt; " {action}")?,
        Ok(None) => print!(rt; " ended")?,
        Err(refusal) => print_refused(rt, refusal)?,
    }
    Ok(cabinet)
}

// Reports a result, which is read.
pub fn report(
    rt: &impl Print,
    rows: &mut impl Read,
    file: &[u8],
    before: Cabinet,
) -> io::Result<Cabinet> {
    let cabinet = handed(rt, rows, before)?;
    match cabinet::report(file, cabinet, read_byte(rows)?) {
        Ok(next) => {
            print_state(rt, next)?;
            Ok(next)
        }
        Err(error) => {
            print_refused(rt, error.refusal)?;
            print!(rt; ", state")?;
            print_state(rt, error.state)?;
            Ok(error.state)
        }
    }
}
