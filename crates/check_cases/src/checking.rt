// Both checks as one call, with the answer in one form.
use lamp_line::{FailureKind, Refusal};
use plan_check::{CheckError, NoneUpTo};
use row_cases::printing::{print_bytes, print_refused};
use std::io;

// What a check tells, and what the plain means find: the full check accepts with a number of pairs, and the short one knows up to how many lamps no
// line fails. The lamps of a line that fails are in a buffer.
#[derive(Clone, Copy, PartialEq, Eq)]
pub enum Told {
    Accepted(usize),
    NoneUpTo(usize),
    Failed {
        kind: FailureKind,
        start: u8,
        lamps: usize,
        end: u8,
    },
    Refused(Refusal),
}

impl Told {
    // How many lamps the line has that fails, and 0 where none does.
    pub fn lamps(self) -> usize {
        match self {
            Told::Failed { lamps, .. } => lamps,
            _ => 0,
        }
    }
}

impl From<CheckError> for Told {
    fn from(error: CheckError) -> Told {
        match error {
            CheckError::Failed(failure) => Told::Failed {
                kind: failure.kind,
                start: failure.start.0,
                lamps: usize::from(failure.lamps),
                end: failure.end,
            },
            CheckError::Refused(refusal) => Told::Refused(refusal),
        }
    }
}

// The short check up to a number of lamps, and the full check for a number that is not a short check's.
pub fn check_lines(
    file: &[u8],
    longest: u32,
    line: &mut [u8],
    list: &mut [u32],
    words: &mut [u64],
) -> Told {
    let Ok(longest) = u16::try_from(longest) else {
        return match plan_check::check_plan(file, line, list, words) {
            Ok(pairs) => Told::Accepted(pairs as usize),
            Err(error) => Told::from(error),
        };
    };
    match plan_check::check_up_to(file, longest, line, list, words) {
        Ok(NoneUpTo(longest)) => Told::NoneUpTo(usize::from(longest)),
        Err(error) => Told::from(error),
    }
}

// The answer, with the lamps of its line, which are at the front of the buffer. None are printed if the buffer is shorter than the line.
pub fn print_told(rt: &impl Print, told: Told, buffer: &[u8]) -> io::Result<()> {
    match told {
        Told::Accepted(pairs) => print!(rt; " accepted {pairs}"),
        Told::NoneUpTo(longest) => print!(rt; " none up to {longest}"),
        Told::Failed {
            kind,
            start,
            lamps,
            end,
        } => {
            print!(rt; " fails {} {start} {lamps}", kind.number())?;
            if lamps <= buffer.len() {
                print_bytes(rt, &buffer[..lamps])?;
            }
            print!(rt; " {end}")
        }
        Told::Refused(refusal) => print_refused(rt, refusal),
    }
}
