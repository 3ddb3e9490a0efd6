// The plain search: it runs every line of up to a number of lamps with every kind of end from every start, one after the other, and answers the
// first that fails. Shorter lines come first, then lower kinds of lamps, then lower kinds of ends, and lower starts last (02, (f)). So the runs
// are numbered, and one loop goes through the numbers.
use crate::checking::Told;
use crate::shape::{Shape, shape_of};
use lamp_line::{Ending, Refusal, WorldState};
use line_run::Ran;

// A run of the search: its start, its kind of end, and the number of its line.
#[derive(Clone, Copy)]
pub struct Trial {
    pub start: u8,
    pub end: u8,
    pub line: u32,
}

// The run with this number: the start changes first, then the kind of end, then the line.
fn trial_of(number: u32, shape: Shape) -> Trial {
    let starts = u32::from(shape.worlds);
    let ends = u32::from(shape.ends) + 1;
    Trial {
        start: (number % starts) as u8,
        end: (number / starts % ends) as u8,
        line: number / starts / ends,
    }
}

// The line with this number, at the end of the buffer, if it fits. Lines are numbered from the empty one on, by how many lamps they have and then by
// their kinds, which are the digits of the number.
fn line_of(number: u32, shape: Shape, line: &mut [u8]) -> Option<&[u8]> {
    let kinds = u32::from(shape.kinds);
    let mut left = number;
    for at in (0..line.len()).rev() {
        if left == 0 {
            return Some(&line[at + 1..]);
        }
        line[at] = ((left - 1) % kinds) as u8 + 1;
        left = (left - 1) / kinds;
    }
    if left == 0 { Some(line) } else { None }
}

// What the first trial that fails tells, of those with lines that fit the buffer. Its line is left at the buffer's end. If none fails, the answer is
// that none does, and how many lamps the longest of these lines have. It is None, which is like no check's, where a run is stopped or the trials
// are too many.
pub fn first_failing(file: &[u8], line: &mut [u8]) -> Option<Told> {
    let shape = shape_of(file);
    for number in 0..100000 {
        let trial = trial_of(number, shape);
        let longest = line.len();
        let Some(lamps) = line_of(trial.line, shape, line) else {
            return Some(Told::NoneUpTo(longest));
        };
        let start = WorldState(trial.start);
        match line_run::run_line(file, start, lamps, trial.end, u32::MAX) {
            // Of the refusals that of a start which is not marked counts as no failure.
            Ok(Ran::Ended(Ending::Goal, _)) | Err(Refusal::Start) => {}
            Ok(Ran::Ended(Ending::Failure(kind), _)) => {
                return Some(Told::Failed {
                    kind,
                    start: trial.start,
                    lamps: lamps.len(),
                    end: trial.end,
                });
            }
            Err(refusal) => return Some(Told::Refused(refusal)),
            Ok(Ran::Stopped(_)) => return None,
        }
    }
    None
}
