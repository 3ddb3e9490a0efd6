// The check (01, "The check"): does the plan reach the goal on all lines, however long and however they end, from all marked starts?
// `check_plan` is the operation, and `check_up_to` is the short check (02, (b)), which looks at lines of up to a number of lamps only. Neither
// asks anything of its caller. Both make the same search, with a memory that is small for a small job.
#![tactic(auto)]

ghost use Rattle.std.specs.Prelude.{◌≡◌};
ghost use Rattle.plan_check.specs.CheckAnswers.{Checked};
ghost use Rattle.plan_check.specs.ShortAnswers.{CheckedUpTo};
ghost use Rattle.plan_check.specs.declared.CheckError.TheVariants as error;
ghost use Rattle.plan_check.specs.inner.Outcomes.{CheckedLines};

use job_tables::open_job;
use lamp_line::Refusal;
pub use line_finding::Failure;
use line_finding::find;

// Why a check does not accept a plan: the plan fails on a line, or the call is refused.
#[derive(Clone, Copy)]
pub enum CheckError {
    Failed(Failure),
    Refused(Refusal),
}

impl From<Failure> for CheckError {
    ghost from_gives = { λ failure e. e ≡ error.Failed failure };

    fn from(failure: Failure) -> CheckError {
        CheckError::Failed(failure)
    }
}

impl From<Refusal> for CheckError {
    ghost from_gives = { λ because e. e ≡ error.Refused because };

    fn from(because: Refusal) -> CheckError {
        CheckError::Refused(because)
    }
}

// What the short check answers where it finds no failing line: that no line of up to this many lamps fails. It is no acceptance, since the short
// check knows nothing of longer lines, and no answer of the full check holds it.
#[derive(Clone, Copy)]
pub struct NoneUpTo(pub u16);

// A number of lamps that no line has which the search tries: there are at most 4,160 pairs.
const NO_BOUND: usize = 65536;

// Checks the plan of any file on the lines of up to `longest` lamps, with a lent line buffer, working list and words of any size and content.
// If none of these lines fails, it answers the number of pairs that they reach. A job has at most 65 times 64 pairs at 16 columns.
fn check_lines(
    file: &[u8],
    longest: usize,
    line: &mut [u8],
    list: &mut [u32],
    words: &mut [u64],
) -> Result<u32, CheckError>
    ensures { CheckedLines file.now longest result
        (record { line = line.old; list = list.old; words = words.old })
        (record { line = line.new; list = list.new; words = words.new }) }
{
    let job = open_job(file)?;
    let live = job.head.states as usize * job.head.worlds as usize;
    if line.len() < live + 1 {
        return Err(CheckError::Refused(Refusal::LineBuffer));
    }
    let pairs = live + job.head.worlds as usize;
    if list.len() < pairs {
        return Err(CheckError::Refused(Refusal::WorkingSpace));
    }
    if words.len() < (pairs + 63) / 64 {
        return Err(CheckError::Refused(Refusal::WorkingSpace));
    }
    let size = pairs * job.head.column_count() as usize;
    let found = if size <= 256 {
        find::<256>(&job, longest, line, list, words)
    } else if size <= 8192 {
        find::<8192>(&job, longest, line, list, words)
    } else {
        find::<66560>(&job, longest, line, list, words)
    };
    Ok(found?)
}

// Checks the plan of any file on all lines. It answers the number of pairs that some line reaches on arriving at a lamp or at the line's end.
#[tactic(auto, using(crate::proofs::Answering::full_checked))]
pub fn check_plan(
    file: &[u8],
    line: &mut [u8],
    list: &mut [u32],
    words: &mut [u64],
) -> Result<u32, CheckError>
    ensures { Checked file.now result
        (record { line = line.old; list = list.old; words = words.old })
        (record { line = line.new; list = list.new; words = words.new }) }
{
    check_lines(file, NO_BOUND, line, list, words)
}

// Checks the plan of any file on the lines of up to `longest` lamps. If none of these lines fails, it answers this number.
pub fn check_up_to(
    file: &[u8],
    longest: u16,
    line: &mut [u8],
    list: &mut [u32],
    words: &mut [u64],
) -> Result<NoneUpTo, CheckError>
    ensures { CheckedUpTo file.now longest result
        (record { line = line.old; list = list.old; words = words.old })
        (record { line = line.new; list = list.new; words = words.new }) }
{
    check_lines(file, longest as usize, line, list, words)?;
    Ok(NoneUpTo(longest))
}
