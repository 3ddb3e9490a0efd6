// The job file reader (01, "Job file"). `read_job` is the operation; it asks nothing of its caller.
#![tactic(auto)]

ghost use Rattle.std.specs.Prelude.{◌≡◌};
ghost use Rattle.job_file.specs.Reading.{reading_of};
ghost use Rattle.job_file.specs.inner.ReaderSteps.{reading_from};

use bit_refusals::{goal_wrong, mark_wrong, start_wrong};
use cell_refusals::{cell_wrong, end_wrong};
use head_refusals::{length_wrong, number_wrong, place_wrong};
use job_layout::head::read_head;
use job_layout::{Job, LaidJob};
use lamp_line::Refusal;
use plan_refusals::{action_wrong, target_wrong};

// The reader: the job in the file's head, or the lowest refusal that applies to the file.
pub fn read_job(file: &[u8]) -> Result<Job, Refusal>
    ensures { result ≡ reading_of file.now }
{
    let size = file.len();
    if (size < 28) | (65535 < size) {
        return Err(Refusal::FileSize);
    }
    let job = read_head(file);
    if number_wrong(file, job) {
        return Err(Refusal::HeadNumber);
    }
    if place_wrong(file, job) {
        return Err(Refusal::PartPlace);
    }
    if length_wrong(job) {
        return Err(Refusal::PartLength);
    }
    read_parts(&LaidJob { file, head: job })
}

// The rest of the reader's tests, once refusals 1 to 4 are ruled out. Each test goes over its whole part, and the lowest number
// is answered.
fn read_parts(laid: &LaidJob) -> Result<Job, Refusal>
    ensures { result ≡ reading_from 4 laid.now.file.now laid.now.head }
{
    if mark_wrong(laid) {
        return Err(Refusal::Mark);
    }
    let cells = cell_wrong(laid);
    let ends = end_wrong(laid);
    if cells {
        return Err(Refusal::Cell);
    }
    if ends {
        return Err(Refusal::LegalAtEnd);
    }
    read_starts_and_goal(laid)
}

fn read_starts_and_goal(laid: &LaidJob) -> Result<Job, Refusal>
    ensures { result ≡ reading_from 7 laid.now.file.now laid.now.head }
{
    if start_wrong(laid) {
        return Err(Refusal::StartMark);
    }
    if goal_wrong(laid) {
        return Err(Refusal::GoalCell);
    }
    read_plan(laid)
}

fn read_plan(laid: &LaidJob) -> Result<Job, Refusal>
    ensures { result ≡ reading_from 9 laid.now.file.now laid.now.head }
{
    let actions = action_wrong(laid);
    let targets = target_wrong(laid);
    if actions {
        return Err(Refusal::PlanAction);
    }
    if targets {
        return Err(Refusal::PlanTarget);
    }
    Ok(laid.head)
}
