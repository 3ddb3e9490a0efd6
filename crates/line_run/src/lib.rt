// The run of one given line (01, "One run"). `run_line` is the operation; it asks nothing of its caller.
#![tactic(auto)]

ghost use Rattle.std.specs.Prelude.{◌≡◌, true, ◌≤◌};
ghost use Rattle.lamp_line.specs.Tables.{line_of, column_of, Kinds, Fits};
ghost use Rattle.job_layout.specs.Layout.{job_columns};
ghost use Rattle.lamp_line.specs.Run.{ran, run, limited};
ghost use Rattle.job_layout.specs.JobTables.{tables_of};
ghost use Rattle.job_tables.specs.inner.Opened.{tables};
ghost use Rattle.line_run.specs.RunAnswers.{run_answer_of, run_answer};

use job_layout::Job;
use job_tables::{OpenJob, open_job};
use lamp_line::{Ending, Pair, Refusal, WorldState};
use lamp_walk::{Walked, walk_in_job};
use line_refusals::line_wrong;

// What a run answers: its ending with the steps counted, or Stopped with the limit.
#[derive(Clone, Copy)]
pub enum Ran {
    Ended(Ending, u32),
    Stopped(u32),
}

// The column at which the rest of the line begins: that of its first lamp, or of the line's end.
fn column_of(job: Job, rest: &[u8], end: u8) -> u8
    requires { (job_columns job ≤ 16) × Kinds job.kinds rest.now }
    ensures { result ≡ column_of job.ends end rest.now }
{
    match rest {
        [] => end,
        [kind, ..] => job.lamp_column(*kind),
    }
}

// An ending after k counted steps, or Stopped where k is above the limit.
fn within_limit(ending: Ending, k: u64, limit: u32) -> Ran
    ensures { result ≡ run_answer_of (limited limit (ran ending k)) }
{
    if k <= limit as u64 {
        return Ran::Ended(ending, k as u32);
    }
    Ran::Stopped(limit)
}

// The run in a file that is not refused, along a line of the job. After each lamp it goes on with the part of the line after it.
fn run_in_job(job: &OpenJob, start: WorldState, line: &[u8], end: u8, limit: u32) -> Ran
    requires { ((tables_of job.now.file.now).start start ≡ true)
        × Fits (tables job.now) (line_of end line.now) }
    ensures { result ≡ run_answer_of (limited limit (run (tables_of job.now.file.now) start (line_of end line.now))) }
{
    let mut rest = line;
    let mut at = Pair {
        state: job.head.first,
        world: start,
    };
    let mut k: u64 = 0;
    loop {
        let column = column_of(job.head, rest, end);
        match walk_in_job(job, at, column) {
            Walked::Ended(ending, steps) => return within_limit(ending, k + steps as u64, limit),
            Walked::Arrived(next, steps) => {
                at = next;
                k += steps as u64;
            }
        }
        if (limit as u64) < k {
            return Ran::Stopped(limit);
        }
        rest = &rest[1..];
    }
}

// The run from a start along a line with these lamps and this kind of end, for any file, start, lamps, end and limit.
pub fn run_line(
    file: &[u8],
    start: WorldState,
    line: &[u8],
    end: u8,
    limit: u32,
) -> Result<Ran, Refusal>
    ensures { result ≡ run_answer file.now start (line_of end line.now) limit }
{
    let job = open_job(file)?;
    if !job.is_start(start) {
        return Err(Refusal::Start);
    }
    if line_wrong(line, end, job.head) {
        return Err(Refusal::Line);
    }
    Ok(run_in_job(&job, start, line, end, limit))
}
