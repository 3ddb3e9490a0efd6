// Refusals 14 and 15: the start and the line. The test for 14 is `OpenJob::is_start`; the one for 15 asks nothing of its caller.
#![tactic(auto)]

ghost use Rattle.std.specs.Prelude.{◌≡◌};
ghost use Rattle.lamp_line.specs.Tables.{line_of};
ghost use Rattle.line_refusals.specs.LineRefusals.{line_wrong};

use job_layout::Job;

// Refusal 15 applies.
pub fn line_wrong(line: &[u8], end: u8, job: Job) -> bool
    ensures { result ≡ line_wrong job.ends job.kinds (line_of end line.now) }
{
    (65535 < line.len())
        | line.iter().any(|kind| (*kind < 1) | (job.kinds < *kind))
        | (job.ends < end)
}
