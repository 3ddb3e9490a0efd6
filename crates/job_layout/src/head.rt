// The head of a job file: bytes 0 to 27.
ghost use Rattle.std.specs.Prelude.{◌≡◌, ◌+◌, ◌≤◌, length};
ghost use Rattle.job_layout.specs.Layout.{number16, part, head};

use crate::{Job, Part};
use lamp_line::ProgramState;

fn read_word(file: &[u8], at: usize) -> u16
    requires { at + 2 ≤ length file.now }
    ensures { result ≡ number16 file.now at }
{
    u16::from_le_bytes([file[at], file[at + 1]])
}

fn read_part(file: &[u8], at: usize) -> Part
    requires { at + 4 ≤ length file.now }
    ensures { result ≡ part file.now at }
{
    Part {
        offset: read_word(file, at),
        length: read_word(file, at + 2),
    }
}

// The job in the head of a file. For the crates above and not for users: it asks for a file that is long enough to have a head,
// which refusal 1 tests.
pub fn read_head(file: &[u8]) -> Job
    requires { 28 ≤ length file.now }
    ensures { result ≡ head file.now }
{
    Job {
        actions: file[0],
        worlds: file[1],
        kinds: file[2],
        results: file[3],
        states: file[4],
        first: ProgramState(file[5]),
        ends: file[6],
        marks: read_part(file, 8),
        cells: read_part(file, 12),
        starts: read_part(file, 16),
        goal: read_part(file, 20),
        plan: read_part(file, 24),
    }
}
