// What the search finds (01, "The check"): where it ends at a line that fails, the line is written and its start is named. What walks come to
// is remembered on the stack, in a memory whose size the caller chooses: to clear the largest costs more than the whole check of a small job.
//
// These functions are for the checks in the crate above and not for users: each asks for buffers with room, and for a job that its memory
// is large enough for.
#![tactic(auto)]

ghost use Rattle.std.specs.Prelude.{◌≤◌, min, length};
ghost use Rattle.job_tables.specs.inner.Opened.{tables};
ghost use Rattle.lamp_fates.specs.inner.Memory.{Memory, memory_size};
ghost use Rattle.line_finding.specs.inner.Finding.{Room, Finds};

use job_tables::OpenJob;
use lamp_line::{FailureKind, WorldState};
use plan_search::search_groups;
use working_list::line::write_line;

// A failure: its kind, and the start, the number of lamps and the kind of end of its line. The lamps themselves are in the line buffer.
#[derive(Clone, Copy)]
pub struct Failure {
    pub kind: FailureKind,
    pub start: WorldState,
    pub lamps: u16,
    pub end: u8,
}

// The search of both checks, among the lines of up to `longest` lamps: the first failure, whose line is written at the front of the line
// buffer; or, if none of these lines fails, the number of pairs that they reach. Where `longest` is at least the number of all pairs, it
// is no bound, and these are all lines.
fn search(
    job: &OpenJob,
    longest: usize,
    memory: &mut [u16],
    line: &mut [u8],
    list: &mut [u32],
    words: &mut [u64],
) -> Result<u32, Failure>
    requires { Memory (tables job.now) memory.old
        × Room (tables job.now) (length line.old) (length list.old) (length words.old) }
    ensures { Finds (tables job.now) longest result line.old line.new }
{
    // The search reads a copy of its own, once per check: what is behind the caller's reference would be read again after each write to the
    // memory, since the compiler does not know that the two lie apart.
    let own = *job;
    match search_groups(&own, longest, memory, list, words) {
        Ok(count) => Ok(count),
        Err(found) => {
            let start = write_line(
                &list[..found.count],
                line,
                found.member,
                found.kind,
                found.lamps,
            );
            Err(Failure {
                kind: found.failure,
                start,
                lamps: found.lamps as u16,
                end: found.end,
            })
        }
    }
}

// The search with a memory of this size. No job needs one of more than 66,560 numbers: there are at most 65 times 64 pairs at 16 columns.
// Inlined, the three sizes that the checks choose from would all lie on the stack, whichever of them is chosen.
#[inline(never)]
pub fn find<const SIZE: usize>(
    job: &OpenJob,
    longest: usize,
    line: &mut [u8],
    list: &mut [u32],
    words: &mut [u64],
) -> Result<u32, Failure>
    requires { Room (tables job.now) (length line.old) (length list.old) (length words.old)
        × (min (memory_size (tables job.now)) 66560 ≤ SIZE) × (SIZE ≤ 66560) }
    ensures { Finds (tables job.now) longest result line.old line.new }
{
    let mut memory = [0u16; SIZE];
    search(job, longest, &mut memory, line, list, words)
}
