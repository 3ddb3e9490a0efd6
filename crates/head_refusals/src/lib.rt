// Refusals 2, 3 and 4: the numbers of the head, the places of the parts and their lengths.
//
// These functions are for the reader in the crate above, and `ranges_wrong` for the test of rules files too; they are not for users:
// `number_wrong` asks for a file that is long enough to have a head, which refusal 1 tests.
#![tactic(auto)]

ghost use Rattle.std.specs.Prelude.{◌≡◌, ◌≤◌, length};
ghost use Rattle.job_layout.specs.FileRefusals.{outside, ranges_wrong, number_wrong, end_of, misplaced, place_wrong, differs, length_wrong};

use job_layout::{Job, Part, Sizes};

fn is_outside(low: u8, high: u8, n: u8) -> bool
    ensures { result ≡ outside low high n }
{
    (n < low) | (high < n)
}

// One of A, W, C, R and E is out of its range.
pub fn ranges_wrong(sizes: Sizes) -> bool
    ensures { result ≡ ranges_wrong sizes }
{
    is_outside(1, 16, sizes.actions)
        | is_outside(1, 64, sizes.worlds)
        | is_outside(1, 15, sizes.kinds)
        | is_outside(1, 8, sizes.results)
        | (sizes.end_kinds < 1)
        | (16 < sizes.width())
}

// Refusal 2 applies.
pub fn number_wrong(file: &[u8], job: Job) -> bool
    requires { 28 ≤ length file.now }
    ensures { result ≡ number_wrong file.now job }
{
    ranges_wrong(job.sizes())
        | is_outside(0, 64, job.states)
        | is_outside(0, job.states, job.first.0)
        | is_outside(0, 0, file[7])
}

// Offset and length are 16-bit numbers each; their sum may need 17 bits.
fn end_of(part: Part) -> usize
    ensures { result ≡ end_of part }
{
    part.offset as usize + part.length as usize
}

fn is_misplaced(size: usize, before: usize, part: Part) -> bool
    ensures { result ≡ misplaced size before part }
{
    ((part.offset as usize) < before) | (size < end_of(part))
}

// Refusal 3 applies.
pub fn place_wrong(file: &[u8], job: Job) -> bool
    ensures { result ≡ place_wrong file.now job }
{
    let size = file.len();
    is_misplaced(size, 28, job.marks)
        | is_misplaced(size, end_of(job.marks), job.cells)
        | is_misplaced(size, end_of(job.cells), job.starts)
        | is_misplaced(size, end_of(job.starts), job.goal)
        | is_misplaced(size, end_of(job.goal), job.plan)
}

fn has_other_length(part: Part, length: usize) -> bool
    ensures { result ≡ differs part.length length }
{
    part.length as usize != length
}

// Refusal 4 applies.
pub fn length_wrong(job: Job) -> bool
    ensures { result ≡ length_wrong job }
{
    has_other_length(job.marks, job.actions as usize)
        | has_other_length(job.cells, 2 * job.cell_count() as usize)
        | has_other_length(job.starts, job.worlds as usize)
        | has_other_length(job.goal, job.goal_count())
        | has_other_length(job.plan, job.plan_length())
}
