// Refusals 5, 8 and 9: the bytes that have to be 0 or 1, which are marks, starts and goal.
//
// These functions are for the reader in the crate above and not for users: each asks for parts that lie in the file, which
// refusals 1 to 4 ensure.
#![tactic(auto)]

ghost use Rattle.std.specs.Prelude.{◌≡◌};
ghost use Rattle.job_layout.specs.FileRefusals.{mark_wrong, start_wrong, goal_wrong};

use job_layout::LaidJob;

// Refusal 5 applies.
pub fn mark_wrong(laid: &LaidJob) -> bool
    ensures { result ≡ mark_wrong laid.now.file.now laid.now.head }
{
    let from = laid.head.marks.offset as usize;
    let marks = &laid.file[from..from + laid.head.actions as usize];
    marks.iter().any(|mark| 1 < *mark)
}

// Refusal 8 applies.
pub fn start_wrong(laid: &LaidJob) -> bool
    ensures { result ≡ start_wrong laid.now.file.now laid.now.head }
{
    let from = laid.head.starts.offset as usize;
    let starts = &laid.file[from..from + laid.head.worlds as usize];
    starts.iter().any(|start| 1 < *start) | !starts.contains(&1)
}

// Refusal 9 applies.
pub fn goal_wrong(laid: &LaidJob) -> bool
    ensures { result ≡ goal_wrong laid.now.file.now laid.now.head }
{
    let from = laid.head.goal.offset as usize;
    let goal = &laid.file[from..from + laid.head.goal_count()];
    goal.iter().any(|cell| 1 < *cell)
}
