// Refusals 10 and 11: the actions and the targets of the plan.
//
// These functions are for the reader in the crate above and not for users: each asks for parts that lie in the file, which
// refusals 1 to 4 ensure.
#![tactic(auto)]

ghost use Rattle.std.specs.Prelude.{◌≡◌, ◌<◌};
ghost use Rattle.job_layout.specs.FileRefusals.{action_wrong_at, action_wrong, row_wrong, target_wrong};

use job_layout::LaidJob;
use lamp_line::ProgramState;

// The action of a program state is out of range.
fn action_wrong_at(laid: &LaidJob, state: u8) -> bool
    requires { state < laid.now.head.states }
    ensures { result ≡ action_wrong_at laid.now.file.now laid.now.head state }
{
    laid.head.actions <= laid.file[laid.head.action_place(ProgramState(state))]
}

// Refusal 10 applies.
pub fn action_wrong(laid: &LaidJob) -> bool
    ensures { result ≡ action_wrong laid.now.file.now laid.now.head }
{
    (0..laid.head.states).any(|state| action_wrong_at(laid, state))
}

// One of the targets of a program state is wrong.
fn row_wrong(laid: &LaidJob, state: u8) -> bool
    requires { state < laid.now.head.states }
    ensures { result ≡ row_wrong laid.now.file.now laid.now.head state }
{
    let from = laid.head.action_place(ProgramState(state)) + 1;
    let targets = &laid.file[from..from + laid.head.results as usize];
    targets
        .iter()
        .any(|target| (laid.head.states < *target) & (*target != 255))
}

// Refusal 11 applies.
pub fn target_wrong(laid: &LaidJob) -> bool
    ensures { result ≡ target_wrong laid.now.file.now laid.now.head }
{
    (0..laid.head.states).any(|state| row_wrong(laid, state))
}
