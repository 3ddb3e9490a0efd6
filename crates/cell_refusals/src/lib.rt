// Refusals 6 and 7: the cells, and the actions that move on.
//
// These functions are for the reader in the crate above and not for users: each asks for parts that lie in the file, which
// refusals 1 to 4 ensure.
#![tactic(auto)]

ghost use Rattle.std.specs.Prelude.{◌≡◌, ◌+◌, ◌*◌, ◌≤◌, ◌<◌, length};
ghost use Rattle.lamp_line.specs.Tables.{kinds_of_ends};
ghost use Rattle.lamp_line.specs.Refusals.{some_below};
ghost use Rattle.job_layout.specs.FileRefusals.{cell_wrong_in, cell_wrong_at, cell_wrong, legal_at, legal_at_end, moves_on_at_end, end_wrong};

use job_layout::LaidJob;
use lamp_line::WorldState;

// Most cells are legal and in range; for those the first two tests are enough.
fn is_cell_wrong(worlds: u8, results: u8, next: u8, sensed: u8) -> bool
    ensures { result ≡ cell_wrong_in worlds results next sensed }
{
    if worlds <= next {
        return true;
    }
    if sensed < results {
        return false;
    }
    (sensed != 255) | (next != 0)
}

// One of the `count` cells from `from` on is out of range. Inlined into the reader, the loop has a slow jump wherever the linker puts it; apart, only
// at some places.
#[inline(never)]
fn any_cell_wrong(file: &[u8], from: usize, count: usize, worlds: u8, results: u8) -> bool
    requires { from + 2 * count ≤ length file.now }
    ensures { result ≡ some_below count (cell_wrong_at file.now from worlds results) }
{
    let (cells, _) = file[from..from + 2 * count].as_chunks::<2>();
    cells.iter().any(|[next, sensed]| is_cell_wrong(worlds, results, *next, *sensed))
}

// Refusal 6 applies.
pub fn cell_wrong(laid: &LaidJob) -> bool
    ensures { result ≡ cell_wrong laid.now.file.now laid.now.head }
{
    let cells = laid.head.cells;
    any_cell_wrong(
        laid.file,
        cells.offset as usize,
        laid.head.cell_count() as usize,
        laid.head.worlds,
        laid.head.results,
    )
}

// The action is legal at this end in this world state.
fn legal_at(laid: &LaidJob, action: u8, end: u8, world: u8) -> bool
    requires { (action < laid.now.head.actions) × (end < kinds_of_ends laid.now.head.ends) × (world < laid.now.head.worlds) }
    ensures { result ≡ legal_at laid.now.file.now laid.now.head action end world }
{
    let at = laid.head.next_place(action, WorldState(world), end);
    laid.file[at + 1] != 255
}

// The action is legal at this end in some world state.
fn legal_at_end(laid: &LaidJob, action: u8, end: u8) -> bool
    requires { (action < laid.now.head.actions) × (end < kinds_of_ends laid.now.head.ends) }
    ensures { result ≡ legal_at_end laid.now.file.now laid.now.head action end }
{
    (0..laid.head.worlds).any(|world| legal_at(laid, action, end, world))
}

// The action is legal at some end.
fn legal_at_ends(laid: &LaidJob, action: u8) -> bool
    requires { action < laid.now.head.actions }
    ensures { result ≡ some_below (kinds_of_ends laid.now.head.ends) (legal_at_end laid.now.file.now laid.now.head action) }
{
    for end in 0..=laid.head.ends {
        if legal_at_end(laid, action, end) {
            return true;
        }
    }
    false
}

// The action moves on, and is legal at some end.
fn moves_on_at_end(laid: &LaidJob, action: u8) -> bool
    requires { action < laid.now.head.actions }
    ensures { result ≡ moves_on_at_end laid.now.file.now laid.now.head action }
{
    laid.file[laid.head.mark_place(action)] != 0 && legal_at_ends(laid, action)
}

// Refusal 7 applies.
pub fn end_wrong(laid: &LaidJob) -> bool
    ensures { result ≡ end_wrong laid.now.file.now laid.now.head }
{
    (0..laid.head.actions).any(|action| moves_on_at_end(laid, action))
}
