// Cells from rules (02, (e)): the cells part of a job file, from a rules file. `fill_cells` is the operation; it asks nothing of its caller.
//
// At first no cell is legal; then the cells of each world state are filled.
#![tactic(auto)]

ghost use Rattle.std.specs.Prelude.{◌≡◌, length};
ghost use Rattle.fluent_rules.specs.CellsPart.{cells_part, part_length};
ghost use Rattle.rules_file.specs.RulesFile.{rules_of};
ghost use Rattle.world_cells.specs.inner.CellsWritten.{Cleared};
ghost use Rattle.cell_filling.specs.FillAnswers.{CellsFilled};

use job_layout::Sizes;
use lamp_line::{Refusal, WorldState};
use rules_file::Rules;
use world_cells::{fill_world, write_cell};

// Writes all cells as not legal.
fn clear_cells(part: &mut [u8])
    ensures { Cleared part.old part.new }
{
    for i in 0..part.len() / 2 {
        write_cell(part, i, WorldState(0), 255);
    }
}

// Fills the whole part.
fn fill_part(rules: &Rules, part: &mut [u8])
    requires { length part.old ≡ part_length rules.now.sizes }
    ensures { part.new ≡ cells_part (rules_of rules.now.bytes.now) rules.now.sizes }
{
    clear_cells(part);
    for w in 0..rules.sizes.worlds {
        fill_world(rules, WorldState(w), part);
    }
}

// How many bytes the part has to have.
fn part_length(sizes: Sizes) -> usize
    ensures { result ≡ part_length sizes }
{
    2 * (sizes.actions as usize * sizes.worlds as usize * sizes.width())
}

// The generator, for any rules file, any numbers A, W, C, R and E, and any lent part.
pub fn fill_cells(rules: &[u8], sizes: Sizes, part: &mut [u8]) -> Result<(), Refusal>
    ensures { CellsFilled rules.now sizes result part.old part.new }
{
    let rules = Rules::open(rules, sizes)?;
    if part.len() != part_length(sizes) {
        return Err(Refusal::CellsLength);
    }
    fill_part(&rules, part);
    Ok(())
}
