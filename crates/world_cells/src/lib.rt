// The cells of one world state, from the rules (02, (e)): `fill_world`.
//
// The values of the fluents are found once. Then each rule, from the first on, writes the cells that it matches and that no rule before it has
// written: those that are not legal yet, which their result 255 shows. Once no such cell is left, later rules write nothing; every 64
// rules that is looked at.
//
// These functions are for the generator in the crate above and not for users: they ask for a part of the right length.
#![tactic(auto)]

ghost use Rattle.std.specs.Prelude.{◌≡◌, cond, ◌+◌, ◌*◌, ◌≤◌, ◌<◌, length};
ghost use Rattle.lamp_line.specs.Refusals.{some_below};
ghost use Rattle.job_layout.specs.Layout.{width};
ghost use Rattle.fluent_rules.specs.CellsPart.{part_length};
ghost use Rattle.fluent_rules.specs.Fluents.{values_in};
ghost use Rattle.rules_file.specs.RulesFile.{value_counts, rule_count};
ghost use Rattle.world_cells.specs.inner.CellsWritten.{undecided, with_cell, row_start, cell_number, first_column, columns_end};
ghost use Rattle.world_cells.specs.inner.CellsWritten.{Claimed, Applied, NotLegalYet, WorldFilled};

use job_layout::Sizes;
use lamp_line::WorldState;
use rule_worlds::{new_world, wants, world_values};
use rules_file::Rules;
use std::ops::Range;

// Writes the two bytes of cell i.
pub fn write_cell(part: &mut [u8], i: usize, next: WorldState, sensed: u8)
    requires { 2 * i + 1 < length part.old }
    ensures { part.new ≡ with_cell part.old i next.0 sensed }
{
    part[2 * i] = next.0;
    part[2 * i + 1] = sensed;
}

// Writes cell i, unless a rule has written it.
fn claim_cell(part: &mut [u8], i: usize, next: WorldState, sensed: u8)
    requires { 2 * i + 1 < length part.old }
    ensures { part.new ≡ cond (undecided part.old i) (with_cell part.old i next.0 sensed) part.old }
{
    if part[2 * i + 1] == 255 {
        write_cell(part, i, next, sensed);
    }
}

// Writes the cells from `first` up to and without `end` that no rule has written.
fn claim_cells(part: &mut [u8], first: usize, end: usize, next: WorldState, sensed: u8)
    requires { (first ≤ end) × (2 * end ≤ length part.old) }
    ensures { Claimed part.old part.new first end next.0 sensed }
{
    for i in first..end {
        claim_cell(part, i, next, sensed);
    }
}

// The number of the first cell in the row of an action and a world state.
fn row_start(sizes: Sizes, action: u8, world: WorldState) -> usize
    ensures { result ≡ row_start sizes action world.0 }
{
    (action as usize * sizes.worlds as usize + world.row(1)) * sizes.width()
}

// The columns that a rule with this column matches.
fn matched_columns(sizes: Sizes, column: u8) -> Range<usize>
    ensures { (result.start ≡ first_column sizes column) × (result.end ≡ columns_end sizes column) }
{
    match column {
        255 => 0..sizes.width(),
        254 => sizes.end_kinds as usize..sizes.width(),
        _ => column as usize..column as usize + 1,
    }
}

// Lets rule i write its cells in a world state in which the fluents have these values.
fn apply_rule(rules: &Rules, i: usize, world: WorldState, values: &[u8], part: &mut [u8])
    requires { (length part.old ≡ part_length rules.now.sizes) × (i < rule_count rules.now.bytes.now) × (world.0 < rules.now.sizes.worlds)
        × (values.now ≡ values_in (value_counts rules.now.bytes.now) world.0) }
    ensures { Applied rules.now.bytes.now rules.now.sizes i world.0 part.old part.new }
{
    let rule = rules.rule(i);
    if !wants(rule.wanted, values) {
        return;
    }
    let next = new_world(rules.counts(), rule.new, values);
    let row = row_start(rules.sizes, rule.action, world);
    let columns = matched_columns(rules.sizes, rule.column);
    let first = row + columns.start;
    let end = row + columns.end;
    claim_cells(part, first, end, next, rule.result);
}

// Some of the `count` cells from `first` on is written by no rule.
fn any_undecided(part: &[u8], first: usize, count: usize) -> bool
    requires { 2 * (first + count) ≤ length part.now }
    ensures { result ≡ some_below count (λ c. undecided part.now (first + c)) }
{
    (0..count).any(|c| part[2 * (first + c) + 1] == 255)
}

// Some cell of the world state is written by no rule.
fn any_left(part: &[u8], sizes: Sizes, world: WorldState) -> bool
    requires { (length part.now ≡ part_length sizes) × (world.0 < sizes.worlds) }
    ensures { result ≡ some_below sizes.actions (λ a. some_below (width sizes) (λ c. undecided part.now (cell_number sizes a world.0 c))) }
{
    for a in 0..sizes.actions {
        if any_undecided(part, row_start(sizes, a, world), sizes.width()) {
            return true;
        }
    }
    false
}

// Fills the cells of a world state, none of which is legal before.
pub fn fill_world(rules: &Rules, world: WorldState, part: &mut [u8])
    requires { (length part.old ≡ part_length rules.now.sizes) × (world.0 < rules.now.sizes.worlds) × NotLegalYet rules.now.sizes world.0 part.old }
    ensures { WorldFilled rules.now.bytes.now rules.now.sizes world.0 part.old part.new }
{
    let counts = rules.counts();
    let mut values = [0u8; 6];
    world_values(counts, rules.sizes.worlds, world, &mut values);
    for i in 0..rules.count() {
        if i % 64 == 63 {
            if !any_left(part, rules.sizes, world) {
                return;
            }
        }
        apply_rule(rules, i, world, &values[..counts.len()], part);
    }
}
