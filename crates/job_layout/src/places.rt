// How many entries the tables of a job have, and the place of each entry in the file.
ghost use Rattle.std.specs.Prelude.{◌≡◌, ◌≤◌};
ghost use Rattle.lamp_line.specs.Tables.{lamp_column};
ghost use Rattle.job_layout.specs.Layout.{job_columns, sizes_of, width, cell_count, goal_length, plan_length, mark_place, next_place, start_place, goal_place, action_place};

use crate::{Job, Sizes};
use lamp_line::{ProgramState, WorldState};

impl Sizes {
    // How many columns tables of these sizes have.
    pub fn width(self) -> usize
        ensures { result ≡ width self }
    {
        self.end_kinds as usize + self.kinds as usize
    }
}

impl Job {
    // The numbers A, W, C, R and E.
    #[tactic(auto, unfolding(lamp_line::specs::Tables::kinds_of_ends))]
    pub fn sizes(self) -> Sizes
        ensures { result ≡ sizes_of self }
    {
        Sizes {
            actions: self.actions,
            worlds: self.worlds,
            kinds: self.kinds,
            results: self.results,
            end_kinds: self.ends as u16 + 1,
        }
    }

    // How many columns the tables have: one for each kind of end and one for each kind of lamp.
    #[tactic(auto, unfolding(lamp_line::specs::Tables::kinds_of_ends, lamp_line::specs::Tables::columns))]
    pub fn column_count(self) -> u16
        ensures { result ≡ job_columns self }
    {
        self.ends as u16 + 1 + self.kinds as u16
    }

    // The column of a lamp, after those of the ends. For the crates above and not for users: it asks for a column that fits a byte, as that of
    // every kind of a job does that is not refused.
    #[tactic(auto, unfolding(lamp_line::specs::Tables::lamp_column))]
    pub fn lamp_column(self, kind: u8) -> u8
        requires { lamp_column self.ends kind ≤ 255 }
        ensures { result ≡ lamp_column self.ends kind }
    {
        self.ends + kind
    }

    // How many cells the job has.
    pub fn cell_count(self) -> u32
        ensures { result ≡ cell_count self }
    {
        self.actions as u32 * self.worlds as u32 * self.column_count() as u32
    }

    // How many goal cells the job has.
    pub fn goal_count(self) -> usize
        ensures { result ≡ goal_length self }
    {
        self.worlds as usize * self.column_count() as usize
    }

    // How many bytes the plan has.
    pub fn plan_length(self) -> usize
        ensures { result ≡ plan_length self }
    {
        self.states as usize * (1 + self.results as usize)
    }

    pub fn mark_place(self, action: u8) -> usize
        ensures { result ≡ mark_place self action }
    {
        self.marks.offset as usize + action as usize
    }

    // Where a cell has its next world state; its result is the byte after it.
    pub fn next_place(self, action: u8, world: WorldState, column: u8) -> usize
        ensures { result ≡ next_place self action world column }
    {
        let row = action as usize * self.worlds as usize + world.row(1);
        self.cells.offset as usize + 2 * (row * self.column_count() as usize + column as usize)
    }

    pub fn start_place(self, world: WorldState) -> usize
        ensures { result ≡ start_place self world }
    {
        self.starts.offset as usize + world.row(1)
    }

    pub fn goal_place(self, world: WorldState, column: u8) -> usize
        ensures { result ≡ goal_place self world column }
    {
        self.goal.offset as usize + (world.row(self.column_count()) + column as usize)
    }

    // Where the plan has the action of a program state; its targets follow, in the order of the results.
    pub fn action_place(self, state: ProgramState) -> usize
        ensures { result ≡ action_place self state }
    {
        self.plan.offset as usize + state.row(1 + self.results as u16)
    }
}
