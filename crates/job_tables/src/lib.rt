// Opens a job file, and reads the tables of one that is not refused: marks, cells, starts, goal, and the actions and targets of the plan.
//
// The functions that read a table are for the crates above and not for users: each asks for numbers within the table, but `is_start` asks
// nothing, since a world state that the job does not have is no start.
#![tactic(auto)]

ghost use Rattle.std.specs.Prelude.{◌≡◌, ◌<◌, eqb, Err, IfOk, IfErr};
ghost use Rattle.lamp_line.specs.Tables.{moves_on};
ghost use Rattle.job_layout.specs.Layout.{job_columns};
ghost use Rattle.job_layout.specs.JobTables.{tables_of};
ghost use Rattle.job_file.specs.Reading.{reading_of, Opened};

use job_file::read_job;
use job_layout::Job;
use lamp_line::{ProgramState, Refusal, WorldState};

// A job file that is not refused: its bytes, and the head that the reader answers for them.
#[derive(Clone, Copy)]
pub struct OpenJob<'a> {
    pub file: &'a [u8],
    pub head: Job,
    ghost opened: { Opened file.now head },
}

// The two bytes of a cell, whether it is legal or not: its next world state, and its result or 255.
#[derive(Clone, Copy)]
pub struct CellBytes {
    pub next: WorldState,
    pub result: u8,
}

// Opens a file, unless the reader refuses it.
pub fn open_job(file: &[u8]) -> Result<OpenJob<'_>, Refusal>
    ensures opened { IfOk result (λ job. job.file.now ≡ file.now) }
    ensures refused { IfErr result (λ because. reading_of file.now ≡ Err because) }
{
    let head = read_job(file)?;
    Ok(OpenJob { file, head })
}

impl OpenJob<'_> {
    ghost use Rattle.job_tables.specs.inner.Entries.{BytesOf, outcomes_of};

    // The action is marked as moving on.
    pub fn moves_on(&self, action: u8) -> bool
        requires { action < self.now.head.actions }
        ensures { result ≡ moves_on (tables_of self.now.file.now) action }
    {
        self.file[self.head.mark_place(action)] != 0
    }

    // The bytes of the cell of an action in a world state, at a column.
    pub fn cell_bytes(&self, action: u8, world: WorldState, column: u8) -> CellBytes
        requires { (action < self.now.head.actions) × (world.0 < self.now.head.worlds) × (column < job_columns self.now.head) }
        ensures { BytesOf ((tables_of self.now.file.now).cell action world column) self.now.head.worlds result }
    {
        let at = self.head.next_place(action, world, column);
        CellBytes {
            next: WorldState(self.file[at]),
            result: self.file[at + 1],
        }
    }

    // The cell of an action in a world state, at a column: none if the action is not legal there.
    pub fn cell(&self, action: u8, world: WorldState, column: u8) -> Option<CellBytes>
        requires { (action < self.now.head.actions) × (world.0 < self.now.head.worlds) × (column < job_columns self.now.head) }
        ensures { outcomes_of result ≡ (tables_of self.now.file.now).cell action world column }
    {
        let bytes = self.cell_bytes(action, world, column);
        if bytes.result == 255 {
            return None;
        }
        Some(bytes)
    }

    // The world state is below W and marked as a start.
    pub fn is_start(&self, world: WorldState) -> bool
        ensures { result ≡ (tables_of self.now.file.now).start world }
    {
        world.0 < self.head.worlds && self.file[self.head.start_place(world)] == 1
    }

    // The program state is the final one.
    pub fn is_final(&self, state: ProgramState) -> bool
        ensures { result ≡ eqb state.0 self.now.head.states }
    {
        state.0 == self.head.states
    }

    // The goal is true in a world state, at a column.
    pub fn is_goal(&self, world: WorldState, column: u8) -> bool
        requires { (world.0 < self.now.head.worlds) × (column < job_columns self.now.head) }
        ensures { result ≡ (tables_of self.now.file.now).goal world column }
    {
        self.file[self.head.goal_place(world, column)] == 1
    }

    // The action of a program state that is not final.
    pub fn action(&self, state: ProgramState) -> u8
        requires { state.0 < self.now.head.states }
        ensures { result ≡ (tables_of self.now.file.now).action state }
    {
        self.file[self.head.action_place(state)]
    }

    // The target of a program state that is not final, for a result: none if the plan has no branch for it.
    pub fn target(&self, state: ProgramState, sensed: u8) -> Option<ProgramState>
        requires { (state.0 < self.now.head.states) × (sensed < self.now.head.results) }
        ensures { result ≡ (tables_of self.now.file.now).target state sensed }
    {
        let at = self.head.action_place(state) + 1 + sensed as usize;
        let target = self.file[at];
        if target == 255 {
            return None;
        }
        Some(ProgramState(target))
    }
}
