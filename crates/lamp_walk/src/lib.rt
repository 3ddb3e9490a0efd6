// The one-lamp walk (01, "One run"): from a program state and a world state at a column to the pair that arrives at the next lamp,
// or to an ending, with the steps counted. `walk_lamp` is the operation; it asks nothing of its caller.
#![tactic(auto)]

ghost use Rattle.std.specs.Prelude.{◌≡◌, ◌+◌, ◌≤◌, ◌<◌};
ghost use Rattle.job_layout.specs.Layout.{job_columns};
ghost use Rattle.lamp_line.specs.Run.{judged, own_steps, act, lamp_walk};
ghost use Rattle.job_layout.specs.JobTables.{tables_of};
ghost use Rattle.lamp_walk.specs.WalkAnswers.{walk_answer};
ghost use Rattle.lamp_walk.specs.inner.Walking.{move_of, spent_ending, walk_of};

use job_tables::{OpenJob, open_job};
use lamp_line::{Ending, FailureKind, Pair, Refusal, WorldState};

// What one action does: the run ends, goes on at the same lamp, or goes on at the next.
#[derive(Clone, Copy)]
pub enum Acted {
    Ends(Ending),
    Stays(Pair),
    Passes(Pair),
}

// A walk: the run ends, or a pair arrives at the next lamp. Either comes with the steps counted at this lamp.
#[derive(Clone, Copy)]
pub enum Walked {
    Ended(Ending, u32),
    Arrived(Pair, u32),
}

// The ending in state S, which the goal decides. It is for the crates above and not for users: it asks for numbers within the tables.
pub fn judge(job: &OpenJob, world: WorldState, column: u8) -> Ending
    requires { (world.0 < job.now.head.worlds) × (column < job_columns job.now.head) }
    ensures { result ≡ judged (tables_of job.now.file.now) world column }
{
    if job.is_goal(world, column) {
        return Ending::Goal;
    }
    Ending::Failure(FailureKind::GoalFalse)
}

// The action of a state that is not final.
fn try_action(job: &OpenJob, pair: Pair, column: u8) -> Acted
    requires { (pair.state.0 < job.now.head.states) × (pair.world.0 < job.now.head.worlds)
        × (column < job_columns job.now.head) }
    ensures { move_of result ≡ act (tables_of job.now.file.now) pair column }
{
    let action = job.action(pair.state);
    let Some(cell) = job.cell(action, pair.world, column) else {
        return Acted::Ends(Ending::Failure(FailureKind::NotLegal));
    };
    let Some(target) = job.target(pair.state, cell.result) else {
        return Acted::Ends(Ending::Failure(FailureKind::NoBranch));
    };
    let next = Pair {
        state: target,
        world: cell.next,
    };
    if job.moves_on(action) {
        return Acted::Passes(next);
    }
    Acted::Stays(next)
}

// One action from any program state, state S among them. It is for the crates above and not for users: it asks for numbers within
// the tables.
pub fn one_action(job: &OpenJob, pair: Pair, column: u8) -> Acted
    requires { (pair.state.0 ≤ job.now.head.states) × (pair.world.0 < job.now.head.worlds)
        × (column < job_columns job.now.head) }
    ensures { move_of result ≡ act (tables_of job.now.file.now) pair column }
{
    if job.is_final(pair.state) {
        return Acted::Ends(judge(job, pair.world, column));
    }
    try_action(job, pair, column)
}

// The ending once S·W steps are counted at a lamp.
fn spent(job: &OpenJob, pair: Pair, column: u8) -> Ending
    requires { (pair.world.0 < job.now.head.worlds) × (column < job_columns job.now.head) }
    ensures { result ≡ spent_ending (tables_of job.now.file.now) pair column }
{
    if job.is_final(pair.state) {
        return judge(job, pair.world, column);
    }
    Ending::Failure(FailureKind::Circles)
}

// The steps that an ending counts, given those made before it. Failure 2's own step is not counted.
fn counted(ending: Ending, made: u32) -> u32
    ensures { result ≡ made + own_steps ending }
{
    made
}

// The walk in a file that is not refused. It is for the crates above and not for users: it asks for numbers within the tables.
pub fn walk_in_job(job: &OpenJob, pair: Pair, column: u8) -> Walked
    requires { (pair.state.0 ≤ job.now.head.states) × (pair.world.0 < job.now.head.worlds)
        × (column < job_columns job.now.head) }
    ensures { walk_of result ≡ lamp_walk (tables_of job.now.file.now) pair column }
{
    let most = job.head.states as u32 * job.head.worlds as u32;
    let mut at = pair;
    for k in 0..most {
        match one_action(job, at, column) {
            Acted::Ends(ending) => return Walked::Ended(ending, counted(ending, k)),
            Acted::Passes(next) => return Walked::Arrived(next, k + 1),
            Acted::Stays(next) => at = next,
        }
    }
    Walked::Ended(spent(job, at, column), most)
}

// The one-lamp walk, for any file, program state, world state and column.
pub fn walk_lamp(file: &[u8], pair: Pair, column: u8) -> Result<Walked, Refusal>
    ensures { result ≡ walk_answer file.now pair column }
{
    let job = open_job(file)?;
    if job.head.worlds <= pair.world.0 {
        return Err(Refusal::Start);
    }
    if job.head.column_count() <= column as u16 {
        return Err(Refusal::Line);
    }
    if job.head.states < pair.state.0 {
        return Err(Refusal::State);
    }
    Ok(walk_in_job(&job, pair, column))
}
