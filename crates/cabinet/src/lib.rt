// The cabinet (01, "The cabinet"). `begin`, `next_action` and `report` are the operations. They ask nothing of their caller, and read only
// the marks and the plan of a file that is not refused.
#![tactic(auto)]

ghost use Rattle.std.specs.Prelude.{◌≡◌, ◌<◌};
ghost use Rattle.job_layout.specs.JobTables.{tables_of};
ghost use Rattle.cabinet.specs.CabinetAnswers.{begin_answer, action_answer, state_answer, report_answer};

use job_tables::{OpenJob, open_job};
use lamp_line::{Cabinet, ProgramState, Refusal};

// A report that is refused: why, and the old state.
#[derive(Clone, Copy)]
pub struct ReportError {
    pub refusal: Refusal,
    pub state: Cabinet,
}

// Begins a cabinet with the panel's count of lamps, for any file and count: its machine in its first state.
pub fn begin(file: &[u8], count: u16) -> Result<Cabinet, Refusal>
    ensures { result ≡ begin_answer file.now count }
{
    let job = open_job(file)?;
    Ok(Cabinet {
        state: job.head.first,
        lamps: count,
    })
}

// Names the action to do in a state, for any file and state: none if the plan has ended there.
pub fn next_action(file: &[u8], state: Cabinet) -> Result<Option<u8>, Refusal>
    ensures { result ≡ action_answer file.now state }
{
    let job = open_job(file)?;
    if job.head.states < state.state.0 {
        return Err(Refusal::State);
    }
    if state.state.0 == job.head.states {
        return Ok(None);
    }
    Ok(Some(job.action(state.state)))
}

// The branch of a state below S for any result. A result that is not below R has none.
fn branch(job: &OpenJob, state: ProgramState, sensed: u8) -> Option<ProgramState>
    requires { state.0 < job.now.head.states }
    ensures { result ≡ (tables_of job.now.file.now).target state sensed }
{
    if job.head.results <= sensed {
        return None;
    }
    job.target(state, sensed)
}

// The state to which the report of a sensed result leads.
fn next_state(file: &[u8], state: Cabinet, sensed: u8) -> Result<Cabinet, Refusal>
    ensures { result ≡ state_answer file.now state sensed }
{
    let job = open_job(file)?;
    let from = state.state;
    let lamps = state.lamps;
    if job.head.states < from.0 {
        return Err(Refusal::State);
    }
    if from.0 == job.head.states {
        return Err(Refusal::AfterEnd);
    }
    let Some(to) = branch(&job, from, sensed) else {
        return Err(Refusal::NoTarget);
    };
    if !job.moves_on(job.action(from)) {
        return Ok(Cabinet { state: to, lamps });
    }
    if lamps == 0 {
        return Err(Refusal::NoLampLeft);
    }
    Ok(Cabinet {
        state: to,
        lamps: lamps - 1,
    })
}

// Takes the report of a sensed result, for any file, state and result: the new state, or a refusal with the old one.
pub fn report(file: &[u8], state: Cabinet, sensed: u8) -> Result<Cabinet, ReportError>
    ensures { result ≡ report_answer file.now state sensed }
{
    next_state(file, state, sensed).map_err(|refusal| ReportError { refusal, state })
}
