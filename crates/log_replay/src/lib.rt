// Replaying a cabinet's log (02, (a)): can some start and some line have produced it? `replay_log` is the operation; it asks nothing
// of its caller.
//
// It goes through the log once and keeps the candidates, the world states and columns at which the cabinet can be. A column stays
// what it is until its lamp is passed; then the next lamp may be of any kind.
#![tactic(auto)]

ghost use Rattle.std.specs.Prelude.{◌≡◌, false, ◌≤◌, ◌<◌, length};
ghost use Rattle.job_layout.specs.JobTables.{tables_of};
ghost use Rattle.log_replay.specs.Logs.{log_entry, entry_count};
ghost use Rattle.log_replay.specs.ReplayAnswers.{log_size_wrong, entries_wrong, ReplayedRight, Replayed};
ghost use Rattle.log_candidates.specs.inner.WorldSets.{label_of, EntryInJob, WorldsIn};
ghost use Rattle.log_replay.specs.inner.Acting.{acts_so, Followed};
ghost use Rattle.log_replay.specs.declared.ReplayError.TheVariants.{Refused};

use job_tables::{OpenJob, open_job};
use lamp_line::{ProgramState, Refusal};
use log_candidates::{Candidates, LogEntry};

// Why a replay does not answer that the log is possible: the place of the first entry with which it is not, or a refusal.
#[derive(Clone, Copy)]
pub enum ReplayError {
    ImpossibleAt(u16),
    Refused(Refusal),
}

impl From<Refusal> for ReplayError {
    ghost from_gives = { λ because error. error ≡ Refused because };

    fn from(because: Refusal) -> ReplayError {
        ReplayError::Refused(because)
    }
}

// The entry that a pair of bytes holds.
fn entry_of(bytes: &[u8; 2]) -> LogEntry
    ensures { label_of result ≡ log_entry bytes.now 0 }
{
    LogEntry {
        action: bytes[0],
        result: bytes[1],
    }
}

fn log_size_wrong(log: &[u8]) -> bool
    ensures { result ≡ log_size_wrong log.now }
{
    (log.len() % 2 == 1) | (65534 < log.len())
}

// Some entry has an action that is not below `actions`, or a result that is not below `results`.
fn entries_wrong(log: &[u8], actions: u8, results: u8) -> bool
    ensures { result ≡ entries_wrong actions results log.now }
{
    let (entries, _) = log.as_chunks::<2>();
    entries.iter().any(|[action, sensed]| (actions <= *action) | (results <= *sensed))
}

// The plan has not ended in this program state, and its action there is this one.
fn acts(job: &OpenJob, state: ProgramState, action: u8) -> bool
    requires { state.0 ≤ job.now.head.states }
    ensures { result ≡ acts_so (tables_of job.now.file.now) state action }
{
    state.0 != job.head.states && action == job.action(state)
}

// Follows one entry from the program state and the candidates: none if it cannot be made, or the program state to which it leads. The
// candidates become those after it.
fn follow_entry(
    job: &OpenJob,
    state: ProgramState,
    entry: LogEntry,
    candidates: &mut Candidates,
) -> Option<ProgramState>
    requires { (state.0 ≤ job.now.head.states) × EntryInJob job.now.head entry × WorldsIn job.now.head candidates.old.sets }
    ensures { Followed (tables_of job.now.file.now) job.now.head state (label_of entry) result candidates.old.sets candidates.new.sets }
{
    if !acts(job, state, entry.action) {
        return None;
    }
    candidates.advance(job, entry);
    if candidates.none_left(job) {
        return None;
    }
    job.target(state, entry.result)
}

// The replay in a file that is not refused, of a log that is not too long and has no wrong entry.
fn replay_in_job(job: &OpenJob, log: &[u8]) -> Result<(), ReplayError>
    requires { (length log.now ≤ 65534) × (entries_wrong job.now.head.actions job.now.head.results log.now ≡ false) }
    ensures { ReplayedRight (tables_of job.now.file.now) log.now result }
{
    let (entries, _) = log.as_chunks::<2>();
    let mut state = job.head.first;
    let mut candidates = Candidates::first(job);
    for (i, bytes) in entries.iter().enumerate() {
        let Some(to) = follow_entry(job, state, entry_of(bytes), &mut candidates) else {
            return Err(ReplayError::ImpossibleAt(i as u16));
        };
        state = to;
    }
    Ok(())
}

// The replay of a log, for any file and any log.
pub fn replay_log(file: &[u8], log: &[u8]) -> Result<(), ReplayError>
    ensures { Replayed file.now log.now result }
{
    let job = open_job(file)?;
    if log_size_wrong(log) {
        return Err(ReplayError::Refused(Refusal::LogSize));
    }
    if entries_wrong(log, job.head.actions, job.head.results) {
        return Err(ReplayError::Refused(Refusal::LogEntry));
    }
    replay_in_job(&job, log)
}
