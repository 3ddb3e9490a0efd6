// The candidates of a replay: where the cabinet can be that has written the log so far.
//
// These functions are for the replay in the crate above and not for users.
#![tactic(auto)]

ghost use Rattle.std.specs.Prelude.{◌≡◌, ◌≤◌, ◌<◌};
ghost use Rattle.job_layout.specs.Layout.{job_columns};
ghost use Rattle.job_layout.specs.JobTables.{tables_of};
ghost use Rattle.log_candidates.specs.inner.WorldSets.{label_of, EntryInJob, InWorlds, Adds, Gathered, StartAt, Led, LedFrom};

use job_tables::OpenJob;
use lamp_line::WorldState;
use word_bits::{lowest_bit, with_bit_if, without_lowest};

// An entry of a log.
#[derive(Clone, Copy)]
pub struct LogEntry {
    pub action: u8,
    pub result: u8,
}

// For each column a word, with a bit for each world state in which the cabinet can be there. No job has more than sixteen columns.
#[derive(Drop)]
pub struct Candidates {
    pub sets: [u64; 16],
}

// The set, with the world state if it is a start.
fn add_start(job: &OpenJob, world: WorldState, set: u64) -> u64
    requires { world.0 < job.now.head.worlds }
    ensures { Adds (StartAt (tables_of job.now.file.now) world.0) set result }
{
    with_bit_if(set, world.row(1), job.is_start(world))
}

// The marked starts.
fn marked_starts(job: &OpenJob) -> u64
    ensures { Adds (Gathered (StartAt (tables_of job.now.file.now)) (tables_of job.now.file.now).worlds) 0 result }
{
    let mut set = 0;
    for w in 0..job.head.worlds {
        set = add_start(job, WorldState(w), set);
    }
    set
}

// `to`, with the world state to which the entry leads from this one at the column, if it leads anywhere.
fn add_next(job: &OpenJob, entry: LogEntry, column: u8, world: WorldState, to: u64) -> u64
    requires { EntryInJob job.now.head entry × (column < job_columns job.now.head) × (world.0 < job.now.head.worlds) }
    ensures { Adds (Led (tables_of job.now.file.now) (label_of entry) column world.0) to result }
{
    let cell = job.cell_bytes(entry.action, world, column);
    with_bit_if(to, cell.next.row(1), cell.result == entry.result)
}

// `to`, with the world states to which the entry leads from those of the set at the column. The loop goes from one world state of the
// set to the next.
fn add_all_next(job: &OpenJob, entry: LogEntry, column: u8, set: u64, to: u64) -> u64
    requires { EntryInJob job.now.head entry × (column < job_columns job.now.head) × InWorlds set job.now.head.worlds }
    ensures { Adds (LedFrom (tables_of job.now.file.now) (label_of entry) column set) to result }
{
    let mut rest = set;
    let mut sum = to;
    while rest != 0 {
        let world = WorldState(lowest_bit(rest) as u8);
        sum = add_next(job, entry, column, world, sum);
        rest = without_lowest(rest);
    }
    sum
}

// How many columns the job has.
fn columns(job: &OpenJob) -> u8
    ensures { (result ≡ job_columns job.now.head) × (result ≤ 16) }
{
    job.head.column_count() as u8
}

impl Candidates {
    ghost use Rattle.log_laws.specs.inner.Candidates.{FirstCandidates, NextCandidates};
    ghost use Rattle.log_candidates.specs.inner.WorldSets.{WorldsIn, Holds, LedAt, Stayed, HoldJust, NoneLeft};

    // The candidates before the first entry: the starts, at every column.
    pub fn first(job: &OpenJob) -> Candidates
        ensures { HoldJust job.now.head (FirstCandidates (tables_of job.now.file.now)) result.sets }
    {
        let set = marked_starts(job);
        Candidates { sets: [set; 16] }
    }

    // The candidates after an entry that stays at the lamp: those of each column for themselves.
    fn stay(&mut self, job: &OpenJob, entry: LogEntry)
        requires { EntryInJob job.now.head entry × WorldsIn job.now.head self.old.sets }
        ensures { Stayed (tables_of job.now.file.now) (label_of entry) self.old.sets self.new.sets (job_columns job.now.head) }
    {
        for column in 0..columns(job) {
            let at = column as usize;
            self.sets[at] = add_all_next(job, entry, column, self.sets[at], 0);
        }
    }

    // The world states after an entry that moves on, from the candidates of all columns together.
    fn pass(&self, job: &OpenJob, entry: LogEntry) -> u64
        requires { EntryInJob job.now.head entry × WorldsIn job.now.head self.now.sets }
        ensures { Adds (Gathered (LedAt (tables_of job.now.file.now) (label_of entry) self.now.sets) (job_columns job.now.head)) 0 result }
    {
        let mut to = 0;
        for column in 0..columns(job) {
            to = add_all_next(job, entry, column, self.sets[column as usize], to);
        }
        to
    }

    // The candidates after one more entry. After a lamp is passed, the next may be of any kind, or the line may be at its end.
    pub fn advance(&mut self, job: &OpenJob, entry: LogEntry)
        requires { EntryInJob job.now.head entry × WorldsIn job.now.head self.old.sets }
        ensures { HoldJust job.now.head
            (NextCandidates (tables_of job.now.file.now) (Holds job.now.head self.old.sets) (label_of entry)) self.new.sets }
    {
        if job.moves_on(entry.action) {
            self.sets = [self.pass(job, entry); 16];
            return;
        }
        self.stay(job, entry);
    }

    // There is no candidate.
    pub fn none_left(&self, job: &OpenJob) -> bool
        ensures { NoneLeft job.now.head self.now.sets result }
    {
        self.sets[..columns(job) as usize]
            .iter()
            .all(|set| *set == 0)
    }
}
