// The answers of the operations as numbers for C: each function puts the fields of one operation's answer into one word. They are for the
// exported functions in the crate above.
#![tactic(auto)]

ghost use Rattle.std.specs.Prelude.{◌≡◌};
ghost use Rattle.answer_words.specs.AnswerWords.{answer_word, refused_word, done_word, read_word, ending_code, walk_word, run_word};
ghost use Rattle.answer_words.specs.AnswerWords.{failed_word, error_word, check_word, short_word, cabinet_word, begin_word, action_word, report_word, replay_word, fill_word};

use cabinet::ReportError;
use job_layout::Job;
use lamp_line::{Cabinet, Ending, Refusal};
use lamp_walk::Walked;
use line_run::Ran;
use log_replay::ReplayError;
use plan_check::{CheckError, Failure, NoneUpTo};

// The codes, besides 1 to 4, which are the numbers of the failure kinds.
const GOAL: u8 = 0;

const STOPPED: u8 = 5;

const ARRIVED: u8 = 6;

const ENDED: u8 = 7;

const IMPOSSIBLE: u8 = 8;

const NONE_UP_TO: u8 = 9;

const REFUSED: u8 = 255;

// The five fields as one word.
fn answer_word(refusal: u8, code: u8, state: u8, world: u8, count: u32) -> u64
    ensures { result ≡ answer_word refusal code state world count }
{
    refusal as u64
        + 256 * code as u64
        + 65536 * state as u64
        + 16777216 * world as u64
        + 4294967296 * count as u64
}

// A refusal with no state.
fn refused_word(refusal: Refusal) -> u64
    ensures { result ≡ refused_word refusal }
{
    answer_word(refusal.number(), REFUSED, 0, 0, 0)
}

// An answer that says no more than that the call is not refused.
fn done_word() -> u64
    ensures { result ≡ done_word }
{
    answer_word(0, GOAL, 0, 0, 0)
}

pub fn read_word(reading: Result<Job, Refusal>) -> u64
    ensures { result ≡ read_word reading }
{
    match reading {
        Ok(_) => done_word(),
        Err(refusal) => refused_word(refusal),
    }
}

// The code of an ending.
fn ending_code(ending: Ending) -> u8
    ensures { result ≡ ending_code ending }
{
    match ending {
        Ending::Goal => GOAL,
        Ending::Failure(kind) => kind.number(),
    }
}

pub fn walk_word(answer: Result<Walked, Refusal>) -> u64
    ensures { result ≡ walk_word answer }
{
    match answer {
        Ok(Walked::Ended(ending, steps)) => answer_word(0, ending_code(ending), 0, 0, steps),
        Ok(Walked::Arrived(pair, steps)) => {
            answer_word(0, ARRIVED, pair.state.0, pair.world.0, steps)
        }
        Err(refusal) => refused_word(refusal),
    }
}

pub fn run_word(answer: Result<Ran, Refusal>) -> u64
    ensures { result ≡ run_word answer }
{
    match answer {
        Ok(Ran::Ended(ending, steps)) => answer_word(0, ending_code(ending), 0, 0, steps),
        Ok(Ran::Stopped(steps)) => answer_word(0, STOPPED, 0, 0, steps),
        Err(refusal) => refused_word(refusal),
    }
}

// A failure that a check names.
fn failed_word(failure: Failure) -> u64
    ensures { result ≡ failed_word failure }
{
    answer_word(
        0,
        failure.kind.number(),
        failure.start.0,
        failure.end,
        failure.lamps as u32,
    )
}

// A check that does not accept.
fn error_word(error: CheckError) -> u64
    ensures { result ≡ error_word error }
{
    match error {
        CheckError::Failed(failure) => failed_word(failure),
        CheckError::Refused(refusal) => refused_word(refusal),
    }
}

pub fn check_word(answer: Result<u32, CheckError>) -> u64
    ensures { result ≡ check_word answer }
{
    match answer {
        Ok(count) => answer_word(0, GOAL, 0, 0, count),
        Err(error) => error_word(error),
    }
}

pub fn short_word(answer: Result<NoneUpTo, CheckError>) -> u64
    ensures { result ≡ short_word answer }
{
    match answer {
        Ok(NoneUpTo(longest)) => answer_word(0, NONE_UP_TO, 0, 0, longest as u32),
        Err(error) => error_word(error),
    }
}

// A cabinet's state, with a code and the number of a refusal or 0.
fn cabinet_word(number: u8, code: u8, state: Cabinet) -> u64
    ensures { result ≡ cabinet_word number code state }
{
    answer_word(number, code, state.state.0, 0, state.lamps as u32)
}

pub fn begin_word(answer: Result<Cabinet, Refusal>) -> u64
    ensures { result ≡ begin_word answer }
{
    match answer {
        Ok(state) => cabinet_word(0, GOAL, state),
        Err(refusal) => refused_word(refusal),
    }
}

pub fn action_word(answer: Result<Option<u8>, Refusal>) -> u64
    ensures { result ≡ action_word answer }
{
    match answer {
        Ok(Some(action)) => answer_word(0, GOAL, action, 0, 0),
        Ok(None) => answer_word(0, ENDED, 0, 0, 0),
        Err(refusal) => refused_word(refusal),
    }
}

pub fn report_word(answer: Result<Cabinet, ReportError>) -> u64
    ensures { result ≡ report_word answer }
{
    match answer {
        Ok(state) => cabinet_word(0, GOAL, state),
        Err(error) => cabinet_word(error.refusal.number(), REFUSED, error.state),
    }
}

pub fn replay_word(answer: Result<(), ReplayError>) -> u64
    ensures { result ≡ replay_word answer }
{
    match answer {
        Ok(()) => done_word(),
        Err(ReplayError::ImpossibleAt(place)) => answer_word(0, IMPOSSIBLE, 0, 0, place as u32),
        Err(ReplayError::Refused(refusal)) => refused_word(refusal),
    }
}

pub fn fill_word(answer: Result<(), Refusal>) -> u64
    ensures { result ≡ fill_word answer }
{
    match answer {
        Ok(()) => done_word(),
        Err(refusal) => refused_word(refusal),
    }
}
