// The operations as functions for C, with numbers and lent buffers only. `nessflurry_version` reports the version. Each of the others calls
// the operation that it is named after, and answers what it answers as one number. They are called raw because the pointer of a slice
// must not be NULL. C programs call the functions of include/nessflurry.h, which replace a NULL that has no elements by another pointer.
#![tactic(auto)]

ghost use Rattle.std.specs.Prelude.{◌≡◌, length};
ghost use Rattle.lamp_line.specs.Tables.{program_state, world_state, line_of};
ghost use Rattle.lamp_line.specs.Run.{pair};
ghost use Rattle.job_file.specs.Reading.{reading_of};
ghost use Rattle.lamp_walk.specs.WalkAnswers.{walk_answer};
ghost use Rattle.line_run.specs.RunAnswers.{run_answer};
ghost use Rattle.cabinet.specs.CabinetAnswers.{begin_answer, action_answer, report_answer};
ghost use Rattle.cell_filling.specs.FillAnswers.{fill_answer, part_after};
ghost use Rattle.answer_words.specs.AnswerWords.{read_word, head_numbers, head_after, walk_word, run_word, CheckedWord, CheckedUpToWord, begin_word, action_word, report_word, ReplayedWord, fill_word};
ghost use Rattle.nessflurry_c.specs.Version.{version};

use answer_words::{
    action_word, begin_word, check_word, fill_word, read_word, replay_word, report_word, run_word,
    short_word, walk_word,
};
use cabinet::{begin, next_action, report};
use cell_filling::fill_cells;
use job_file::read_job;
use job_layout::{Job, Sizes};
use lamp_line::{Cabinet, Pair, ProgramState, WorldState};
use lamp_walk::walk_lamp;
use line_run::run_line;
use log_replay::replay_log;
use plan_check::{check_plan, check_up_to};

// The version of include/nessflurry.h.
const VERSION: u32 = 3;

#[unsafe(no_mangle)]
pub extern "C" fn nessflurry_version() -> u32
    ensures { result ≡ version }
{
    VERSION
}

// The numbers that the reader writes for a job, in their order.
fn head_numbers(job: Job) -> [u16; 17]
    ensures { result ≡ head_numbers job }
{
    [
        job.actions as u16,
        job.worlds as u16,
        job.kinds as u16,
        job.results as u16,
        job.states as u16,
        job.first.0 as u16,
        job.ends as u16,
        job.marks.offset,
        job.marks.length,
        job.cells.offset,
        job.cells.length,
        job.starts.offset,
        job.starts.length,
        job.goal.offset,
        job.goal.length,
        job.plan.offset,
        job.plan.length,
    ]
}

#[unsafe(no_mangle)]
pub extern "C" fn nessflurry_raw_read(file: &[u8], head: &mut [u16; 17]) -> u64
    ensures answer { result ≡ read_word (reading_of file.now) }
    ensures written { head.new ≡ head_after (reading_of file.now) head.old }
{
    let reading = read_job(file);
    if let Ok(job) = reading {
        *head = head_numbers(job);
    }
    read_word(reading)
}

#[unsafe(no_mangle)]
pub extern "C" fn nessflurry_raw_walk(file: &[u8], state: u8, world: u8, column: u8) -> u64
    ensures { result ≡ walk_word (walk_answer file.now (pair (program_state state) (world_state world)) column) }
{
    let pair = Pair {
        state: ProgramState(state),
        world: WorldState(world),
    };
    walk_word(walk_lamp(file, pair, column))
}

#[unsafe(no_mangle)]
pub extern "C" fn nessflurry_raw_run(
    file: &[u8],
    start: u8,
    line: &[u8],
    end: u8,
    limit: u32,
) -> u64
    ensures { result ≡ run_word (run_answer file.now (world_state start) (line_of end line.now) limit) }
{
    run_word(run_line(file, WorldState(start), line, end, limit))
}

#[unsafe(no_mangle)]
pub extern "C" fn nessflurry_raw_check(
    file: &[u8],
    line: &mut [u8],
    list: &mut [u32],
    words: &mut [u64],
) -> u64
    ensures { CheckedWord file.now result
        (record { line = line.old; list = list.old; words = words.old })
        (record { line = line.new; list = list.new; words = words.new }) }
{
    check_word(check_plan(file, line, list, words))
}

#[unsafe(no_mangle)]
pub extern "C" fn nessflurry_raw_check_up_to(
    file: &[u8],
    longest: u16,
    line: &mut [u8],
    list: &mut [u32],
    words: &mut [u64],
) -> u64
    ensures { CheckedUpToWord file.now longest result
        (record { line = line.old; list = list.old; words = words.old })
        (record { line = line.new; list = list.new; words = words.new }) }
{
    short_word(check_up_to(file, longest, line, list, words))
}

#[unsafe(no_mangle)]
pub extern "C" fn nessflurry_raw_begin(file: &[u8], lamps: u16) -> u64
    ensures { result ≡ begin_word (begin_answer file.now lamps) }
{
    begin_word(begin(file, lamps))
}

#[unsafe(no_mangle)]
pub extern "C" fn nessflurry_raw_action(file: &[u8], state: u8, lamps: u16) -> u64
    ensures { result ≡ action_word (action_answer file.now (record { state = program_state state; lamps = lamps })) }
{
    let cabinet = Cabinet {
        state: ProgramState(state),
        lamps,
    };
    action_word(next_action(file, cabinet))
}

#[unsafe(no_mangle)]
pub extern "C" fn nessflurry_raw_report(file: &[u8], state: u8, lamps: u16, sensed: u8) -> u64
    ensures { result ≡ report_word (report_answer file.now (record { state = program_state state; lamps = lamps }) sensed) }
{
    let cabinet = Cabinet {
        state: ProgramState(state),
        lamps,
    };
    report_word(report(file, cabinet, sensed))
}

#[unsafe(no_mangle)]
pub extern "C" fn nessflurry_raw_replay(file: &[u8], log: &[u8]) -> u64
    ensures { ReplayedWord file.now log.now result }
{
    replay_word(replay_log(file, log))
}

#[unsafe(no_mangle)]
pub extern "C" fn nessflurry_raw_fill_cells(
    rules: &[u8],
    actions: u8,
    worlds: u8,
    kinds: u8,
    results: u8,
    end_kinds: u8,
    part: &mut [u8],
) -> u64
    ensures answer { result ≡ fill_word (fill_answer rules.now
        (record { actions = actions; worlds = worlds; kinds = kinds; results = results; end_kinds = end_kinds }) (length part.old)) }
    ensures written { part.new ≡ part_after (fill_answer rules.now
        (record { actions = actions; worlds = worlds; kinds = kinds; results = results; end_kinds = end_kinds }) (length part.old))
        rules.now (record { actions = actions; worlds = worlds; kinds = kinds; results = results; end_kinds = end_kinds })
        part.old }
{
    let sizes = Sizes {
        actions,
        worlds,
        kinds,
        results,
        end_kinds: u16::from(end_kinds),
    };
    fill_word(fill_cells(rules, sizes, part))
}
