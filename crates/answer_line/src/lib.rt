// The program's line for a job file, as bytes (01, "Bench line G", last paragraph; 02, (c)). `answer_line` asks nothing of its caller.
#![tactic(auto)]

mod text;

ghost use Rattle.std.specs.Prelude.{[], ◌∷◌, ◌++◌, ◌+◌, ◌≤◌, length};
ghost use Rattle.lamp_line.specs.Endings.{kind_number};
ghost use Rattle.lamp_line.specs.Check.{failed};
ghost use Rattle.plan_check.specs.CheckAnswers.{failed_line};
ghost use Rattle.answer_line.specs.AnswerLine.{fails_text, text_line, verdict_line, AnswerIn};
ghost use Rattle.answer_line.specs.inner.Writing.{Wrote};

use lamp_line::{FailureKind, WorldState};
use plan_check::{CheckError, Failure, check_plan};
use text::Line;

// Writes a line of a word and a number.
fn word_and_number(word: &[u8], n: u32, out: &mut [u8]) -> usize
    requires { length word.now + 12 ≤ length out.old }
    ensures { Wrote out.old 0 (text_line word.now (n ∷ [])) result out.new }
{
    let mut line = Line { bytes: out, len: 0 };
    line.word(word);
    line.number(n);
    line.byte(b'\n');
    line.len
}

// Writes the line for a failure on a line with lamps of these kinds and this kind of end.
fn failure_line(
    kind: FailureKind,
    start: WorldState,
    kinds: &[u8],
    end: u8,
    out: &mut [u8],
) -> usize
    requires { (length kinds.now ≤ 4097) × (65536 ≤ length out.old) }
    ensures { Wrote out.old 0
        (text_line fails_text (kind_number kind ∷ start.0 ∷ length kinds.now ∷ (kinds.now ++ (end ∷ [])))) result
        out.new }
{
    let mut line = Line { bytes: out, len: 0 };
    line.word(b"fails");
    line.number(u32::from(kind.number()));
    line.number(u32::from(start.0));
    line.number(kinds.len() as u32);
    for kind in kinds {
        line.number(u32::from(*kind));
    }
    line.number(u32::from(end));
    line.byte(b'\n');
    line.len
}

// Writes the line for a failure whose lamps are at the front of the line buffer.
fn failed_line(failure: Failure, line: &[u8], out: &mut [u8]) -> usize
    requires { (failure.lamps ≤ length line.now) × (length line.now ≤ 4097) × (65536 ≤ length out.old) }
    ensures { Wrote out.old 0
        (verdict_line (failed failure.kind failure.start (failed_line failure line.now))) result out.new }
{
    let kind = failure.kind;
    let lamps = failure.lamps as usize;
    failure_line(kind, failure.start, &line[..lamps], failure.end, out)
}

// Writes the line for a file at the front of a buffer, and answers how many bytes it has. The buffers that the check is lent are large
// enough for every job, so only the file can be refused.
pub fn answer_line(file: &[u8], out: &mut [u8; 65536]) -> usize
    ensures { AnswerIn file.now result out.old out.new }
{
    let mut line = [0u8; 4097];
    let mut list = [0u32; 4160];
    let mut words = [0u64; 65];
    let answer = check_plan(file, &mut line, &mut list, &mut words);
    match answer {
        Ok(count) => word_and_number(b"accepted", count, out),
        Err(CheckError::Failed(failure)) => failed_line(failure, &line, out),
        Err(CheckError::Refused(refusal)) => {
            word_and_number(b"refused", u32::from(refusal.number()), out)
        }
    }
}
