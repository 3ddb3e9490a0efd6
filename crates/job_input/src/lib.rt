// What the program does: it takes a job file from standard input and writes the line that `answer_line` makes of it to standard output. The
// content of the line is proved in answer_line; this crate adds only reading and writing. Started with arguments, it answers nothing and
// says how it is used.
#![tactic(auto)]

ghost use Rattle.std.specs.Prelude.{◌≡◌, ◌≤◌, IfOk, length};

use answer_line::answer_line;
use std::env::{Env, FillError};
use std::io;
use std::io::Read;

// Reads until the input ends or the buffer is full, and answers how many bytes came. One read may give fewer bytes than the input still has.
// It fails where a read does, and nowhere else; the buffer may then hold any bytes.
fn read_input(input: &mut impl Read, buf: &mut [u8]) -> io::Result<usize>
    ensures size { IfOk result (λ size. size ≤ length buf.new) }
    ensures kept { length buf.new ≡ length buf.old }
{
    let mut size = 0;
    while size < buf.len() {
        let more = input.read(&mut buf[size..])?;
        if more == 0 {
            break;
        }
        size += more;
    }
    Ok(size)
}

// Says on standard error which stream failed, and why. Where that cannot be written, nobody is there to be told.
fn complain(rt: &impl Eprint, stream: &str, error: io::Error) {
    let _ = eprintln!(rt; "{stream}: {error}");
}

// Writes the line for a file.
fn write_answer(rt: &(impl Print + Eprint), file: &[u8]) {
    let mut line = [0u8; 65536];
    let length = answer_line(file, &mut line);
    if let Err(error) = rt.write_all(&line[..length]) {
        complain(rt, "standard output", error);
    }
}

// Answers the job file on standard input with one line on standard output. The buffer has one byte more than the longest file that is
// not refused for its size: a longer input fills it, and is refused.
fn answer_input(rt: &(impl Input + Print + Eprint)) {
    let mut file = [0u8; 65536];
    match read_input(&mut rt.reader(), &mut file) {
        Ok(size) => write_answer(rt, &file[..size]),
        Err(error) => complain(rt, "standard input", error),
    }
}

// Says on standard error how the program is used. Where that cannot be written, nobody is there to be told.
fn explain_use(rt: &impl Eprint) {
    let _ = rt.eprint(
        "usage: nessflurry < JOB\n\
         It takes no arguments: for the job file on standard input it prints one line, and its exit status is always 0.\n\
         For files by name, and a status that tells: lampline check FILE..\n",
    );
}

// Whether the program was started with an argument, be it an empty one: the name by which it was started is argument 0.
fn has_arguments(rt: &impl Env) -> bool {
    let mut argument = [0u8; 1];
    !matches!(rt.arg(1, &mut argument), Err(FillError::NotPresent))
}

// The whole program.
pub fn answer_or_explain(rt: &(impl Env + Input + Print + Eprint)) {
    if has_arguments(rt) {
        explain_use(rt);
    } else {
        answer_input(rt);
    }
}
