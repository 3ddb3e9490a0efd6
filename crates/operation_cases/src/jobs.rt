// What the reader answers for a file, and whether a file has the bytes of the theorem on bench line G.
use bench_line::{bench, five_states};
use job_layout::Job;
use row_cases::printing::print_refused;
use row_cases::reading::read_byte;
use std::io;
use std::io::Read;

// Bytes 0 to 6, and the offset and the length of each of the five parts.
fn print_job(rt: &impl Print, job: Job) -> io::Result<()> {
    print!(rt;
        " {} {} {} {}",
        job.actions, job.worlds, job.kinds, job.results
    )?;
    print!(rt; " {} {} {}", job.states, job.first.0, job.ends)?;
    for part in [job.marks, job.cells, job.starts, job.goal, job.plan] {
        print!(rt; " {} {}", part.offset, part.length)?;
    }
    Ok(())
}

// Reads a file.
pub fn read(rt: &impl Print, file: &[u8]) -> io::Result<()> {
    match job_file::read_job(file) {
        Ok(job) => print_job(rt, job),
        Err(refusal) => print_refused(rt, refusal),
    }
}

// The bytes that bench_line's contracts say to be those of G, or of its variant with five states.
fn has_bytes_of_theorem(states: u8, file: &[u8]) -> bool {
    match states {
        5 => file == five_states().as_slice(),
        _ => file == bench().as_slice(),
    }
}

// Whether a file is the bench line of the theorem with this number of states.
pub fn compare_bytes(rt: &impl Print, rows: &mut impl Read, file: &[u8]) -> io::Result<()> {
    if has_bytes_of_theorem(read_byte(rows)?, file) {
        print!(rt; " the same bytes")
    } else {
        print!(rt; " other bytes")
    }
}
