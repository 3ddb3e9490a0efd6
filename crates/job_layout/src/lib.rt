// The layout of a job file (01, "Job file"): its head, and the places of its entries.
#![tactic(auto)]

ghost use Rattle.job_layout.specs.inner.Laid.{Laid};

use lamp_line::ProgramState;

pub mod head;
mod places;

// How many actions, world states, kinds of lamps, results and kinds of ends there are: A, W, C, R and E. Byte 6 of a file is E less one, so that E
// may need nine bits.
#[derive(Clone, Copy)]
pub struct Sizes {
    pub actions: u8,
    pub worlds: u8,
    pub kinds: u8,
    pub results: u8,
    pub end_kinds: u16,
}

// A part of the file: where it begins, and how many bytes it has.
#[derive(Clone, Copy)]
pub struct Part {
    pub offset: u16,
    pub length: u16,
}

// What the reader answers for a file that is not refused: bytes 0 to 6, which are A, W, C, R, S, the first program state and E less
// one, and the offset and length of each part. The program states are 0 to `states`, the kinds of lamps 1 to `kinds`, and the kinds of
// ends 0 to `ends`.
#[derive(Clone, Copy)]
pub struct Job {
    pub actions: u8,
    pub worlds: u8,
    pub kinds: u8,
    pub results: u8,
    pub states: u8,
    pub first: ProgramState,
    pub ends: u8,
    pub marks: Part,
    pub cells: Part,
    pub starts: Part,
    pub goal: Part,
    pub plan: Part,
}

// A file and its head, once refusals 1 to 4 are ruled out: the numbers of the head are in range, and each part lies in the file.
#[derive(Clone, Copy)]
pub struct LaidJob<'a> {
    pub file: &'a [u8],
    pub head: Job,
    ghost laid: { Laid file.now head },
}
