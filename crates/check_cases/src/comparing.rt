// Both checks beside plain means: a search over all lines of up to four lamps, and a count of the pairs that are reached.
use crate::checking::{Told, check_lines, print_told};
use crate::plain_count::reached_pairs;
use crate::plain_search::first_failing;
use row_cases::reading::read_u32;
use std::io;
use std::io::Read;

// What the plain means tell: what the search finds, and where it finds nothing, for all lines the number of pairs.
fn plain_told(file: &[u8], longest: u32, line: &mut [u8]) -> Option<Told> {
    match first_failing(file, line) {
        Some(Told::NoneUpTo(_)) if 65536 <= longest => Some(Told::Accepted(reached_pairs(file))),
        found => found,
    }
}

// Whether the line at the front of a buffer is the one at the end of another.
fn is_same_line(lamps: usize, buffer: &[u8], line: &[u8]) -> bool {
    lamps <= buffer.len() && line.ends_with(&buffer[..lamps])
}

// Compares a check, up to a number of lamps or of all lines, with the plain means. The buffers are large enough for every job of these rows.
pub fn compare(rt: &impl Print, rows: &mut impl Read, file: &[u8]) -> io::Result<()> {
    let longest = read_u32(rows)?;
    let mut buffer = [1u8; 20];
    let mut list = [0u32; 20];
    let mut words = [0u64; 1];
    let told = check_lines(file, longest, &mut buffer, &mut list, &mut words);
    let mut line = [0u8; 4];
    let line = &mut line[..longest.min(4) as usize];
    let plain = plain_told(file, longest, line);
    print_told(rt, told, &buffer)?;
    if plain == Some(told) && is_same_line(told.lamps(), &buffer, line) {
        print!(rt; ", as the plain search")
    } else {
        print!(rt; ", not as the plain search")
    }
}
