// Both checks, with lent buffers of given sizes: a line buffer full of 7s, a working list full of 9s, and words of a given content.
ghost use Rattle.std.specs.Prelude.{◌≤◌, IfOk};

use crate::checking::{check_lines, print_told};
use crate::kept::is_kept;
use row_cases::reading::{read_u16, read_u32, read_u64};
use std::io;
use std::io::Read;

// A size of at most `most`. It fails where a read of the row does.
fn read_size(rows: &mut impl Read, most: usize) -> io::Result<usize>
    ensures { IfOk result (λ size. size ≤ most) }
{
    Ok(most.min(usize::from(read_u16(rows)?)))
}

// Checks with these buffers. The answer is printed, and whether the bytes that must be kept are kept.
fn check_lent(
    rt: &impl Print,
    file: &[u8],
    longest: u32,
    line: &mut [u8],
    list: &mut [u32],
    words: &mut [u64],
    content: u64,
) -> io::Result<()> {
    let told = check_lines(file, longest, line, list, words);
    print_told(rt, told, line)?;
    if is_kept(told, line, list, words, content) {
        print!(rt; ", kept")
    } else {
        print!(rt; ", changed")
    }
}

// Checks, up to a number of lamps or all lines, which is read with the sizes of the buffers and the content of the words.
pub fn check_with_buffers(rt: &impl Print, rows: &mut impl Read, file: &[u8]) -> io::Result<()> {
    let longest = read_u32(rows)?;
    let lamps = read_size(rows, 4097)?;
    let numbers = read_size(rows, 4160)?;
    let count = read_size(rows, 65)?;
    let content = read_u64(rows)?;
    let mut line = [7u8; 4097];
    let mut list = [9u32; 4160];
    let mut words = [content; 65];
    check_lent(
        rt,
        file,
        longest,
        &mut line[..lamps],
        &mut list[..numbers],
        &mut words[..count],
        content,
    )
}
