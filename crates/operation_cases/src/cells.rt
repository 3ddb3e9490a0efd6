// Cells from rules.
use cell_filling::fill_cells;
use job_layout::Sizes;
use row_cases::printing::{print_bytes, print_refused};
use row_cases::reading::{read_byte, read_u16};
use std::io;
use std::io::Read;

// A, W, C, R and E.
fn read_sizes(rows: &mut impl Read) -> io::Result<Sizes> {
    Ok(Sizes {
        actions: read_byte(rows)?,
        worlds: read_byte(rows)?,
        kinds: read_byte(rows)?,
        results: read_byte(rows)?,
        end_kinds: read_u16(rows)?,
    })
}

// Fills a part, and prints it.
fn fill_part(rt: &impl Print, rules: &[u8], sizes: Sizes, part: &mut [u8]) -> io::Result<()> {
    match fill_cells(rules, sizes, part) {
        Ok(()) => print!(rt; " filled")?,
        Err(refusal) => print_refused(rt, refusal)?,
    }
    print!(rt; ",")?;
    print_bytes(rt, part)
}

// Fills a part that is full of sevens. Its length is read after the numbers of the job.
pub fn fill(rt: &impl Print, rows: &mut impl Read, rules: &[u8]) -> io::Result<()> {
    let sizes = read_sizes(rows)?;
    let mut part = [7u8; 72];
    let length = part.len().min(usize::from(read_byte(rows)?));
    fill_part(rt, rules, sizes, &mut part[..length])
}
