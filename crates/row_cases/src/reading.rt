// A row is read piece by piece, in the order in which tools/case_input writes it: numbers, and fields, which are lists of bytes. What reads a row fails
// where a read of its input does, and nowhere else; a buffer may then hold any bytes, as many as before.
ghost use Rattle.std.specs.Prelude.{◌≡◌, ◌≤◌, IfOk, length};

use std::io;
use std::io::Read;

// A byte. After the last one it is 0.
pub fn read_byte(rows: &mut impl Read) -> io::Result<u8> {
    let mut byte = [0u8; 1];
    if rows.read(&mut byte)? == 0 {
        return Ok(0);
    }
    Ok(byte[0])
}

// The bytes of a number, the lowest first.
fn read_bytes<const N: usize>(rows: &mut impl Read) -> io::Result<[u8; N]> {
    let mut bytes = [0u8; N];
    for byte in bytes.iter_mut() {
        *byte = read_byte(rows)?;
    }
    Ok(bytes)
}

// A number of two bytes, the lower first.
pub fn read_u16(rows: &mut impl Read) -> io::Result<u16> {
    Ok(u16::from_le_bytes(read_bytes(rows)?))
}

// A number of four bytes, the lowest first.
pub fn read_u32(rows: &mut impl Read) -> io::Result<u32> {
    Ok(u32::from_le_bytes(read_bytes(rows)?))
}

// A number of eight bytes, the lowest first.
pub fn read_u64(rows: &mut impl Read) -> io::Result<u64> {
    Ok(u64::from_le_bytes(read_bytes(rows)?))
}

// A run, which is a piece of bytes repeated up to a size: it is written to the front of the buffer, as far as this goes. Behind the piece each byte is
// the one that stands one piece before. Answers how many bytes were written.
fn read_run(rows: &mut impl Read, buffer: &mut [u8]) -> io::Result<usize>
    ensures size { IfOk result (λ size. size ≤ length buffer.new) }
    ensures kept { length buffer.new ≡ length buffer.old }
{
    let piece = usize::from(read_u16(rows)?);
    let size = buffer.len().min(read_u32(rows)? as usize);
    for byte in &mut buffer[..size.min(piece)] {
        *byte = read_byte(rows)?;
    }
    for at in piece..size {
        buffer[at] = buffer[at - piece];
    }
    Ok(size)
}

// A field, which is a list of runs: it is written to the front of the buffer. Answers how many bytes it has there.
pub fn read_field(rows: &mut impl Read, buffer: &mut [u8]) -> io::Result<usize>
    ensures size { IfOk result (λ size. size ≤ length buffer.new) }
    ensures kept { length buffer.new ≡ length buffer.old }
{
    let runs = read_u16(rows)?;
    let mut size = 0;
    for _ in 0..runs {
        size += read_run(rows, &mut buffer[size..])?;
    }
    Ok(size)
}

// A field as the part of the buffer that it fills.
pub fn read_slice<'a>(rows: &mut impl Read, buffer: &'a mut [u8]) -> io::Result<&'a [u8]>
    ensures { IfOk result (λ part. length part.now ≤ length buffer.old) }
{
    let size = read_field(rows, buffer)?;
    Ok(&buffer[..size])
}

// Prints a field as it is.
pub fn print_field(rt: &impl Print, rows: &mut impl Read) -> io::Result<()> {
    let mut text = [0u8; 4096];
    rt.write_all(read_slice(rows, &mut text)?)
}
