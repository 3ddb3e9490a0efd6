// What the test programs print alike. Each of these fails where a write does.
use lamp_line::Refusal;
use std::io;

// A refusal, with its number.
pub fn print_refused(rt: &impl Print, refusal: Refusal) -> io::Result<()> {
    print!(rt; " refused {}", refusal.number())
}

// Each of the bytes as a number.
pub fn print_bytes(rt: &impl Print, bytes: &[u8]) -> io::Result<()> {
    for byte in bytes {
        print!(rt; " {byte}")?;
    }
    Ok(())
}
