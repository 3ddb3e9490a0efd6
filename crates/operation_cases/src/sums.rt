// The sum of bits.
ghost use Rattle.std.specs.Prelude.{◌≤◌, length};

use pair_bits::sum_bits;
use row_cases::reading::read_u64;
use std::io;
use std::io::Read;

// Writes bytes to words, eight bytes to a word, the lowest first, as far as both go. Answers the words that they fill.
fn put_bytes<'a>(words: &'a mut [u64], bytes: &[u8]) -> &'a [u64]
    ensures { length result.now ≤ length words.old }
{
    let (eights, _) = bytes.as_chunks();
    let count = words.len().min(eights.len());
    for (word, eight) in words.iter_mut().zip(eights) {
        *word = u64::from_le_bytes(*eight);
    }
    &words[..count]
}

// Sums the first bits of words, which come as bytes: how many bits is read.
pub fn sum(rt: &impl Print, rows: &mut impl Read, bytes: &[u8]) -> io::Result<()> {
    let mut words = [0u64; 68];
    let words = put_bytes(&mut words, bytes);
    let bits = read_u64(rows)?;
    print!(rt; " {bits} bits, {}", sum_bits(words, bits as usize))
}
