// Whether the lent buffers have kept what they must: the line buffer is lent full of 7s, the working list full of 9s, and the words with a
// content that the case chooses.
use crate::checking::Told;

// Whether all items are this one.
fn are_all<T: PartialEq + Copy>(items: &[T], item: T) -> bool {
    items.iter().all(|other| *other == item)
}

// Whether the bytes that must be kept are kept: after a refusal all that was lent, after a failure all bytes of the line buffer that follow the line,
// and where no line fails the whole line buffer.
pub fn is_kept(told: Told, line: &[u8], list: &[u32], words: &[u64], content: u64) -> bool {
    match told {
        Told::Accepted(_) | Told::NoneUpTo(_) => are_all(line, 7),
        Told::Failed { lamps, .. } => are_all(&line[lamps.min(line.len())..], 7),
        Told::Refused(_) => are_all(line, 7) && are_all(list, 9) && are_all(words, content),
    }
}
