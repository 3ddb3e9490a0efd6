// The working list of the check's search (01, "The check"): a word for each pair that was found, and the line that is read off such words.
//
// These functions are for the search in the crates above and not for users: they ask for numbers that fit in a word, and for a list that
// the search has made.
#![tactic(auto)]

use lamp_line::Pair;

pub mod line;
pub mod list;

// A pair in the working list, with the member and the kind of lamp by which it was found: with kind 0 the member is a start, with any other
// kind it is the place of a pair in the list. Pairs that were found by the same line stand together, as a group; `opens` says that the
// pair is the first of its group (02, (f)).
#[derive(Clone, Copy)]
pub struct Placed {
    pub pair: Pair,
    pub member: usize,
    pub kind: u8,
    pub opens: bool,
}
