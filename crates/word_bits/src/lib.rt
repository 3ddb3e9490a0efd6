// A set of numbers below 64 as the bits of one word.
//
// These functions are for the crates above and not for users: each asks for a number below 64.
#![tactic(auto)]

ghost use Rattle.std.specs.Prelude.{◌≡◌, ◌<◌};
ghost use Rattle.word_bits.specs.Bits.{has_bit};
ghost use Rattle.word_bits.specs.inner.WordBits.{OnlyAdded, AddedIf, Lowest, WithoutLowest};

// Bit i is set.
pub fn has_bit(word: u64, i: usize) -> bool
    requires { i < 64 }
    ensures { result ≡ has_bit word i }
{
    (word >> i) % 2 == 1
}

// The word with bit i set, and its other bits as they are.
pub fn with_bit(word: u64, i: usize) -> u64
    requires { i < 64 }
    ensures { OnlyAdded word result i }
{
    word | (1u64 << i)
}

// The word with bit i set if `add` says so, and its other bits as they are. There is no jump in it, which a processor could foresee wrongly.
pub fn with_bit_if(word: u64, i: usize, add: bool) -> u64
    requires { i < 64 }
    ensures { AddedIf add word result i }
{
    word | ((add as u64) << i)
}

// The lowest bit that is set, of a word that is not 0.
pub fn lowest_bit(word: u64) -> usize
    requires { 0 < word }
    ensures { Lowest word result }
{
    u64::trailing_zeros(word) as usize
}

// The word without the lowest bit that is set, of a word that is not 0.
pub fn without_lowest(word: u64) -> u64
    requires { 0 < word }
    ensures { WithoutLowest word result }
{
    word & (word - 1)
}
