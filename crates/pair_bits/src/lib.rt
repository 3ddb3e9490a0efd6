// A set of pairs as bits, one for each pair, in 64-bit words that the caller lends: cleared, read, set and summed.
//
// These functions are for the crates above and not for users. Those that clear, read and set ask for words that have room for the
// bits; the sum asks for nothing.
#![tactic(auto)]

ghost use Rattle.std.specs.Prelude.{◌≡◌, ◌*◌, ◌<◌, ◌≤◌, length};
ghost use Rattle.pair_bits.specs.Sum.{bit_at, SumIs};
ghost use Rattle.pair_bits.specs.inner.Bits.{Cleared, OnlySet};

use word_bits::{has_bit, with_bit};

// Clears the words that hold the first n bits, whatever they held. Computed as (n + 63) / 64, their number would ask for a bound on n.
pub fn clear_bits(words: &mut [u64], n: usize)
    requires { n ≤ length words.old * 64 }
    ensures { Cleared words.new n }
{
    let count = n / 64 + (n % 64 + 63) / 64;
    words[..count].fill(0);
}

// Bit i is set.
pub fn is_set(words: &[u64], i: usize) -> bool
    requires { i < length words.now * 64 }
    ensures { result ≡ bit_at words.now i }
{
    has_bit(words[i / 64], i % 64)
}

// Sets bit i, and no other.
pub fn set_bit(words: &mut [u64], i: usize)
    requires { i < length words.old * 64 }
    ensures { OnlySet words.old words.new i }
{
    let at = i / 64;
    words[at] = with_bit(words[at], i % 64);
}

// The sum of the first n bits, whatever the words hold and whatever lies behind these bits (02, (d)). The words that the bits fill are
// taken whole, and the next one without its bits behind the first n. Where the bits end with a word, that leaves nothing of the next one.
pub fn sum_bits(words: &[u64], n: usize) -> usize
    ensures { SumIs words.now n result }
{
    let filled = n / 64;
    let mut sum = 0;
    for word in &words[..filled.min(words.len())] {
        sum += u64::count_ones(*word) as usize;
    }
    if let Some(&word) = words.get(filled) {
        let last = word % (1u64 << (n % 64));
        sum += u64::count_ones(last) as usize;
    }
    sum
}
