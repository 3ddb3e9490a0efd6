// The sum of the pairs' bits as a function for C, for the tests and the benchmark of outside/. It is in a library of its own and not
// among the operations: a check says nothing of what it leaves in the words, so its callers have nothing to sum.
#![tactic(auto)]

ghost use Rattle.pair_bits.specs.Sum.{SumIs};

use pair_bits::sum_bits;

#[unsafe(no_mangle)]
pub extern "C" fn pair_sum(words: &[u64], bits: usize) -> usize
    ensures { SumIs words.now bits result }
{
    sum_bits(words, bits)
}
