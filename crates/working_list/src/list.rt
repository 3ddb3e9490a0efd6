// The words of the working list: a placed pair as one 32-bit number, and back; and where a group of them ends.
ghost use Rattle.std.specs.Prelude.{◌≡◌, ℕ, ◌≤◌, ◌<◌, length, take};
ghost use Rattle.search_laws.specs.inner.Entries.{group_end};
ghost use Rattle.working_list.specs.inner.Placing.{packed, unpacked, Packable, entries};

use crate::Placed;
use lamp_line::{Pair, ProgramState, WorldState};

// The word of a placed pair.
pub fn pack(placed: Placed) -> u32
    requires { Packable placed }
    ensures { result ≡ packed placed }
{
    let Pair { state, world } = placed.pair;
    let opens = placed.opens as usize;
    (world.row(1)
        + 64 * (state.row(1)
            + 128 * (placed.member + 8192 * (placed.kind as usize + 16 * opens)))) as u32
}

// The placed pair of a word.
pub fn unpack(word: u32) -> Placed
    ensures { result ≡ unpacked word }
{
    Placed {
        pair: Pair {
            state: ProgramState((word / 64 % 128) as u8),
            world: WorldState((word % 64) as u8),
        },
        member: (word / 8192 % 8192) as usize,
        kind: (word / 67108864 % 16) as u8,
        opens: word / 1073741824 == 1,
    }
}

// Where the group ends that begins with the pair at `from`: at the next pair that opens a group, or at the end of the list.
pub fn group_end(list: &[u32], from: usize, count: usize) -> usize
    requires { (from < count) × (count ≤ length list.now) × (count ≤ 4160) }
    ensures { (worlds : ℕ) → result ≡ group_end (entries worlds (take count list.now)) from }
{
    for to in from + 1..count {
        if unpack(list[to]).opens {
            return to;
        }
    }
    count
}
