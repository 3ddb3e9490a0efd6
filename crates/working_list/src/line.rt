// The line that is tried from a member, read off the list from the line's last lamp back to its start.
ghost use Rattle.std.specs.Prelude.{◌≡◌, ℕ, ◌≤◌, ◌<◌, length};
ghost use Rattle.check_laws.specs.inner.Search.{line_lamps};
ghost use Rattle.working_list.specs.inner.Placing.{entries, Chained, MemberOf, Written};

use crate::list::unpack;
use lamp_line::WorldState;

// Writes the line that is tried from a member with a last lamp of this kind at the front of the buffer, its last lamp first; answers its
// start.
pub fn write_line(
    list: &[u32],
    line: &mut [u8],
    member: usize,
    kind: u8,
    lamps: usize,
) -> WorldState
    requires { Chained list.now × MemberOf (length list.now) member kind × (length list.now ≤ 4160) × (lamps ≤ length line.old)
        × ((worlds : ℕ) → lamps ≡ length (line_lamps (entries worlds list.now) member kind)) }
    ensures { (worlds : ℕ) → Written (entries worlds list.now) member kind lamps line.old result line.new }
{
    let mut from = member;
    let mut lamp = kind;
    for at in (0..lamps).rev() {
        line[at] = lamp;
        let before = unpack(list[from]);
        from = before.member;
        lamp = before.kind;
    }
    WorldState(from as u8)
}
