// The fate of a pair at a column: found by a walk when it is first asked for, and then remembered for all pairs on the way. So each
// step is walked only once, whatever fates are asked for and in whatever order.
//
// While a walk stays at the lamp, it leaves at each pair a link to the next. When its fate is known, the links are followed from the
// first pair on, and each is replaced by the fate. A walk that meets a link has come back to one of its own pairs, so it circles.
#![tactic(auto)]

ghost use Rattle.std.specs.Prelude.{◌≡◌, ◌+◌, ◌*◌, ◌<◌};
ghost use Rattle.job_layout.specs.Layout.{job_columns};
ghost use Rattle.lamp_line.specs.Run.{ended};
ghost use Rattle.job_tables.specs.inner.Opened.{tables};
ghost use Rattle.run_laws.specs.inner.Pairs.{InRange, pair_number};
ghost use Rattle.lamp_fates.specs.inner.Memory.{walk_to, pair_code, fate_entry, fate_from, Memory, LookedUp};
ghost use Rattle.lamp_fates.specs.inner.Links.{WalkedTo};

use job_tables::OpenJob;
use lamp_line::{Ending, FailureKind, Pair, ProgramState, WorldState};
use lamp_walk::{Acted, judge, one_action};

// The fate of a pair at a column: the run ends with the goal true, it fails, or a pair arrives at the next lamp.
#[derive(Clone, Copy)]
pub enum Fate {
    Succeeds,
    Fails(FailureKind),
    Arrives(Pair),
}

// An entry from this number on is a link. The entry minus this number is the number of the pair that it leads to, which is all that
// is needed to find the next place.
const LINKS: u16 = 8192;

// The number of a pair among all pairs.
pub fn pair_number(pair: Pair, worlds: u8) -> usize
    ensures { result ≡ pair_number worlds pair }
{
    pair.state.row(worlds as u16) + pair.world.row(1)
}

// A pair as one number, which can be taken apart without W.
fn pair_code(pair: Pair) -> u16
    ensures { result ≡ pair_code pair }
{
    (pair.state.row(64) + pair.world.row(1)) as u16
}

// The entry of the fate that is this ending.
fn ending_entry(ending: Ending) -> u16
    ensures { result ≡ fate_entry (ended ending 0) }
{
    match ending {
        Ending::Goal => 1,
        Ending::Failure(kind) => 1 + kind.number() as u16,
    }
}

// The fate that an entry stands for. It is called with an entry that is neither 0 nor a link. Success is tested first and by an order:
// tested for equality, as the others are, it would be reached through a table of jumps.
fn entry_fate(entry: u16) -> Fate
    requires { entry < 8192 }
    ensures { walk_to result ≡ fate_from entry }
{
    if entry < 2 {
        return Fate::Succeeds;
    }
    if entry == 2 {
        return Fate::Fails(FailureKind::NotLegal);
    }
    if entry == 3 {
        return Fate::Fails(FailureKind::NoBranch);
    }
    if entry == 4 {
        return Fate::Fails(FailureKind::Circles);
    }
    if entry < 16 {
        return Fate::Fails(FailureKind::GoalFalse);
    }
    let code = entry - 16;
    Fate::Arrives(Pair {
        state: ProgramState((code / 64) as u8),
        world: WorldState((code % 64) as u8),
    })
}

// The place of the first entry of a column.
fn first_place(job: &OpenJob, column: u8) -> usize
    ensures { result ≡ column * ((job.now.head.states + 1) * job.now.head.worlds) }
{
    column as usize * ((job.head.states as usize + 1) * job.head.worlds as usize)
}

// The place of the entry of a pair at a column.
fn entry_place(job: &OpenJob, pair: Pair, column: u8) -> usize
    ensures { result ≡ column * ((job.now.head.states + 1) * job.now.head.worlds) + pair_number job.now.head.worlds pair }
{
    first_place(job, column) + pair_number(pair, job.head.worlds)
}

// Walks from the pair until its fate is known, answers the entry of the fate, and leaves links along the way.
fn walk_to_fate(job: &OpenJob, memory: &mut [u16], pair: Pair, column: u8) -> u16
    requires { Memory (tables job.now) memory.old
        × InRange (tables job.now) pair × (column < job_columns job.now.head) }
    ensures { WalkedTo (tables job.now) pair column result memory.new }
{
    let mut here = pair;
    loop {
        let place = entry_place(job, here, column);
        let entry = memory[place];
        if entry != 0 {
            if entry < LINKS {
                return entry;
            }
            return ending_entry(Ending::Failure(FailureKind::Circles));
        }
        match one_action(job, here, column) {
            Acted::Ends(ending) => return ending_entry(ending),
            Acted::Passes(next) => return 16 + pair_code(next),
            Acted::Stays(next) => {
                if job.is_final(next.state) {
                    return ending_entry(judge(job, next.world, column));
                }
                memory[place] = LINKS + pair_number(next, job.head.worlds) as u16;
                here = next;
            }
        }
    }
}

// Writes the entry at the pair and at every pair that the links lead to.
fn write_along(job: &OpenJob, memory: &mut [u16], pair: Pair, column: u8, entry: u16)
    requires { WalkedTo (tables job.now) pair column entry memory.old }
    ensures { Memory (tables job.now) memory.new }
{
    let base = first_place(job, column);
    let mut number = pair_number(pair, job.head.worlds);
    loop {
        let place = base + number;
        let next = memory[place];
        memory[place] = entry;
        if next < LINKS {
            return;
        }
        number = (next - LINKS) as usize;
    }
}

// The fate of the pair at the column. It is for the crates above and not for users: it asks for a memory, and for a pair and a column of
// the job's tables.
pub fn fate_at(job: &OpenJob, memory: &mut [u16], pair: Pair, column: u8) -> Fate
    requires { Memory (tables job.now) memory.old
        × InRange (tables job.now) pair × (column < job_columns job.now.head) }
    ensures { LookedUp (tables job.now) pair column result memory.new }
{
    let entry = walk_to_fate(job, memory, pair, column);
    write_along(job, memory, pair, column, entry);
    entry_fate(entry)
}
