// Trying one line of the check's search (01, "The check") from one of its members, with every kind of end, the lowest first (02, (c)). The
// line's lamps but the last led to the pair of that member, so only its last leg is looked at. A new pair that it finds is put in the working
// list; the pairs that are found by one line stand together there, as a group (02, (f)).
#![tactic(auto)]

ghost use Rattle.std.specs.Prelude.{◌≡◌, ◌&&◌, ◌*◌, ◌≤◌, ◌<◌, eqb, length};
ghost use Rattle.job_tables.specs.inner.Opened.{tables};
ghost use Rattle.lamp_fates.specs.inner.Memory.{Memory};
ghost use Rattle.pair_bits.specs.Sum.{bit_at};
ghost use Rattle.working_list.specs.inner.Listing.{table, Listed};
ghost use Rattle.line_trial.specs.inner.Trials.{HasMember, Begins, TriedBelow, TriesEnd, TriesLine};
ghost use Rattle.line_trial.specs.inner.Turning.{Turned};

use job_tables::OpenJob;
use lamp_fates::{Fate, fate_at, pair_number};
use lamp_line::{FailureKind, Pair, WorldState};
use pair_bits::{is_set, set_bit};
use working_list::Placed;
use working_list::list::{pack, unpack};

// Where the last leg of a line begins: with a pair, at the column of the line's last lamp, or of its end if it is empty.
#[derive(Clone, Copy)]
pub struct Leg {
    pub pair: Pair,
    pub column: u8,
}

// The lowest kind of end with which a line fails, and its failure there.
#[derive(Clone, Copy)]
pub struct FailingEnd {
    pub failure: FailureKind,
    pub end: u8,
}

// Where the last leg begins of the line that is tried from a member with this end; nowhere, if there is no such line. With kind 0 the line is
// empty, and the member is a start. With any other kind its lamps but the last led to the pair that the list has at the member's place.
fn last_leg(
    job: &OpenJob,
    list: &[u32],
    words: &[u64],
    count: usize,
    member: usize,
    kind: u8,
    end: u8,
) -> Option<Leg>
    requires { Listed (tables job.now) list.now words.now count
        × HasMember (tables job.now) count member kind × (end ≤ job.now.head.ends) }
    ensures { Begins (tables job.now) (table (tables job.now) list.now count)
        member kind end result }
{
    if kind == 0 {
        let world = WorldState(member as u8);
        if !job.is_start(world) {
            return None;
        }
        let state = job.head.first;
        return Some(Leg {
            pair: Pair { state, world },
            column: end,
        });
    }
    Some(Leg {
        pair: unpack(list[member]).pair,
        column: job.head.lamp_column(kind),
    })
}

// Whether a line is at the lowest end with a pair that is in the list already. The lowest end is tried first, so there is no need to ask
// at the others.
fn is_met(words: &[u64], number: usize, column: u8) -> bool
    requires { number < length words.now * 64 }
    ensures { result ≡ (eqb column 0 && bit_at words.now number) }
{
    column == 0 && is_set(words, number)
}

// Tries a line with one kind of end, if it does not fail with a lower one: from its last lamp, and then, if it gets there with a new pair,
// at its end. It answers the new pair, or none if nothing is new.
fn try_end(
    job: &OpenJob,
    memory: &mut [u16],
    list: &[u32],
    words: &[u64],
    count: usize,
    member: usize,
    kind: u8,
    end: u8,
) -> Result<Option<Pair>, FailingEnd>
    requires { Memory (tables job.now) memory.old
        × Listed (tables job.now) list.now words.now count
        × HasMember (tables job.now) count member kind × (end ≤ job.now.head.ends)
        × TriedBelow (tables job.now) (table (tables job.now) list.now count)
        member kind end }
    ensures { TriesEnd (tables job.now) (table (tables job.now) list.now count)
        member kind end words.now result memory.new }
{
    let Some(leg) = last_leg(job, list, words, count, member, kind, end) else {
        return Ok(None);
    };
    let Leg {
        mut pair,
        mut column,
    } = leg;
    loop {
        if is_met(words, pair_number(pair, job.head.worlds), column) {
            return Ok(None);
        }
        let fate = fate_at(job, memory, pair, column);
        if let Fate::Fails(failure) = fate {
            return Err(FailingEnd { failure, end });
        }
        if column == end {
            return Ok(Some(pair));
        }
        let Fate::Arrives(next) = fate else {
            return Ok(None);
        };
        pair = next;
        column = end;
    }
}

// Tries a line with one kind of end after the other, the lowest first. It answers the new pair with which the line reaches its end, or none
// if nothing is new.
fn try_line(
    job: &OpenJob,
    memory: &mut [u16],
    list: &[u32],
    words: &[u64],
    count: usize,
    member: usize,
    kind: u8,
) -> Result<Option<Pair>, FailingEnd>
    requires { Memory (tables job.now) memory.old
        × Listed (tables job.now) list.now words.now count
        × HasMember (tables job.now) count member kind }
    ensures { TriesLine (tables job.now) (table (tables job.now) list.now count)
        member kind words.now result memory.new }
{
    let mut found = None;
    for end in 0..=job.head.ends {
        found = try_end(job, memory, list, words, count, member, kind, end)?;
        if found.is_none() {
            break;
        }
    }
    Ok(found)
}

// Tries a line from one member, and answers how many pairs the list then holds. A new pair is put in the list, if the line is still clean:
// if it has failed from no member before this one. Before the line was tried from its first member, the list held `before` pairs; the first
// pair after them opens a group. The function is for the search in the crate above and not for users: it asks for a memory of fates in the
// job's tables, and for a list that the search has made.
pub fn try_member(
    job: &OpenJob,
    memory: &mut [u16],
    list: &mut [u32],
    words: &mut [u64],
    before: usize,
    count: usize,
    member: usize,
    kind: u8,
    clean: bool,
) -> Result<usize, FailingEnd>
    requires { Memory (tables job.now) memory.old
        × Listed (tables job.now) list.old words.old count
        × HasMember (tables job.now) count member kind }
    ensures { Turned (tables job.now) list.old count before member kind clean result
        list.new words.new × Memory (tables job.now) memory.new }
{
    let Some(pair) = try_line(job, memory, list, words, count, member, kind)? else {
        return Ok(count);
    };
    if !clean {
        return Ok(count);
    }
    set_bit(words, pair_number(pair, job.head.worlds));
    let opens = count == before;
    list[count] = pack(Placed {
        pair,
        member,
        kind,
        opens,
    });
    Ok(count + 1)
}
