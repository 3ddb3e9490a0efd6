// The search of the check (01, "The check"). It tries one line after the other, each from all its members (02, (f)): first the empty line,
// from the starts. The pairs that are found by the same line stand together in the working list, as a group. For each group in turn, and
// for each kind of lamp, the group's line is then tried with one lamp more. The search stops at a line that fails, when no group is left,
// or before it would try a line with more lamps than it was asked for (02, (b)). Of the failures of a line, the one with the lowest kind of
// end is named, and of those with the same end the one of the lowest start.
#![tactic(auto)]

ghost use Rattle.std.specs.Prelude.{◌+◌, ◌*◌, ◌≤◌, length};
ghost use Rattle.job_tables.specs.inner.Opened.{tables};
ghost use Rattle.run_laws.specs.inner.Pairs.{pairs};
ghost use Rattle.lamp_fates.specs.inner.Memory.{Memory};
ghost use Rattle.plan_search.specs.inner.Searching.{Searched};

use job_tables::OpenJob;
use lamp_line::FailureKind;
use line_trial::{FailingEnd, try_member};
use pair_bits::{clear_bits, sum_bits};
use working_list::list::group_end;

// A line that fails, where the search ends: the failure kind, the kind of the line's end, the number of pairs in the list, the member from
// which the line was tried, the kind of its last lamp, and its number of lamps.
#[derive(Clone, Copy)]
pub struct FailingLine {
    pub failure: FailureKind,
    pub end: u8,
    pub count: usize,
    pub member: usize,
    pub kind: u8,
    pub lamps: usize,
}

// Tries group after group with all its kinds of lamps: the starts with the empty line, which is kind 0, and then the pairs of the list. A
// line is tried from all members of the group before the next. Where it fails from one, the others are tried for a failure with a lower
// kind of end, unless it is the lowest. The group after this one begins with the pair at `next`. The groups come in layers: the lines that
// are tried for this group, and for those after it up to `layer`, have `lamps` lamps. The pairs found meanwhile are the next layer, whose
// lines have one lamp more; it is not begun if that is more than `longest`. If no line fails, the number of pairs in the list is answered.
//
// The function is for the crates above and not for users: it asks for a memory of fates in the job's tables, and for buffers with room.
pub fn search_groups(
    job: &OpenJob,
    longest: usize,
    memory: &mut [u16],
    list: &mut [u32],
    words: &mut [u64],
) -> Result<u32, FailingLine>
    requires { Memory (tables job.now) memory.old
        × (pairs (tables job.now) ≤ length list.old)
        × (pairs (tables job.now) ≤ length words.old * 64) }
    ensures { Searched (tables job.now) longest result list.new }
{
    let pairs = (job.head.states as usize + 1) * job.head.worlds as usize;
    clear_bits(words, pairs);
    let mut count = 0;
    let mut from = 0;
    let mut to = job.head.worlds as usize;
    let mut first = 0;
    let mut last = 0;
    let mut next = 0;
    let mut layer = 0;
    let mut lamps = 0;
    'search: loop {
        for kind in first..last + 1 {
            let before = count;
            let mut failing: Option<FailingLine> = None;
            for member in from..to {
                let clean = failing.is_none();
                match try_member(job, memory, list, words, before, count, member, kind, clean) {
                    Ok(held) => count = held,
                    Err(FailingEnd { failure, end }) => {
                        let line = FailingLine {
                            failure,
                            end,
                            count,
                            member,
                            kind,
                            lamps,
                        };
                        if end == 0 {
                            break 'search Err(line);
                        }
                        if failing.is_none_or(|lowest| end < lowest.end) {
                            failing = Some(line);
                        }
                    }
                }
            }
            if let Some(line) = failing {
                break 'search Err(line);
            }
        }
        if next == layer {
            if count == layer || longest < lamps + 1 {
                break 'search Ok(sum_bits(words, pairs) as u32);
            }
            layer = count;
            lamps += 1;
        }
        from = next;
        to = group_end(list, from, count);
        next = to;
        first = 1;
        last = job.head.kinds;
    }
}
