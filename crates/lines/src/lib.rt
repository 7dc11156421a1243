// The lines that the program `records` prints: their bytes, in the caller's output.
//
// Every input is dealt with. The input's bytes and the lengths of the work buffers and the lists
// determine every byte of the lines. No public entry point has a `requires`.
#![tactic(auto)]

mod answers;

ghost use Rattle.std.specs.Prelude.{◌≤◌, length};
ghost use Rattle.std.specs.Result.{MatchResult};
ghost use Rattle.jobfile.specs.Lent.{was, is};
ghost use Rattle.taking.specs.WorkBuffers.{lists_in, SameReferences};
ghost use Rattle.per_record.specs.RaceLists.{entries_in, SameLists};
ghost use Rattle.lines.specs.Lines.{LinesFit, LinesGives, TextGives, RefusalGives};

use bytes_at::put;
use jobfile::Refusal;
use limits::RECORDS;
use per_record::RaceLists;
use taking::WorkBuffers;

// Room for every text: a line for each record that a job can have, and the last one.
pub const ROOM: usize = 97 * RECORDS + 183;

// The lines for all events of the input, at the start of `out`: how many bytes they have, or None where the output is too short; what is
// behind them stays. The work buffers and the lists are left as `per_record` leaves them. The text is put where it is asked for, since it
// may have hundreds of thousands of bytes and its length shows only once all is judged: so an output that has no room for every text is
// refused ahead of that, and nothing is stored.
pub fn lines(
    input: &[u8],
    buffers: &mut WorkBuffers,
    lists: &mut RaceLists,
    out: &mut [u8],
) -> Option<usize>
    ensures lines_gives { LinesGives input.now (lists_in buffers.old) (entries_in lists.old) (was out) result (lists_in buffers.new) (entries_in lists.new) (is out) }
    ensures lines_fit { LinesFit result (is out) }
    ensures same_references { SameReferences buffers.old buffers.new }
    ensures same_lists { SameLists lists.old lists.new }
{
    if out.len() < ROOM {
        return None;
    }
    Some(text_of(out, input, buffers, lists))
}

// The text at the start of a buffer that has room for every text. This and `judged` are not one with those of `line`, which give a line as a
// vector: no vector without a heap has room for every text.
// requires: there is room for the longest text.
fn text_of(out: &mut [u8], input: &[u8], buffers: &mut WorkBuffers, lists: &mut RaceLists) -> usize
    requires { 397495 ≤ length out.old }
    ensures text_gives { TextGives input.now (lists_in buffers.old) (entries_in lists.old) (was out) result (lists_in buffers.new) (entries_in lists.new) (is out) }
    ensures same_references { SameReferences buffers.old buffers.new }
    ensures same_lists { SameLists lists.old lists.new }
{
    match judged(out, input, buffers, lists) {
        Ok(n) => n,
        Err(r) => put(out, 0, &line::refusal(r)),
    }
}

// The same for an input that is not refused; a refusal puts nothing. The events are walked twice: by the check, and by judging.
// requires: as `text_of`.
fn judged(
    out: &mut [u8],
    input: &[u8],
    buffers: &mut WorkBuffers,
    lists: &mut RaceLists,
) -> Result<usize, Refusal>
    requires { 397495 ≤ length out.old }
    ensures judged_gives { MatchResult result
        (λ n. TextGives input.now (lists_in buffers.old) (entries_in lists.old) (was out) n (lists_in buffers.new) (entries_in lists.new) (is out))
        (λ r. RefusalGives input.now (lists_in buffers.old) (entries_in lists.old) (was out) r (lists_in buffers.new) (entries_in lists.new) (is out)) }
    ensures same_references { SameReferences buffers.old buffers.new }
    ensures same_lists { SameLists lists.old lists.new }
{
    let job = jobfile::check(input)?;
    let answer = per_record::judge_job(input, job, job.events, buffers, lists)?;
    Ok(answers::answer(out, answer, job.part(input), job.name(input), lists))
}
