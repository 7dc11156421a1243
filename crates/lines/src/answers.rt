// The text of each answer, put line by line from the start of the caller's output. The place in it goes along, since the whole is too
// long for a vector of fixed capacity, and there is no heap.
ghost use Rattle.std.specs.Prelude.{◌≡◌, ◌+◌, ◌*◌, ◌≤◌, length};
ghost use Rattle.arrayvec.specs.ArrayVec.{array_vec_len};
ghost use Rattle.jobfile.specs.Lent.{was, is};
ghost use Rattle.bytes_at.specs.Put.{Put};
ghost use Rattle.per_record.specs.RaceLists.{entries_in};
ghost use Rattle.lines.specs.Text.{entry_text, entries_text, raced_text, listed_text, EntriesWithin, AnswerWithin};

use bytes_at::put;
use judging::Counts;
use line::Text;
use per_record::{Answer, RaceLists};

// The text of an answer that is no refusal, for the event part and the name of the file and the lists that came with the answer.
// requires: there is room for the longest text, and the entries of the raced records and the events of each are there.
pub fn answer(
    out: &mut [u8],
    answer: Answer,
    events: &[u8],
    name: &[u8],
    lists: &RaceLists,
) -> usize
    requires in_bounds { 397495 ≤ length out.old }
    requires name_len_bound { length name.now ≤ 64 }
    requires answer_within { AnswerWithin answer (length events.now) (entries_in lists.now) }
    ensures { Put (was out) 0 (listed_text answer events.now (entries_in lists.now) name.now) result (is out) }
{
    if answer.raced == 0 {
        let line: Text = line::clean(answer.counts, name);
        return put(out, 0, &line);
    }
    let at = entries(out, events, lists, answer.raced);
    put(out, at, &last(answer.raced, answer.counts, name))
}

// The line of one raced record.
// requires: both events are there.
fn entry(events: &[u8], number: usize, first: usize, second: usize) -> Text
    requires first_in_bounds { 4 * first + 4 ≤ length events.now }
    requires second_in_bounds { 4 * second + 4 ≤ length events.now }
    ensures value { result.items ≡ entry_text events.now number first second }
    ensures upper_bound { array_vec_len result ≤ 97 }
{
    let mut text = Text::new();
    line::pair(&mut text, number, first, second);
    line::kinds(&mut text, events, first, second);
    line::put(&mut text, b"\n");
    text
}

// The lines of the first n entries of the lists.
// requires: there is room for 97 bytes each, and the entries and the events of each are there.
fn entries(out: &mut [u8], events: &[u8], lists: &RaceLists, n: usize) -> usize
    requires n_in_bounds { 97 * n ≤ length out.old }
    requires entries_within { EntriesWithin (length events.now) (entries_in lists.now) n }
    ensures put { Put (was out) 0 (entries_text events.now (entries_in lists.now) n) result (is out) }
    ensures upper_bound { result ≤ 97 * n }
{
    let mut at = 0;
    for i in 0..n {
        let (number, first, second) = (lists.records[i], lists.firsts[i], lists.seconds[i]);
        let line = entry(events, number as usize, first as usize, second as usize);
        at = put(out, at, &line);
    }
    at
}

// The last line, behind those of the records.
// requires: there is room for the name and 119 bytes more.
fn last(raced: usize, counts: Counts, name: &[u8]) -> Text
    requires { length name.now + 119 ≤ 256 }
    ensures value { result.items ≡ raced_text raced counts.strands counts.english counts.hebrew name.now }
    ensures upper_bound { array_vec_len result ≤ length name.now + 119 }
{
    let mut text = Text::new();
    line::field(&mut text, b"raced ", raced);
    line::counts(&mut text, counts);
    line::ending(&mut text, name);
    text
}
