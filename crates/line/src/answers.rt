// The line of each answer, and its parts, which are put behind a text.
ghost use Rattle.std.specs.Prelude.{◌≡◌, ◌++◌, ◌+◌, ◌*◌, ◌≤◌, length};
ghost use Rattle.arrayvec.specs.ArrayVec.{array_vec_len};
ghost use Rattle.jobfile.specs.Events.{access_of};
ghost use Rattle.jobfile.specs.Trace.{event_at};
ghost use Rattle.line.specs.Text.{letter_of, pair_text, kinds_text, counts_text, name_text, clean_text, race_text, refusal_text, judged_text, PairWithin};

use crate::text::{Text, field, put};
use arrayvec::ArrayVec;
use jobfile::{Access, Kind, Refusal};
use judging::{Answer, Counts};

// The letter of an access; an event that is none has no letter.
fn letter(access: Option<Access>) -> &'static [u8]
    ensures value { result.now ≡ letter_of access }
    ensures upper_bound { length result.now ≤ 1 }
{
    match access {
        Some(
            Access {
                kind: Kind::Write,
                ..
            },
        ) => b"W",
        Some(
            Access {
                kind: Kind::Read,
                ..
            },
        ) => b"R",
        None => b"",
    }
}

// requires: there is room for three words and three numbers.
pub fn pair<const N: usize>(text: &mut ArrayVec<u8, N>, number: usize, first: usize, second: usize)
    requires { array_vec_len text.old + 87 ≤ N }
    ensures put { text.new.items ≡ text.old.items ++ pair_text number first second }
    ensures upper_bound { array_vec_len text.new ≤ array_vec_len text.old + 87 }
{
    field(text, b"race record ", number);
    field(text, b" first ", first);
    field(text, b" second ", second);
}

// requires: there is room for the nine bytes, and both events are there.
pub fn kinds<const N: usize>(text: &mut ArrayVec<u8, N>, events: &[u8], first: usize, second: usize)
    requires room { array_vec_len text.old + 9 ≤ N }
    requires first_in_bounds { 4 * first + 4 ≤ length events.now }
    requires second_in_bounds { 4 * second + 4 ≤ length events.now }
    ensures put { text.new.items ≡ text.old.items ++ kinds_text (access_of (event_at events.now first)) (access_of (event_at events.now second)) }
    ensures upper_bound { array_vec_len text.new ≤ array_vec_len text.old + 9 }
{
    let a = jobfile::access_of(jobfile::event_at(events, first));
    let b = jobfile::access_of(jobfile::event_at(events, second));
    put(text, b" kinds ");
    put(text, letter(a));
    put(text, letter(b));
}

// requires: there is room for three words and three numbers.
pub fn counts<const N: usize>(text: &mut ArrayVec<u8, N>, counts: Counts)
    requires { array_vec_len text.old + 86 ≤ N }
    ensures put { text.new.items ≡ text.old.items ++ counts_text counts.strands counts.english counts.hebrew }
    ensures upper_bound { array_vec_len text.new ≤ array_vec_len text.old + 86 }
{
    field(text, b" strands ", counts.strands);
    field(text, b" english ", counts.english);
    field(text, b" hebrew ", counts.hebrew);
}

// requires: there is room for the name and seven bytes more.
pub fn ending<const N: usize>(text: &mut ArrayVec<u8, N>, name: &[u8])
    requires { array_vec_len text.old + length name.now + 7 ≤ N }
    ensures put { text.new.items ≡ text.old.items ++ name_text name.now }
    ensures upper_bound { array_vec_len text.new ≤ array_vec_len text.old + length name.now + 7 }
{
    put(text, b" name ");
    put(text, name);
    put(text, b"\n");
}

#[tactic(auto, using(std::proofs::Common::append_assoc), unfolding(crate::specs::Text::refusal_text))]
pub fn refusal(refused: Refusal) -> Text
    ensures value { result.items ≡ refusal_text refused }
    ensures upper_bound { array_vec_len result ≤ 56 }
{
    let mut text = Text::new();
    field(&mut text, b"refused ", refused.fault.number() as usize);
    field(&mut text, b" event ", refused.event);
    put(&mut text, b"\n");
    text
}

// requires: there is room for the name and 98 bytes more.
#[tactic(auto, using(std::proofs::Common::append_assoc))]
pub fn clean<const N: usize>(counted: Counts, name: &[u8]) -> ArrayVec<u8, N>
    requires { length name.now + 98 ≤ N }
    ensures value { result.items ≡ clean_text counted.strands counted.english counted.hebrew name.now }
    ensures upper_bound { array_vec_len result ≤ length name.now + 98 }
{
    let mut text = ArrayVec::new();
    put(&mut text, b"clean");
    counts(&mut text, counted);
    ending(&mut text, name);
    text
}

// requires: there is room for the name and 189 bytes more, and both events are there.
fn race<const N: usize>(
    first: usize,
    second: usize,
    number: usize,
    counted: Counts,
    events: &[u8],
    name: &[u8],
) -> ArrayVec<u8, N>
    requires name_in_bounds { length name.now + 189 ≤ N }
    requires first_in_bounds { 4 * first + 4 ≤ length events.now }
    requires second_in_bounds { 4 * second + 4 ≤ length events.now }
    ensures { result.items ≡ race_text first second number counted.strands counted.english counted.hebrew events.now name.now }
{
    let mut text = ArrayVec::new();
    pair(&mut text, number, first, second);
    kinds(&mut text, events, first, second);
    counts(&mut text, counted);
    ending(&mut text, name);
    text
}

// The line of an answer that is no refusal, for the event part and the name of the file.
// requires: the line is not too long for a text, and both events of a pair are there.
pub fn answer(answer: Answer, events: &[u8], name: &[u8]) -> Text
    requires name_len_bound { length name.now ≤ 64 }
    requires pair_within { PairWithin answer (length events.now) }
    ensures { result.items ≡ judged_text answer events.now name.now }
{
    match answer {
        Answer::Clean(counts) => clean(counts, name),
        Answer::Race {
            first,
            second,
            record,
            counts,
        } => race(first, second, record, counts, events, name),
    }
}
