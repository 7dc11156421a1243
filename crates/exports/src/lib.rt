// The C interface: the proved calls, with their answers as arrays of numbers, the refusal first.
//
// include/razombiku.h says what each number means. In C a slice is a pointer and a length, and an
// array of the answer is a plain pointer. No call has a `requires`, and none keeps what it was lent.
#![tactic(auto)]

ghost use Rattle.std.specs.Prelude.{◌≡◌, ◌≤◌, ◌-◌, ◌∷◌, replicate};
ghost use Rattle.jobfile.specs.Lent.{was, is};
ghost use Rattle.jobfile.specs.File.{check_of, event_count};
ghost use Rattle.jobfile.specs.Refusals.{number_in};
ghost use Rattle.relation.specs.Question.{question_of};
ghost use Rattle.taking.specs.Buffers.{before, after};
ghost use Rattle.exports.specs.LentLists.{lists_before, lists_after};
ghost use Rattle.exports.specs.Numbers.{read_numbers, write_numbers, question_numbers, judge_numbers, records_numbers};
ghost use Rattle.exports.specs.Gives.{WriteCallGives, JudgeCallGives, RecordsCallGives};

use jobfile::{Job, Refusal};
use per_record::RaceLists;
use relation::Related;
use taking::WorkBuffers;

// Reads a file: refusal, event, name's length, events' start, events' length, records.
#[unsafe(no_mangle)]
pub extern "C" fn rz_read(file: &[u8], answer: &mut [u64; 6])
    ensures { is answer ≡ read_numbers (check_of file.now) }
{
    *answer = read_numbers(jobfile::check(file));
}

// Writes a file to the front of `out`: refusal, event, bytes written.
#[unsafe(no_mangle)]
pub extern "C" fn rz_write(
    name: &[u8],
    records: u64,
    events: &[u8],
    out: &mut [u8],
    answer: &mut [u64; 3],
)
    ensures { WriteCallGives name.now records events.now (was out) (is answer) (is out) }
{
    *answer = write_numbers(writing::write(name, records as usize, events, out));
}

// Asks about events i and j of a file: refusal, event, answer.
#[unsafe(no_mangle)]
pub extern "C" fn rz_question(file: &[u8], i: u64, j: u64, answer: &mut [u64; 3])
    ensures { is answer ≡ question_numbers (question_of file.now i j) }
{
    *answer = question_numbers(relation::question(file, i as usize, j as usize));
}

// Judges the first k events of a file: refusal, event, raced, first, second, record, strands,
// English count, Hebrew count.
#[unsafe(no_mangle)]
pub extern "C" fn rz_judge(
    file: &[u8],
    k: u64,
    labels: &mut [u64],
    links: &mut [u16],
    places: &mut [u32],
    answer: &mut [u64; 9],
)
    ensures { JudgeCallGives file.now k (before labels links places) (is answer) (after labels links places) }
{
    let mut buffers = WorkBuffers {
        labels,
        links,
        places,
    };
    *answer = judge_numbers(judging::judge(file, k as usize, &mut buffers));
}

// Judges the first k events of a file, past every race, and lists the raced records with their pairs: refusal, event, records raced,
// strands, English count, Hebrew count.
#[unsafe(no_mangle)]
pub extern "C" fn rz_judge_records(
    file: &[u8],
    k: u64,
    labels: &mut [u64],
    links: &mut [u16],
    places: &mut [u32],
    records: &mut [u32],
    firsts: &mut [u32],
    seconds: &mut [u32],
    answer: &mut [u64; 6],
)
    ensures { RecordsCallGives file.now k (before labels links places) (lists_before records firsts seconds) (is answer) (after labels links places) (lists_after records firsts seconds) }
{
    let mut buffers = WorkBuffers {
        labels,
        links,
        places,
    };
    let mut lists = RaceLists {
        records,
        firsts,
        seconds,
    };
    *answer = records_numbers(per_record::judge(file, k as usize, &mut buffers, &mut lists));
}

// The numbers of a refusal, in an answer of so many: zeros behind its number and its event.
fn refused<const N: usize>(r: Refusal) -> [u64; N]
    requires { 2 ≤ N }
    ensures { result ≡ number_in r ∷ r.event ∷ replicate (N - 2) 0 }
{
    let mut numbers = [0; N];
    numbers[0] = r.fault.number() as u64;
    numbers[1] = r.event as u64;
    numbers
}

// The numbers of a checked file.
// requires: the bound that the check gives.
fn read_numbers(c: Result<Job, Refusal>) -> [u64; 6]
    requires { event_count c ≤ 1000000 }
    ensures { result ≡ read_numbers c }
{
    match c {
        Ok(j) => [
            0,
            0,
            j.start as u64,
            j.start as u64,
            4 * j.events as u64,
            j.records as u64,
        ],
        Err(r) => refused(r),
    }
}

// The numbers of a write.
fn write_numbers(w: Result<usize, Refusal>) -> [u64; 3]
    ensures { result ≡ write_numbers w }
{
    match w {
        Ok(n) => [0, 0, n as u64],
        Err(r) => refused(r),
    }
}

// The numbers of a question's answer.
fn question_numbers(a: Result<Related, Refusal>) -> [u64; 3]
    ensures { result ≡ question_numbers a }
{
    match a {
        Ok(Related::Same) => [0, 0, 0],
        Ok(Related::Before) => [0, 0, 1],
        Ok(Related::After) => [0, 0, 2],
        Ok(Related::Parallel) => [0, 0, 3],
        Err(r) => refused(r),
    }
}

// The numbers of a judgement.
fn judge_numbers(a: Result<judging::Answer, Refusal>) -> [u64; 9]
    ensures { result ≡ judge_numbers a }
{
    match a {
        Ok(judging::Answer::Clean(counts)) => [
            0,
            0,
            0,
            0,
            0,
            0,
            counts.strands as u64,
            counts.english as u64,
            counts.hebrew as u64,
        ],
        Ok(
            judging::Answer::Race {
                first,
                second,
                record,
                counts,
            },
        ) => [
            0,
            0,
            1,
            first as u64,
            second as u64,
            record as u64,
            counts.strands as u64,
            counts.english as u64,
            counts.hebrew as u64,
        ],
        Err(r) => refused(r),
    }
}

// The numbers of a judgement of every record.
fn records_numbers(a: Result<per_record::Answer, Refusal>) -> [u64; 6]
    ensures { result ≡ records_numbers a }
{
    match a {
        Ok(judged) => [
            0,
            0,
            judged.raced as u64,
            judged.counts.strands as u64,
            judged.counts.english as u64,
            judged.counts.hebrew as u64,
        ],
        Err(r) => refused(r),
    }
}
