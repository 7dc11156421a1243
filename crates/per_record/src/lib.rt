// Every record's own race: the run goes on past each of them, and three lists take the raced records in record order.
//
// Every byte string, every k and buffers and lists of any length are dealt with. A refusal stores nothing.
#![tactic(auto)]

ghost use Rattle.std.specs.Prelude.{◌≡◌, ℕ, ◌+◌, ◌*◌, ◌≤◌, ◌<◌, length, Ok};
ghost use Rattle.jobfile.specs.File.{check_of};
ghost use Rattle.jobfile.specs.Trace.{event_at};
ghost use Rattle.taking.specs.WorkBuffers.{lists_in, SameReferences};
ghost use Rattle.taking.specs.Turns.{Run};
ghost use Rattle.per_record.specs.Lists.{LongEnough};
ghost use Rattle.per_record.specs.RaceLists.{entries_in, SameLists};
ghost use Rattle.per_record.specs.Listed.{has_pair, entered, pairs_below, entered_below};
ghost use Rattle.per_record.specs.Answers.{is_short};
ghost use Rattle.per_record.specs.Marks.{Marked, frozen_at, HasMark, stretch_end, FirstFrom, pair_held};
ghost use Rattle.per_record.specs.Goes.{MayGo, Goes, Ran};
ghost use Rattle.per_record.specs.Gives.{RecordsGives};

use jobfile::{Job, Kind, Refusal};
use judging::Counts;
use limits::{OPEN_TASKS, RECORDS};
use strands::{Now, OpenTask, ROOT};
use taking::{Reach, WorkBuffers, until_race};
use trailer::Fault;

// How many records raced, and the strands begun with both label counts.
#[derive(Clone, Copy, Debug, PartialEq, Eq)]
pub struct Answer {
    pub raced: usize,
    pub counts: Counts,
}

// The three lists, as they are lent: three, and not one of triples, as the C interface has them. That a call leaves in it the lists that it
// came with is `SameLists`, for the reason told beside the work buffers.
#[derive(Drop)]
pub struct RaceLists<'a> {
    pub records: &'a mut [u32],
    pub firsts: &'a mut [u32],
    pub seconds: &'a mut [u32],
}

// The mark of a record that has raced: which kind of its places holds the first, and which event was the second. The number stands as its
// three low bytes, which an event's number fits: so an entry of the marks takes five bytes and not twelve, and all of them 20 KiB of local
// memory, which each call has to fill.
#[derive(Clone, Copy)]
pub struct Mark {
    pub kind: Kind,
    pub second: [u8; 3],
}

// How many events are looked at for accesses of frozen records before they are run. A race on the way has the rest looked at again.
const STRETCH: usize = 64;

// Judges the first k events of a file, all of them, and lists the raced records with their pairs.
pub fn judge(
    file: &[u8],
    k: usize,
    buffers: &mut WorkBuffers,
    lists: &mut RaceLists,
) -> Result<Answer, Refusal>
    ensures gives { RecordsGives file.now k (lists_in buffers.old) (entries_in lists.old) result
        (lists_in buffers.new) (entries_in lists.new) }
    ensures same_references { SameReferences buffers.old buffers.new }
    ensures same_lists { SameLists lists.old lists.new }
{
    let job = jobfile::check(file)?;
    judge_job(file, job, k, buffers, lists)
}

// The same for a file that has been checked, with what the check gave. As `judge` it stands beside the call of its name in judging, which
// shares what one event does and nothing behind it: what is answered, left and refused are other things.
// requires: the job is what the check of this very file gives.
pub fn judge_job(
    file: &[u8],
    job: Job,
    k: usize,
    buffers: &mut WorkBuffers,
    lists: &mut RaceLists,
) -> Result<Answer, Refusal>
    requires { check_of file.now ≡ Ok job }
    ensures gives { RecordsGives file.now k (lists_in buffers.old) (entries_in lists.old) result
        (lists_in buffers.new) (entries_in lists.new) }
    ensures same_references { SameReferences buffers.old buffers.new }
    ensures same_lists { SameLists lists.old lists.new }
{
    judging::judgeable(
        &job,
        k,
        buffers.labels.len(),
        buffers.links.len(),
        buffers.places.len(),
    )?;
    if short(job.records, lists) {
        return Err(Fault::ShortOutput.into());
    }
    let mut marks = [None; RECORDS];
    let state = run(job.part(file), k, job.records, buffers, &mut marks);
    // lent by name, as `races::held` is in judging: the proof then knows that `list` leaves them
    let places = &mut *buffers.places;
    let raced = list(places, &marks, job.records, lists);
    Ok(Answer {
        raced,
        counts: state.into(),
    })
}

// 16: a list is shorter than the record count.
fn short(count: usize, lists: &RaceLists) -> bool
    ensures { result ≡ is_short count (length lists.now.records.now) (length lists.now.firsts.now) (length lists.now.seconds.now) }
{
    lists.records.len() < count || lists.firsts.len() < count || lists.seconds.len() < count
}

// Runs over the first k events, past every race. A record that has raced is marked; it is frozen, and its accesses are left alone from then
// on.
fn run(
    part: &[u8],
    k: usize,
    records: usize,
    buffers: &mut WorkBuffers,
    marks: &mut [Option<Mark>; RECORDS],
) -> Now
    requires run { Run part.now records k }
    requires in_bounds { (8192 ≤ length buffers.old.labels.now) × (16384 ≤ length buffers.old.links.now) × (16384 ≤ length buffers.old.places.now) }
    requires marked { Marked (event_at part.now) 0 marks.old }
    ensures same_references { SameReferences buffers.old buffers.new }
    ensures ran { Ran (event_at part.now) k records (lists_in buffers.old) (lists_in buffers.new) marks.new result }
{
    races::clear(buffers.places, records);
    let mut tasks = [ROOT; OPEN_TASKS];
    let state = strands::begin(buffers.labels, buffers.links);
    let mut next = Reach { at: 0, state };
    // no `for`: which event is next, `go_on` says
    while next.at < k {
        next = go_on(part, k, next, &mut tasks, buffers, marks);
    }
    next.state
}

// Goes on from the event that is next: past an access of a frozen record, or to the end of a stretch, or past the race on the way.
fn go_on(
    part: &[u8],
    k: usize,
    next: Reach,
    tasks: &mut [OpenTask; OPEN_TASKS],
    buffers: &mut WorkBuffers,
    marks: &mut [Option<Mark>; RECORDS],
) -> Reach
    requires { MayGo part.now next.at k (lists_in buffers.old) tasks.old marks.old next.state }
    ensures same_references { SameReferences buffers.old buffers.new }
    ensures goes { Goes part.now next.at k (lists_in buffers.old) tasks.old marks.old next.state
        (lists_in buffers.new) tasks.new marks.new result }
{
    let to = stretch(part, next.at, k, marks);
    if to == next.at {
        return Reach {
            at: next.at + 1,
            state: next.state,
        };
    }
    let reach = until_race(part, next.at, to, next.state, tasks, buffers);
    if reach.at == to {
        return reach;
    }
    // lent by name, as in judging
    let labels = &mut *buffers.labels;
    let places = &mut *buffers.places;
    let found = taking::find(part, reach.at, reach.state, labels, places);
    let [low, middle, high, _] = (reach.at as u32).to_le_bytes();
    marks[found.record] = Some(Mark {
        kind: found.kind,
        second: [low, middle, high],
    });
    Reach {
        at: reach.at + 1,
        state: reach.state,
    }
}

// Up to which event from `from` on no access is of a frozen record; no further than a stretch, nor than k.
fn stretch(part: &[u8], from: usize, k: usize, marks: &[Option<Mark>; RECORDS]) -> usize
    requires from_lt_k { (from < k) × (4 * k ≤ length part.now) }
    requires by_index { (i : ℕ) → i < k → HasMark part.now i }
    ensures { FirstFrom (frozen_at part.now marks.now) from (stretch_end from k) result }
{
    let most = k.min(from + STRETCH);
    (from..most)
        .find(|&i| frozen(part, i, marks))
        .unwrap_or(most)
}

// Whether event i is an access of a frozen record.
fn frozen(part: &[u8], i: usize, marks: &[Option<Mark>; RECORDS]) -> bool
    requires i_in_bounds { 4 * i + 4 ≤ length part.now }
    requires has_mark { HasMark part.now i }
    ensures { result ≡ frozen_at part.now marks.now i }
{
    let access = jobfile::access_of(jobfile::event_at(part, i));
    access.is_some_and(|a| marks[a.record as usize].is_some())
}

// Lists the raced ones of the first `count` records, and says how many they are.
fn list(
    places: &[u32],
    marks: &[Option<Mark>; RECORDS],
    count: usize,
    lists: &mut RaceLists,
) -> usize
    requires count_bound { (count ≤ 4096) × (16384 ≤ length places.now) }
    requires long_enough { LongEnough count (entries_in lists.old) }
    ensures same_lists { SameLists lists.old lists.new }
    ensures value { result ≡ pairs_below (pair_held marks.now places.now) count }
    ensures entered { entries_in lists.new ≡ entered_below (pair_held marks.now places.now) (entries_in lists.old) count }
{
    let mut n = 0;
    for r in 0..count {
        n = enter(places, marks, r, n, lists);
    }
    n
}

// Enters record r behind the n that are listed, if it has raced.
fn enter(
    places: &[u32],
    marks: &[Option<Mark>; RECORDS],
    r: usize,
    n: usize,
    lists: &mut RaceLists,
) -> usize
    requires r_bound { (r < 4096) × (16384 ≤ length places.now) }
    requires long_enough { LongEnough (n + 1) (entries_in lists.old) }
    ensures same_lists { SameLists lists.old lists.new }
    ensures value { result ≡ n + has_pair (pair_held marks.now places.now r) }
    ensures entered { entries_in lists.new ≡ entered (pair_held marks.now places.now r) r n (entries_in lists.old) }
{
    match marks[r] {
        Some(mark) => {
            let kind = mark.kind;
            lists.records[n] = r as u32;
            lists.firsts[n] = races::held(places, kind, r) as u32;
            let [low, middle, high] = mark.second;
            lists.seconds[n] = u32::from_le_bytes([low, middle, high, 0]);
            n + 1
        }
        None => n,
    }
}
