// Judging: the race that the rules name, and both orders kept as the events come.
//
// Every byte string, every k and buffers of any length are dealt with. A refusal stores nothing.
#![tactic(auto)]

ghost use Rattle.std.specs.Prelude.{◌≡◌, length, ◌≤◌};
ghost use Rattle.judging.specs.Answers.{counts_in, judgeable, JudgeableBound, judged_of};
ghost use Rattle.judging.specs.Leaves.{Shows};
ghost use Rattle.judging.specs.Gives.{JudgeGives};
ghost use Rattle.taking.specs.WorkBuffers.{lists_in, SameReferences};
ghost use Rattle.taking.specs.Turns.{Run};
ghost use Rattle.jobfile.specs.File.{check_of};
ghost use Rattle.jobfile.specs.Trace.{event_at};
ghost use Rattle.races.specs.Verdict.{stop_at};

use jobfile::{Job, Refusal};
use limits::{LABELS, LINKS, OPEN_TASKS, PLACES, STRANDS};
use strands::{Now, ROOT};
use taking::{WorkBuffers, until_race};
use trailer::Fault;

// The strands begun and both label counts.
#[derive(Clone, Copy, Debug, PartialEq, Eq)]
pub struct Counts {
    pub strands: usize,
    pub english: usize,
    pub hebrew: usize,
}

impl From<Now> for Counts {
    ghost from_gives = { λ state counts. counts ≡ counts_in state };

    fn from(state: Now) -> Counts {
        Counts {
            strands: state.strands,
            english: state.english,
            hebrew: state.hebrew,
        }
    }
}

// Clean, or the race that the rules name; with the counts of the state in which judging stopped.
#[derive(Clone, Copy, Debug, PartialEq, Eq)]
pub enum Answer {
    Clean(Counts),
    Race {
        first: usize,
        second: usize,
        record: usize,
        counts: Counts,
    },
}

// Judges the first k events of a file, or fewer if a race is met.
pub fn judge(file: &[u8], k: usize, buffers: &mut WorkBuffers) -> Result<Answer, Refusal>
    ensures judge_gives { JudgeGives file.now k (lists_in buffers.old) result (lists_in buffers.new) }
    ensures same_references { SameReferences buffers.old buffers.new }
{
    let job = jobfile::check(file)?;
    judge_job(file, job, k, buffers)
}

// The same for a file that has been checked, with what the check gave: whoever has that need not have the file walked again.
// requires: the job is what the check of this very file gives.
pub fn judge_job(
    file: &[u8],
    job: Job,
    k: usize,
    buffers: &mut WorkBuffers,
) -> Result<Answer, Refusal>
    requires { check_of file.now ≡ Ok job }
    ensures same_references { SameReferences buffers.old buffers.new }
    ensures judged { JudgeGives file.now k (lists_in buffers.old) result (lists_in buffers.new) }
{
    judgeable(
        &job,
        k,
        buffers.labels.len(),
        buffers.links.len(),
        buffers.places.len(),
    )?;
    Ok(run(job.part(file), k, job.records, buffers))
}

// The first of refusals 15, 14 and 17 that is given, by the buffers' lengths: a caller can ask before it has any. A respacing of 4,096
// strands ends below 2^64, and one of more does not.
pub fn judgeable(
    job: &Job,
    k: usize,
    labels: usize,
    links: usize,
    places: usize,
) -> Result<(), Fault>
    ensures value { result ≡ judgeable job.now.events job.now.strands k labels links places }
    ensures judgeable_bound { JudgeableBound result job.now.events k labels links places }
{
    if k > job.events {
        return Err(Fault::PastEvents);
    }
    if labels < LABELS {
        return Err(Fault::ShortBuffer);
    }
    if links < LINKS {
        return Err(Fault::ShortBuffer);
    }
    if places < PLACES {
        return Err(Fault::ShortBuffer);
    }
    if job.strands > STRANDS {
        return Err(Fault::NoLabels);
    }
    Ok(())
}

// Judges the first k of the events of an accepted file, with buffers that are long enough.
fn run(part: &[u8], k: usize, records: usize, buffers: &mut WorkBuffers) -> Answer
    requires run { Run part.now records k }
    requires in_bounds { (8192 ≤ length buffers.old.labels.now) × (16384 ≤ length buffers.old.links.now) × (16384 ≤ length buffers.old.places.now) }
    ensures same_references { SameReferences buffers.old buffers.new }
    ensures value { result ≡ judged_of (event_at part.now) k }
    ensures shows { Shows (event_at part.now) (stop_at (event_at part.now) k) records (lists_in buffers.old) (lists_in buffers.new) }
{
    races::clear(buffers.places, records);
    let mut tasks = [ROOT; OPEN_TASKS];
    let begun = strands::begin(buffers.labels, buffers.links);
    let reach = until_race(part, 0, k, begun, &mut tasks, buffers);
    let counts = Counts::from(reach.state);
    if reach.at < k {
        // lent by name: the check does not cover two fields of `buffers` passed to be read in one call
        let labels = &mut *buffers.labels;
        let places = &mut *buffers.places;
        let found = taking::find(part, reach.at, reach.state, labels, places);
        return Answer::Race {
            first: races::held(places, found.kind, found.record),
            second: reach.at,
            record: found.record,
            counts,
        };
    }
    Answer::Clean(counts)
}
