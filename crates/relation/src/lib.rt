// Parallel and before: the question about two accesses of a file.
//
// Every byte string and every two numbers are dealt with: an answer, or a refusal by its number.
// The public call has no `requires`, and nothing here writes to a caller's buffer.
#![tactic(auto)]

mod between;

ghost use Rattle.std.specs.Prelude.{◌≡◌, ◌&&◌, ◌<◌, ltb};
ghost use Rattle.jobfile.specs.Trace.{event_at, moves};
ghost use Rattle.relation.specs.Between.{Stretch};
ghost use Rattle.relation.specs.Gives.{QuestionGives};
ghost use Rattle.relation.specs.Question.{asked_of, compare_of, access_at};

use between::parallel;
use jobfile::{Refusal, access_of, check, event_at};
use trailer::Fault;

// How the first of two accesses stands to the second.
#[derive(Clone, Copy, Debug, PartialEq, Eq)]
pub enum Related {
    Same,
    Before,
    After,
    Parallel,
}

// The question about events i and j of a file: the check of the file, then one pass over the
// events between the two.
pub fn question(file: &[u8], i: usize, j: usize) -> Result<Related, Refusal>
    ensures { QuestionGives file.now i j result }
{
    let job = check(file)?;
    asked(job.part(file), job.events, i, j)
}

// The question about events i and j of an accepted file's events, of which there are `count`.
// requires: the part holds the events, and no end closes the root.
fn asked(part: &[u8], count: usize, i: usize, j: usize) -> Result<Related, Refusal>
    requires { Stretch part.now 0 count }
    ensures { result ≡ asked_of (event_at part.now) count i j }
{
    let below = i < count && j < count;
    let access = access_at(part, count, i) && access_at(part, count, j);
    if !below {
        return Err(Fault::PastEvents.into());
    }
    if !access {
        return Err(Fault::NotAccess.into());
    }
    Ok(compare(part, count, i, j))
}

// Whether n is the number of an access.
// requires: as `asked`.
fn access_at(part: &[u8], count: usize, n: usize) -> bool
    requires { Stretch part.now 0 count }
    ensures { result ≡ (ltb n count && access_at (event_at part.now) n) }
{
    n < count && access_of(event_at(part, n)).is_some()
}

// The answer about two accesses of an accepted file's events.
// requires: as `asked`, and both numbers are below the count.
fn compare(part: &[u8], count: usize, i: usize, j: usize) -> Related
    requires stretch { Stretch part.now 0 count }
    requires i_lt_count { (i < count) × (j < count) }
    ensures { result ≡ compare_of (moves (event_at part.now)) i j }
{
    if i == j {
        return Related::Same;
    }
    if i < j {
        if parallel(part, i, j) {
            return Related::Parallel;
        }
        return Related::Before;
    }
    if parallel(part, j, i) {
        return Related::Parallel;
    }
    Related::After
}
