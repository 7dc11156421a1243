// Job files: the check of a whole file, and its parts.
//
// Every byte string is dealt with: a file is accepted, or refused by its number. The calls on a file have no `requires`; the steps lent to
// the crates above, and the parts that a job cuts out of its file, have one, with its reason. Nothing here writes to a caller's buffer.
#![tactic(auto)]

mod coding;
mod event;
mod job;
mod open;
mod refusal;
mod tasks;

ghost use Rattle.std.specs.Prelude.{◌*◌};
ghost use Rattle.jobfile.specs.File.{check_of, name_length, event_count};
ghost use Rattle.jobfile.specs.Gives.{CheckGives};
ghost use Rattle.jobfile.specs.Part.{Part};

pub use coding::{decode, event_at};
pub use event::{Access, Event, Kind, Move, access_of, move_of};
pub use job::Job;
pub use refusal::Refusal;
pub use tasks::trace;

// The check of a whole file: refusals 1 to 13.
pub fn check(file: &[u8]) -> Result<Job, Refusal>
    ensures { CheckGives file.now result }
{
    let head = trailer::read_head(file)?;
    let end = head.start + 4 * head.count;
    let strands = trace(&file[head.start..end], head.records)?;
    Ok(Job {
        start: head.start,
        events: head.count,
        records: head.records,
        strands,
    })
}

// The name: the front part of the caller's own file, or an empty part of it where the file is refused. It answers a slice, and no Result,
// for it cannot fail; who wants the refusal asks `check`.
pub fn name<'a>(file: &'a [u8]) -> &'a [u8]
    ensures { Part result file.entry 0 (name_length (check_of file.now)) }
{
    check(file).map_or(&file[..0], |job| job.name(file))
}

// The events: the part of the caller's own file that starts mid-file, or an empty part of it where
// the file is refused.
pub fn events<'a>(file: &'a [u8]) -> &'a [u8]
    ensures { Part result file.entry (name_length (check_of file.now)) (4 * event_count (check_of file.now)) }
{
    check(file).map_or(&file[..0], |job| job.part(file))
}
