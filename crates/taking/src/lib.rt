// One event of a run: what an access finds at its record's places, by the labels, and the strand that any other event may begin. And the
// run of such events up to the next race.
#![tactic(auto)]

ghost use Rattle.std.specs.Prelude.{◌≡◌, ◌+◌, ◌*◌, ◌<◌, ◌≤◌, length};
ghost use Rattle.taking.specs.WorkBuffers.{lists_in, SameReferences};
ghost use Rattle.taking.specs.Asking.{held_or, label_above, clashing_of};
ghost use Rattle.taking.specs.Turns.{Turnable, Taken, Runnable, WentFrom, Findable, FirstFound};
ghost use Rattle.races.specs.Trace.{record_of};
ghost use Rattle.races.specs.Mark.{event_trace};
ghost use Rattle.jobfile.specs.Trace.{event_at};

use jobfile::Kind;
use limits::{HEBREW_LABELS, ITS_STRAND, OPEN_TASKS, STANDING_READS, STRANDS};
use strands::{Now, OpenTask};

// The three work buffers, as they are lent. No type says that a call leaves in it the slices that it came with, so each call that is lent
// one promises `SameReferences`.
#[derive(Drop)]
pub struct WorkBuffers<'a> {
    pub labels: &'a mut [u64],
    pub links: &'a mut [u16],
    pub places: &'a mut [u32],
}

// How far a run went: event `at` is next, and this is the state before it. No Option for the race that stopped it: from `at` a caller goes on
// in either case, and whether that is the end it knows.
#[derive(Clone, Copy)]
pub struct Reach {
    pub at: usize,
    pub state: Now,
}

// The first access of a race: which place of which record holds it.
#[derive(Clone, Copy)]
pub struct Found {
    pub kind: Kind,
    pub record: usize,
}

// Runs from event `from` to event `to`, or to the first event on the way that races. The open tasks are copied, so that the machine finds
// them at fixed places.
// requires: the state is that of a run in which event `from` is next, and none of the events is an access of a record that has raced, which
// only the calls before this one can show.
pub fn until_race(
    part: &[u8],
    from: usize,
    to: usize,
    begun: Now,
    tasks: &mut [OpenTask; OPEN_TASKS],
    buffers: &mut WorkBuffers,
) -> Reach
    requires { Runnable part.now from to (lists_in buffers.old) tasks.old begun }
    ensures same_references { SameReferences buffers.old buffers.new }
    ensures went { WentFrom part.now from to begun tasks (lists_in buffers.old) (lists_in buffers.new) result }
{
    let mut state = begun;
    let mut own = *tasks;
    for at in from..to {
        match take(part, at, state, &mut own, buffers) {
            Some(next) => state = next,
            None => {
                *tasks = own;
                return Reach { at, state };
            }
        }
    }
    *tasks = own;
    Reach { at: to, state }
}

// Event i: an access that goes into one of its record's places, or another event, which moves and may begin a strand; the next state. None
// if it is the second access of a race: it finds the first at its record's places, and nothing is stored. An access does not move.
// requires: the state is that of a run in which this event is next, and its record has not raced, which only the calls before this one can
// show.
fn take(
    part: &[u8],
    i: usize,
    state: Now,
    tasks: &mut [OpenTask; OPEN_TASKS],
    buffers: &mut WorkBuffers,
) -> Option<Now>
    requires { Turnable part.now i (lists_in buffers.old) tasks.old state }
    ensures same_references { SameReferences buffers.old buffers.new }
    ensures taken { Taken part.now i state tasks (lists_in buffers.old) (lists_in buffers.new) result }
{
    let e = jobfile::event_at(part, i);
    match jobfile::access_of(e) {
        Some(access) => {
            let kind = access.kind;
            let r = access.record as usize;
            let strand = state.strands - 1;
            // lent by name: `above` takes the labels alone, since `find` has no more to give it
            let labels = &mut *buffers.labels;
            let places = &mut *buffers.places;
            let wrote = held_or(places[r + ITS_STRAND] as usize, strand);
            if above(labels, strand, wrote) {
                return None;
            }
            let read = held_or(places[STANDING_READS + r + ITS_STRAND] as usize, strand);
            if above(labels, strand, clashing(kind, read, strand)) {
                return None;
            }
            let stood = above(labels, strand, read);
            races::access(places, kind, r, i, strand, stood);
            Some(state)
        }
        None => {
            let m = jobfile::move_of(e);
            Some(strands::advance(m, state, tasks, buffers.labels, buffers.links))
        }
    }
}

// The place that holds the first of the race whose second is event i.
// requires: the state is that before event i, which races, as `until_race` leaves it.
pub fn find(part: &[u8], i: usize, state: Now, labels: &[u64], places: &[u32]) -> Found
    requires { Findable part.now i labels.now places.now state }
    ensures { FirstFound part.now i result }
{
    let record = record_at(part, i);
    let strand = state.strands - 1;
    let wrote = held_or(places[record + ITS_STRAND] as usize, strand);
    if above(labels, strand, wrote) {
        return Found {
            kind: Kind::Write,
            record,
        };
    }
    Found {
        kind: Kind::Read,
        record,
    }
}

// The record of event i; 0, as in the file, where it has none.
fn record_at(part: &[u8], i: usize) -> usize
    requires { 4 * i + 4 ≤ length part.now }
    ensures { result ≡ record_of ((event_trace (event_at part.now)).act i) }
{
    jobfile::access_of(jobfile::event_at(part, i)).map_or(0, |access| access.record as usize)
}

// The strand of a standing read that an access races with if it is parallel to it; for a read, which races with none, its own strand.
fn clashing(kind: Kind, read: usize, strand: usize) -> usize
    requires { (read < 4096) × (strand < 4096) }
    ensures value { result ≡ clashing_of kind read strand }
    ensures upper_bound { result < 4096 }
{
    match kind {
        Kind::Write => read,
        Kind::Read => strand,
    }
}

// Whether strand `other` is parallel to `strand`, the current one: its Hebrew label is above.
fn above(labels: &[u64], strand: usize, other: usize) -> bool
    requires { (8192 ≤ length labels.now) × (strand < 4096) × (other < 4096) }
    ensures { result ≡ label_above labels.now strand other }
{
    labels[HEBREW_LABELS + strand] < labels[HEBREW_LABELS + other]
}

// The strand that a place holds, or `strand` where that is none. The machine picks one without a branch: which places are empty
// nobody foresees.
fn held_or(held: usize, strand: usize) -> usize
    requires { strand < 4096 }
    ensures value { result ≡ held_or held strand }
    ensures upper_bound { result < 4096 }
{
    if held < STRANDS {
        return held;
    }
    strand
}
