// The places of the records, the last write and the standing read of each, in a lent buffer: what an access finds there, once an engine
// has said which of the two are parallel to it. No label and no set is known here. The theory of races stands in specs/ and proofs/.
#![tactic(auto)]

ghost use Rattle.std.specs.Prelude.{◌≡◌, false, cond, ◌+◌, ◌*◌, ◌<◌, ◌≤◌, length, get_or};
ghost use Rattle.jobfile.specs.Lent.{was, is};
ghost use Rattle.races.specs.Entries.{filled, Empty};
ghost use Rattle.races.specs.Shown.{NamesNone, Accessible, Accessed};
ghost use Rattle.races.specs.Mark.{rank, rules, layout, two};

use jobfile::Kind;
use limits::{ITS_STRAND, NO_PLACE, STANDING_READS};

// Empties the places of every record below `records`.
// requires: the places have their length and the records their limit; judging refuses others before it stores anything.
pub fn clear(places: &mut [u32], records: usize)
    requires in_bounds { 16384 ≤ length places.old }
    requires records_bound { records ≤ 4096 }
    ensures { Empty layout records (was places) (is places) }
{
    empty(places, 0, records);
    empty(places, ITS_STRAND, records);
    empty(places, STANDING_READS, records);
    empty(places, STANDING_READS + ITS_STRAND, records);
}

// Makes as many entries from `from` on none: one fill of memory for each of the four parts.
#[tactic(auto, unfolding(crate::specs::Entries::filled))]
fn empty(places: &mut [u32], from: usize, records: usize)
    requires { from + records ≤ length places.old }
    ensures places_value { is places ≡ filled (was places) from records }
    ensures places_len { length (is places) ≡ length (was places) }
{
    places[from..from + records].fill(NO_PLACE);
}

// The event that the place of a kind holds: the last write's of record r, or the standing read's.
// requires: the record has its places.
pub fn held(places: &[u32], kind: Kind, r: usize) -> usize
    requires { 8192 + r < length places.now }
    ensures { result ≡ get_or places.now (8192 * rank kind + r) 0 }
{
    places[place_of(kind) + r] as usize
}

// Event `at`, in `strand`, accesses record r and races with nothing: neither the last write nor, if this is a write, the standing read is
// parallel to it. `stood`: the standing read is there and parallel to it.
// A write is the last write. A read stands if no read does, or if the standing one is before it; and else that one is put again. A processor
// cannot foresee which it is, nor whether it is a read or a write: so nothing here branches.
// requires: the places show the events before this one, the record has not raced, and the engine has told the truth about both.
pub fn access(places: &mut [u32], kind: Kind, r: usize, at: usize, strand: usize, stood: bool)
    requires accessible { Accessible rules layout (two false stood) places.old r (rank kind) at strand }
    requires names_none { NamesNone rules (rank kind) (two false stood) }
    requires r_in_bounds { 12288 + r < length places.old }
    ensures { Accessed rules layout (two false stood) (was places) r (rank kind) at strand (is places) }
{
    let place = place_of(kind) + r;
    let event = pick(stood, places[place], at as u32);
    let held = pick(stood, places[place + ITS_STRAND], strand as u32);
    places[place] = event;
    places[place + ITS_STRAND] = held;
}

// Where the events of a kind's places begin.
fn place_of(kind: Kind) -> usize
    ensures value { result ≡ 8192 * rank kind }
    ensures upper_bound { result ≤ 8192 }
{
    match kind {
        Kind::Write => 0,
        Kind::Read => STANDING_READS,
    }
}

// The choice stays without a branch as a function; as an `if` in its place, of the numbers or of a struct of both, it became one (slower).
fn pick(first: bool, a: u32, b: u32) -> u32
    ensures { result ≡ cond first a b }
{
    if first { a } else { b }
}
