// The four bytes of an event, and which of the five things they say.
ghost use Rattle.std.specs.Prelude.{◌≡◌, ◌&&◌, ◌+◌, ◌*◌, ◌≤◌, eqb, length};
ghost use Rattle.jobfile.specs.Coding.{decode_at, told_of, DecodeFits};
ghost use Rattle.jobfile.specs.Trace.{event_at};

use crate::event::Event;
use trailer::Fault;

// The event of a kind and a record. A kind of two bytes is one of 1 to 5 only if the second byte is 0, so the refusal is what is left.
// Told in this order and not by a `match` on the kind, a processor guesses few branches wrong: one at a spawn, end or sync, and at an access
// only whether it is a write (docs/landings/C-24.md).
fn event_of(kind: u16, number: u16) -> Result<Event, Fault>
    ensures value { result ≡ told_of kind number }
    ensures decode_fits { DecodeFits result }
{
    if bare(kind, number, 1) {
        return Ok(Event::Spawn);
    }
    if bare(kind, number, 2) {
        return Ok(Event::End);
    }
    if bare(kind, number, 3) {
        return Ok(Event::Sync);
    }
    if (kind == 4) | (kind == 5) {
        if kind == 4 {
            return Ok(Event::Read(number));
        }
        return Ok(Event::Write(number));
    }
    Err(Fault::NoEvent)
}

// Whether it is this kind, with no record.
fn bare(kind: u16, number: u16, this: u16) -> bool
    ensures { result ≡ (eqb kind this && eqb number 0) }
{
    (kind == this) & (number == 0)
}

// The event of the four bytes at `at`, or the refusal of bytes that are none.
// requires: the four bytes are there; the callers walk a part that holds whole events.
pub fn decode(part: &[u8], at: usize) -> Result<Event, Fault>
    requires { at + 4 ≤ length part.now }
    ensures value { result ≡ decode_at part.now at }
    ensures decode_fits { DecodeFits result }
{
    let kind = u16::from_le_bytes([part[at], part[at + 1]]);
    let number = u16::from_le_bytes([part[at + 2], part[at + 3]]);
    event_of(kind, number)
}

// Event number n of a part. Bytes that are refused stand for a sync; an accepted file shows none.
// requires: the event's four bytes are there; the callers walk a part that holds whole events.
pub fn event_at(part: &[u8], n: usize) -> Event
    requires { 4 * n + 4 ≤ length part.now }
    ensures { result ≡ event_at part.now n }
{
    decode(part, 4 * n).unwrap_or(Event::Sync)
}
