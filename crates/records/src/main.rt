// Judges every record of the job file on standard input, and prints a line for each that is raced and one for all. Where a read fails
// nothing is printed, since what came is not the file; what failed, reading or printing, is told on standard error.
#![tactic(auto)]

ghost use Rattle.std.specs.Prelude.{◌≤◌, length};
ghost use Rattle.io.specs.Counts.{IsPrefixLen};
ghost use Rattle.jobfile.specs.Lent.{was, is};
ghost use Rattle.bytes_at.specs.Put.{Put};
ghost use Rattle.records.specs.Printed.{printed_of};

use bytes_at::put;
use input::MOST;
use lines::ROOM;
use per_record::RaceLists;
use std::io::{Eprint, Print};
use taking::WorkBuffers;

// What is printed for the input, at the start of `out`, which has room for the longest text; answers how many bytes.
fn printed(input: &[u8], out: &mut [u8; ROOM]) -> usize
    ensures put { Put (was out) 0 (printed_of input.now) result (is out) }
    ensures prefix_len { IsPrefixLen result (is out) }
{
    if input.len() > MOST {
        return put(out, 0, b"too long\n");
    }
    let mut labels = [0u64; limits::LABELS];
    let mut links = [0u16; limits::LINKS];
    let mut places = [0u32; limits::PLACES];
    let mut records = [0u32; limits::RECORDS];
    let mut firsts = [0u32; limits::RECORDS];
    let mut seconds = [0u32; limits::RECORDS];
    let mut buffers = WorkBuffers {
        labels: &mut labels,
        links: &mut links,
        places: &mut places,
    };
    let mut lists = RaceLists {
        records: &mut records,
        firsts: &mut firsts,
        seconds: &mut seconds,
    };
    lines::lines(input, &mut buffers, &mut lists, out).unwrap_or(0)
}

// One byte more than the program takes shows that there are too many. What failed is told in the system's words; that this cannot be told
// is not. The `main` of judge differs in a name and a length. It stays beside this one: a shared one would be a public function that prints,
// of which no clause can promise anything, and here each public function has one.
fn main(rt: HostRuntime) {
    let mut buffer = [0u8; MOST + 1];
    let mut out = [0u8; ROOM];
    let (what, done) = match input::read(&mut rt.stdin(), &mut buffer) {
        Ok(n) => {
            let length = printed(&buffer[..n], &mut out);
            ("standard output", rt.write_all(&out[..length]))
        }
        Err(e) => ("standard input", Err(e)),
    };
    if let Err(why) = done {
        let _ = match format!(in rt.alloc(); "{why}") {
            Ok(said) => {
                let words = input::words(&said);
                eprintln!(rt; "records: {what}: {words}")
            }
            Err(_) => eprintln!(rt; "records: {what}: {why}"),
        };
    }
}
