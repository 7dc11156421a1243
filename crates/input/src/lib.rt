// Standard input of a program, taken whole into a buffer; and the words for a read or a write that failed.
#![tactic(auto)]

ghost use Rattle.std.specs.Prelude.{IfOk};
ghost use Rattle.io.specs.Counts.{IsPrefixLen};
ghost use Rattle.jobfile.specs.Lent.{is};
ghost use Rattle.input.specs.Told.{Words};

use std::io;
use std::io::Read;

// The most bytes that a program takes.
pub const MOST: usize = 65536;

// The input from where it stands, until it ends or the buffer is full: how many bytes came. A `while` still: each turn goes on by as many
// bytes as came, and of std's methods `read_to_end` wants a heap, and `read_exact` does not tell how many came.
pub fn read<R: Read>(input: &mut R, buffer: &mut [u8]) -> io::Result<usize>
    ensures { IfOk result (λ n. IsPrefixLen n (is buffer)) }
{
    let mut n = 0;
    while n < buffer.len() {
        match input.read(&mut buffer[n..])? {
            0 => return Ok(n),
            more => n += more,
        }
    }
    Ok(n)
}

// The system's words in what an error says of itself: without their number, which the library puts behind them.
pub fn words(said: &str) -> &str
    ensures { Words said.now result.now }
{
    match said.split_once(" (os error ") {
        Some((words, _)) => words,
        None => said,
    }
}
