// Runs the small jobs of the rules through the library, from writing to judging, and prints what
// came out, a line for each. A job is written as in the rules: S, E, J, R and W, with the record.
#![tactic(auto)]

ghost use Rattle.std.specs.Prelude.{◌+◌, ◌≤◌, length};
ghost use Rattle.jobfile.specs.Lent.{is};
ghost use Rattle.io.specs.Counts.{IsPrefixLen};

use jobfile::Refusal;
use judging::{Answer, Counts};
use std::fmt::Display;
use std::io::Print;
use taking::WorkBuffers;

// A job and how often it stands in a row.
type Repeated<'a> = (usize, &'a str);

// The jobs of the rules from the second on, each behind its number.
const SMALL: [(&str, &str); 9] = [
    ("2 ", "W0 R0"),
    ("3 ", "S W0 E W0"),
    ("4 ", "S W0 E J W0"),
    ("5 ", "S R0 E R0 W0"),
    ("6 ", "S R0 W0 E W0"),
    ("7 ", "S W0 E S W0 E"),
    ("8 ", "S W0 E J S W0 E"),
    ("9 ", "S S W0 E J E W0"),
    ("10 ", "S W0 E S J W0 E"),
];

// Writes a word or a number to standard output. A failed write is not told, and what follows is written all the same: the output is
// compared whole. No `println!` of a line: where a write fails that a shorter one would not, other bytes would come out.
fn say<R: Print, D: Display + Drop>(rt: &R, what: D) {
    let _ = print!(rt; "{what}");
}

fn counts<R: Print>(rt: &R, counts: Counts) {
    say(rt, " strands ");
    say(rt, counts.strands);
    say(rt, " english ");
    say(rt, counts.english);
    say(rt, " hebrew ");
    say(rt, counts.hebrew);
}

fn report<R: Print>(rt: &R, answer: Result<Answer, Refusal>) {
    match answer {
        Ok(Answer::Clean(counted)) => {
            say(rt, ": clean");
            counts(rt, counted);
        }
        Ok(
            Answer::Race {
                first,
                second,
                record,
                counts: counted,
            },
        ) => {
            say(rt, ": race ");
            say(rt, first);
            say(rt, " ");
            say(rt, second);
            say(rt, " record ");
            say(rt, record);
            counts(rt, counted);
        }
        Err(r) => {
            say(rt, ": refused ");
            say(rt, r.fault.number());
            say(rt, " event ");
            say(rt, r.event);
        }
    }
    say(rt, "\n");
}

// The bytes of an event as the rules write it: a letter, and the record of a read or a write, 0 to 9.
fn coded(word: &[u8]) -> Option<[u8; 4]> {
    match word {
        b"S" => Some([1, 0, 0, 0]),
        b"E" => Some([2, 0, 0, 0]),
        b"J" => Some([3, 0, 0, 0]),
        [b'R', record @ b'0'..=b'9'] => Some([4, 0, *record - b'0', 0]),
        [b'W', record @ b'0'..=b'9'] => Some([5, 0, *record - b'0', 0]),
        _ => None,
    }
}

// The events of a job's text, from a place on, as far as they fit; answers the place behind them.
// requires: the place is not past the end.
fn put_job(events: &mut [u8], start: usize, job: &str) -> usize
    requires { start ≤ length events.old }
    ensures { result ≤ length (is events) }
{
    let mut at = start;
    for word in job.split(' ') {
        if let Some(event) = coded(word.as_bytes())
            && events.len() - at >= 4
        {
            events[at..at + 4].copy_from_slice(&event);
            at += 4;
        }
    }
    at
}

// The events of jobs in a row, each so many times, from the start on; answers the place behind them.
fn put_all(events: &mut [u8], jobs: &[Repeated<'_>]) -> usize
    ensures { IsPrefixLen result (is events) }
{
    let mut at = 0;
    for &(times, job) in jobs {
        for _ in 0..times {
            at = put_job(events, at, job);
        }
    }
    at
}

// The answer for all events of a job of two records. The writer refuses what the reader would.
fn judged(name: &[u8], events: &[u8], labels: &mut [u64]) -> Result<Answer, Refusal> {
    let mut file = io::large_buffer();
    let mut links = [0u16; limits::LINKS];
    let mut places = [0u32; limits::PLACES];
    let n = writing::write(name, 2, events, &mut file)?;
    let mut buffers = WorkBuffers {
        labels,
        links: &mut links,
        places: &mut places,
    };
    judging::judge(&file[..n], events.len() / 4, &mut buffers)
}

// Jobs in a row, judged as one.
fn run<R: Print>(rt: &R, jobs: &[Repeated<'_>]) {
    let mut labels = [0u64; limits::LABELS];
    let mut events = io::large_buffer();
    let n = put_all(&mut events, jobs);
    report(rt, judged(b"", &events[..n], &mut labels));
}

fn titled<R: Print>(rt: &R, title: &str, jobs: &[Repeated<'_>]) {
    say(rt, title);
    run(rt, jobs);
}

// The labels of the first three strands, from a place of the buffer on.
fn three<R: Print>(rt: &R, title: &str, labels: &[u64], at: usize)
    requires { at + 3 ≤ length labels.now }
{
    say(rt, title);
    say(rt, labels[at]);
    say(rt, " ");
    say(rt, labels[at + 1]);
    say(rt, " ");
    say(rt, labels[at + 2]);
    say(rt, "\n");
}

// The whole file of the rules, with the labels that it leaves.
fn whole<R: Print>(rt: &R) {
    let mut labels = [0u64; limits::LABELS];
    let mut events = io::large_buffer();
    let job = "W0 S R0 W1 E R0 W1 J";
    let n = put_all(&mut events, &[(1, job)]);
    say(rt, "L4 ");
    say(rt, job);
    report(rt, judged(b"L4", &events[..n], &mut labels));
    three(rt, "L4 English labels ", &labels, 0);
    three(rt, "L4 Hebrew labels ", &labels, limits::HEBREW_LABELS);
}

fn main(rt: HostRuntime) {
    titled(&rt, "1 no events", &[]);
    for (number, job) in SMALL {
        say(&rt, number);
        titled(&rt, job, &[(1, job)]);
    }
    titled(&rt, "11 63 S, 63 E", &[(63, "S"), (63, "E")]);
    titled(&rt, "11 64 S, 64 E", &[(64, "S"), (64, "E")]);
    titled(&rt, "11 2047 S E, J", &[(2047, "S E"), (1, "J")]);
    titled(&rt, "11 2048 S E", &[(2048, "S E")]);
    titled(&rt, "12 32 S E", &[(32, "S E")]);
    whole(&rt);
}
