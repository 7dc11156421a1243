// The one line that the program prints: its bytes, in the caller's output.
//
// Every input is dealt with. The input's bytes and the lengths of the work buffers determine every
// byte of the line. No public entry point has a `requires`; the parts of a line that are lent to a
// crate above have one, with its reason.
#![tactic(auto)]

mod answers;
mod text;

ghost use Rattle.std.specs.Prelude.{◌≡◌, ◌≤◌, length};
ghost use Rattle.std.specs.Result.{MatchResult};
ghost use Rattle.jobfile.specs.Lent.{was, is};
ghost use Rattle.taking.specs.WorkBuffers.{lists_in, SameReferences};
ghost use Rattle.line.specs.Text.{refusal_text};
ghost use Rattle.line.specs.Line.{lined_of, out_of, LineFits, LineGives, TextGives};

pub use answers::{clean, counts, ending, kinds, pair, refusal};
use jobfile::Refusal;
use taking::WorkBuffers;
pub use text::{Text, field, put};

// The line for all events of the input, at the start of `out`: how many bytes it has, or None where the output is too short for them, which
// then stays whole; what is behind the line stays. The work buffers are left as judging leaves them.
pub fn line(input: &[u8], buffers: &mut WorkBuffers, out: &mut [u8]) -> Option<usize>
    ensures line_gives { LineGives input.now (lists_in buffers.old) (was out) result (lists_in buffers.new) (is out) }
    ensures line_fits { LineFits result (is out) }
    ensures same_references { SameReferences buffers.old buffers.new }
{
    let text = text_of(input, buffers);
    deliver(&text, out)
}

// The line.
fn text_of(input: &[u8], buffers: &mut WorkBuffers) -> Text
    ensures text_gives { TextGives input.now (lists_in buffers.old) result.items (lists_in buffers.new) }
    ensures same_references { SameReferences buffers.old buffers.new }
{
    judged(input, buffers).unwrap_or_else(refusal)
}

// The line of an input that is not refused. The events are walked twice: by the check, and by judging.
fn judged(input: &[u8], buffers: &mut WorkBuffers) -> Result<Text, Refusal>
    ensures text_gives { MatchResult result (λ text. TextGives input.now (lists_in buffers.old) text.items (lists_in buffers.new)) (λ r. TextGives input.now (lists_in buffers.old) (refusal_text r) (lists_in buffers.new)) }
    ensures same_references { SameReferences buffers.old buffers.new }
{
    let job = jobfile::check(input)?;
    let answer = judging::judge_job(input, job, job.events, buffers)?;
    Ok(answers::answer(answer, job.part(input), job.name(input)))
}

// The bytes at the start of the output, or nothing where they do not fit.
// requires: they are a line's at most.
fn deliver(text: &[u8], out: &mut [u8]) -> Option<usize>
    requires { length text.now ≤ 256 }
    ensures value { result ≡ lined_of text.now (length (was out)) }
    ensures out_value { is out ≡ out_of text.now (was out) }
    ensures line_fits { LineFits result (is out) }
{
    if out.len() < text.len() {
        return None;
    }
    Some(bytes_at::put(out, 0, text))
}
