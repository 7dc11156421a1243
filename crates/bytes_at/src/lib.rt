// Bytes put at a place of a lent buffer, one run behind another: the parts of a file, the lines of an answer. The place goes
// beside the buffer, as its length is the caller's: no heap holds what is put.
#![tactic(auto)]

ghost use Rattle.std.specs.Prelude.{◌+◌, ◌≤◌, length};
ghost use Rattle.bytes_at.specs.Put.{Put};

// All of `bytes` from `at` on; answers where the next go.
// requires: there is room for the bytes.
pub fn put(out: &mut [u8], at: usize, bytes: &[u8]) -> usize
    requires { at + length bytes.now ≤ length out.old }
    ensures { Put out.old at bytes.now result out.new }
{
    let end = at + bytes.len();
    out[at..end].copy_from_slice(bytes);
    end
}
