// The text of a line, and what is put behind the text so far: bytes, and fields of a word and a number. A caller's vector may have any
// capacity N: all that is asked of it is the room.
// No `write!`: it promises the bytes where it succeeds, and never that it does, so whether a line is there would not be determined.
ghost use Rattle.std.specs.Prelude.{◌≡◌, ◌++◌, ◌+◌, ◌≤◌, length};
ghost use Rattle.arrayvec.specs.ArrayVec.{array_vec_len};
ghost use Rattle.line.specs.Text.{digits_of};

use arrayvec::ArrayVec;

// No line is longer.
pub type Text = ArrayVec<u8, 256>;

// All of `bytes`.
// requires: there is room for the bytes.
pub fn put<const N: usize>(text: &mut ArrayVec<u8, N>, bytes: &[u8])
    requires { array_vec_len text.old + length bytes.now ≤ N }
    ensures put { text.new.items ≡ text.old.items ++ bytes.now }
    ensures count { array_vec_len text.new ≡ array_vec_len text.old + length bytes.now }
{
    let Ok(()) = text.try_extend_from_slice(bytes) else {
        unreachable!();
    };
}

// A word and a number in decimal.
// requires: there is room for both; the largest number has 20 digits.
pub fn field<const N: usize>(text: &mut ArrayVec<u8, N>, word: &[u8], n: usize)
    requires { array_vec_len text.old + length word.now + 20 ≤ N }
    ensures put { text.new.items ≡ text.old.items ++ (word.now ++ digits_of n) }
    ensures upper_bound { array_vec_len text.new ≤ array_vec_len text.old + length word.now + 20 }
{
    let mut digits = itoa::Buffer::new();
    put(text, word);
    put(text, digits.format(n).as_bytes());
}
