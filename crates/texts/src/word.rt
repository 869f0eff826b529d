// Words, copied as they stand.
ghost use Rattle.std.specs.Prelude.{◌≡◌, ◌++◌, ◌≤◌, length, drop};

// Writes a word to the front of the lent bytes, and tells how many bytes it takes. Later bytes stay.
pub fn write_word(out: &mut [u8], word: &[u8]) -> usize
    requires { length word.now ≤ length out.old }
    ensures length { result ≡ length word.now }
    ensures text { out.new ≡ word.now ++ drop (length word.now) out.old }
{
    let n = word.len();
    out[..n].copy_from_slice(word);
    n
}
