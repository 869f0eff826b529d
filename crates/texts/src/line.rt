// The lines that are printed: a word and a count, or a refusal with its number and place.
// Bounds of a number stay clauses here: the check finds them at each call, and a type around the number would be opened at each use.
ghost use Rattle.std.specs.Prelude.{◌≡◌, ◌∷◌, ◌++◌, ◌+◌, ◌≤◌, length, drop};
ghost use Rattle.table_files.specs.Answer.{refused};
ghost use Rattle.calls.specs.Text.{ascii};
ghost use Rattle.calls.specs.Program.{decimal, printed};

use crate::decimal::write_decimal;
use crate::word::write_word;

// Writes a word, a blank and a number to the front of the lent bytes, and tells how many bytes that takes. Later bytes stay.
pub fn write_counted(out: &mut [u8], word: &[u8], n: u16) -> usize
    requires { length word.now + 6 ≤ length out.old }
    ensures few { result ≤ length word.now + 6 }
    ensures length { result ≡ length (word.now ++ (32 ∷ ascii (decimal n))) }
    ensures text { out.new ≡ (word.now ++ (32 ∷ ascii (decimal n))) ++ drop result out.old }
{
    let at = write_word(out, word);
    out[at] = b' ';
    at + 1 + write_decimal(&mut out[at + 1..], n)
}

// Writes the line of a refusal, without its newline.
pub fn write_refused(out: &mut [u8], number: u8, place: u16) -> usize
    requires { 19 ≤ length out.old }
    ensures few { result ≤ 19 }
    ensures length { result ≡ length (ascii (printed "REFUSED" (refused number place))) }
    ensures text { out.new ≡ ascii (printed "REFUSED" (refused number place)) ++ drop result out.old }
{
    let end = write_counted(out, b"REFUSED", u16::from(number));
    end + write_counted(&mut out[end..], b"", place)
}
