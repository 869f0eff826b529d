// The line that is printed for a list made from a table, as bytes.
// Bounds of a number stay clauses here: the check finds them at each call, and a type around the number would be opened at each use.
ghost use Rattle.std.specs.Prelude.{◌≡◌, ◌++◌, ◌≤◌, length, drop};
ghost use Rattle.tables.specs.Values.{answer_of};
ghost use Rattle.calls.specs.Text.{ascii};
ghost use Rattle.calls.specs.Program.{made_line, made_text};

use tables::answer::Answer;
use texts::line::{write_counted, write_refused};

// Writes the line of an answer, without its newline.
fn write_answer(out: &mut [u8], answer: Answer) -> usize
    requires { 19 ≤ length out.old }
    ensures few { result ≤ 19 }
    ensures length { result ≡ length (ascii (made_line (answer_of answer))) }
    ensures text { out.new ≡ ascii (made_line (answer_of answer)) ++ drop result out.old }
{
    match answer {
        Ok(rows) => write_counted(out, b"MADE", rows),
        Err(refusal) => write_refused(out, refusal.fault.number(), refusal.place),
    }
}

// Writes the line of an answer and its newline to the front of the lent bytes, and tells how many bytes that takes. Later bytes stay.
// It is like `write_line` of `checker` over another type: a function over both would be no shorter than the two lines.
pub fn write_made(out: &mut [u8; 32], answer: Answer) -> usize
    ensures few { result ≤ 32 }
    ensures length { result ≡ length (made_text (answer_of answer)) }
    ensures text { out.new ≡ made_text (answer_of answer) ++ drop result out.old }
{
    let end = write_answer(out, answer);
    out[end] = b'\n';
    end + 1
}
