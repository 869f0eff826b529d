// The line that is printed for a table and a paper, as bytes.
// Bounds of a number stay clauses here: the check finds them at each call, and a type around the number would be opened at each use.
ghost use Rattle.std.specs.Prelude.{◌≡◌, List, ◌++◌, ℕ, ◌≤◌, length, take, drop};
ghost use Rattle.calls.specs.Text.{ascii};
ghost use Rattle.calls.specs.Program.{printed_bytes};
ghost use Rattle.checker.specs.Verdict.{line_of, text_of};

use crate::verdict::{Verdict, judge};
use table_records::refusal::Refusal;
use texts::line::{write_counted, write_refused};

// Writes the line of a verdict, without its newline.
fn write_verdict(out: &mut [u8], verdict: Result<Verdict, Refusal>) -> usize
    requires { 19 ≤ length out.old }
    ensures few { result ≤ 19 }
    ensures length { result ≡ length (ascii (line_of verdict)) }
    ensures text { out.new ≡ ascii (line_of verdict) ++ drop result out.old }
{
    match verdict {
        Ok(Verdict::Reached(steps)) => write_counted(out, b"REACHED", steps),
        Ok(Verdict::Empty(rows)) => write_counted(out, b"EMPTY", rows),
        Err(refusal) => write_refused(out, refusal.fault.number(), refusal.place),
    }
}

// Writes the line of a verdict and its newline to the front of the lent bytes, and tells how many bytes that takes. Later bytes stay.
pub fn write_line(out: &mut [u8; 32], verdict: Result<Verdict, Refusal>) -> usize
    ensures few { result ≤ 32 }
    ensures length { result ≡ length (text_of verdict) }
    ensures text { out.new ≡ text_of verdict ++ drop result out.old }
{
    let end = write_verdict(out, verdict);
    out[end] = b'\n';
    end + 1
}

// Writes the line that is printed for a table and a paper, and tells how many bytes that takes. It is the line for longer files too, if these are
// their first 65,536 bytes.
pub fn print(out: &mut [u8; 32], table: &[u8], paper: &[u8]) -> usize
    ensures few { (result ≤ length out.new) × (result ≡ length (take result out.new)) }
    ensures prints { (t p : List ℕ) → table.now ≡ take 65536 t → paper.now ≡ take 65536 p → take result out.new ≡ printed_bytes t p }
{
    write_line(out, judge(table, paper))
}
