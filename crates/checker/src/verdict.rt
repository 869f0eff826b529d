// What is said of a table and a paper: the run list or region list that came with it.
ghost use Rattle.std.specs.Prelude.{ℕ, ◌≡◌, List, take};
ghost use Rattle.automata.specs.Checks.{same};
ghost use Rattle.table_files.specs.Bytes.{RN};
ghost use Rattle.calls.specs.Program.{printed_line};
ghost use Rattle.checker.specs.Verdict.{line_of};

use region_lists::region_list::check_regions;
use run_lists::run::check_run;
use table_records::refusal::Refusal;

// A final location is entered by a run of so many steps; or no run enters one, by so many rows.
#[derive(Clone, Copy)]
pub enum Verdict {
    Reached(u16),
    Empty(u16),
}

// Whether a file begins with RN.
pub fn is_run(file: &[u8]) -> bool
    ensures { result ≡ same RN (take 2 file.now) }
{
    file.starts_with(b"RN")
}

// The verdict of a table and a paper. It is the verdict of longer files too, if these are their first 65,536 bytes: no file that is accepted has as many.
pub fn judge(table: &[u8], paper: &[u8]) -> Result<Verdict, Refusal>
    ensures whole { line_of result ≡ printed_line table.now paper.now }
    ensures first { (t p : List ℕ) → table.now ≡ take 65536 t → paper.now ≡ take 65536 p → line_of result ≡ printed_line t p }
{
    if is_run(paper) {
        return check_run(table, paper).map(Verdict::Reached);
    }
    check_regions(table, paper).map(Verdict::Empty)
}
