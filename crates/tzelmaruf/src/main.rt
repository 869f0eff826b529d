// Reads table.tab and proof.prf from the working directory, and prints one line: the verdict. What is decided, and the bytes of that line, are
// the library's; 65,536 bytes of a file are enough to tell (`print`).
#![tactic(auto)]

ghost use Rattle.std.specs.Prelude.{◌≡◌, List, ℕ, OnOk, take};
ghost use Rattle.std.specs.Io.KnownBytes.{Appends};
ghost use Rattle.calls.specs.Program.{printed_bytes};

use checker::line::print;
use files::reading::read_file;
use std::io;
use std::io::Write;

// Writes the line that is printed for a table and a paper, and nothing else. It is the line for longer files too, if these are their first 65,536 bytes.
fn write_line<W: Write>(out: &mut W, table: &[u8], paper: &[u8]) -> io::Result<()>
    ensures { (t p : List ℕ) → table.now ≡ take 65536 t → paper.now ≡ take 65536 p → OnOk result (Appends (W.contents out.old) (W.contents out.new) (printed_bytes t p)) }
{
    let mut line = [0u8; 32];
    let n = print(&mut line, table, paper);
    out.write_all(&line[..n])
}

fn main(rt: HostRuntime) -> io::Result<()> {
    let mut table = [0u8; 65536];
    let mut paper = [0u8; 65536];
    let table_length = read_file(&rt, "table.tab", &mut table);
    let paper_length = read_file(&rt, "proof.prf", &mut paper);
    write_line(
        &mut rt.stdout(),
        &table[..table_length],
        &paper[..paper_length],
    )
}
