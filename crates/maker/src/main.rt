// Reads table.tab from the working directory, makes the region list, writes it to the new file proof.prf.new, and prints one line: how many rows were
// made, or the refusal, after which no file is written. Where the file is there already, or cannot be written whole, that line is not printed.
#![tactic(auto)]

ghost use Rattle.std.specs.Prelude.{◌≡◌, List, ℕ, take};
ghost use Rattle.std.specs.Counts.{IsPrefixLen};
ghost use Rattle.calls.specs.Program.{made_bytes, made_file};

use files::reading::read_file;
use files::writing::write_new;
use made_lists::file::made_length;
use made_lists::line::write_made;
use making::make::make_here;
use std::io;

// How many bytes the list has, none after a refusal, and how many the line.
#[derive(Clone, Copy)]
struct Made {
    list: usize,
    line: usize,
}

// Makes the list, and its line, each at the front of the lent bytes. They are those of a longer table too, if these are its first 65,536 bytes.
fn make(table: &[u8], list: &mut [u8; 45060], line: &mut [u8; 32]) -> Made
    ensures few { IsPrefixLen result.list list.new × IsPrefixLen result.line line.new }
    ensures writes { (t : List ℕ) → table.now ≡ take 65536 t → take result.list list.new ≡ made_file t }
    ensures prints { (t : List ℕ) → table.now ≡ take 65536 t → take result.line line.new ≡ made_bytes t }
{
    let answer = make_here(table, list);
    Made {
        list: made_length(table, answer),
        line: write_made(line, answer),
    }
}

fn main(rt: HostRuntime) -> io::Result<()> {
    let mut table = [0u8; 65536];
    let n = read_file(&rt, "table.tab", &mut table);
    let mut list = [0u8; 45060];
    let mut line = [0u8; 32];
    let made = make(&table[..n], &mut list, &mut line);
    if 0 < made.list && write_new(&rt, "proof.prf.new", &list[..made.list]).is_err() {
        return eprintln!(rt; "proof.prf.new is there already, or cannot be written to its end");
    }
    rt.write_all(&line[..made.line])
}
