// Document 01's examples of following, P5 to P8 and P10, run: each is a table and a row in bytes. Printed are the count of next rows and then, a
// line for each, its intervals and its ranks.
// Bounds of a number stay clauses here: the check finds them at each call, and a type around the number would be opened at each use.
#![tactic(auto)]

ghost use Rattle.std.specs.Prelude.{◌≤◌};

use following::follow::follow;
use rows::row::row_width;
use std::io;

// Prints bytes as numbers, with spaces between them.
fn print_numbers(rt: &impl Print, bytes: &[u8]) -> io::Result<()> {
    for (i, byte) in bytes.iter().enumerate() {
        if 0 < i {
            print!(rt; " ")?;
        }
        print_byte(rt, *byte)?;
    }
    Ok(())
}

// Prints a byte as a number.
fn print_byte(rt: &impl Print, x: u8) -> io::Result<()> {
    print!(rt; "{x}")
}

// Prints the first so many row records of n clocks, as long as there are bytes for them.
fn print_rows(rt: &impl Print, bytes: &[u8], n: usize, count: usize) -> io::Result<()>
    requires { n ≤ 4 }
{
    for row in bytes.chunks_exact(row_width(n)).take(count) {
        print_numbers(rt, &row[3..3 + n])?;
        print!(rt; ", ")?;
        print_numbers(rt, &row[3 + n..])?;
        println!(rt)?;
    }
    Ok(())
}

// Follows a row of n clocks, and prints the example's name, and the count and the rows, or the refusal.
fn show(
    rt: &impl Print,
    name: &str,
    table: &[u8],
    row: &[u8],
    n: usize,
    number: u16,
) -> io::Result<()>
    requires { n ≤ 4 }
{
    let mut buffer = [0u8; 60];
    match follow(table, row, number, &mut buffer) {
        Ok(count) => {
            println!(rt; "{name} {count}")?;
            print_rows(rt, &buffer, n, count)
        }
        Err(refusal) => println!(rt;
            "{name} REFUSED {} {}",
            refusal.fault.number(),
            refusal.place
        ),
    }
}

fn main(rt: HostRuntime) -> io::Result<()> {
    // P5, bounds 3 and 2: clock 0 > clock 1 + 2, clock 1 kept. P6: the same row, by waiting.
    let table =
        b"TA\x02\x01\x00\x00\x01\x03\x02LO\x00ED\x00\x00\x00\x02\x04\x01\x00\x02\x00\x00\x00\x00\x00";
    let row = b"RW\x00\x03\x01\x01\x02";
    show(&rt, "P5", table, row, 2, 0)?;
    show(&rt, "P6", table, row, 2, 65535)?;
    // P7, bounds 2 and 2: the two clocks swapped.
    let table =
        b"TA\x02\x01\x00\x00\x01\x02\x02LO\x00ED\x00\x00\x00\x02\x02\x01\x00\x00\x02\x02\x00\x00\x00";
    show(&rt, "P7", table, b"RW\x00\x01\x03\x01\x02", 2, 0)?;
    // P8, three clocks a, b, c with bound 1: a > b, b := 0, c < b.
    let table =
        b"TA\x03\x01\x00\x00\x01\x01\x01\x01LO\x00ED\x00\x00\x00\x02\x04\x01\x00\x00\x01\x02\x00\x00\x00\x02\x00\x01\x00\x00";
    show(&rt, "P8", table, b"RW\x00\x01\x01\x01\x01\x01\x01", 3, 0)?;
    // P10, bound 1: x := x + 1.
    let table = b"TA\x01\x01\x00\x00\x01\x01LO\x00ED\x00\x00\x00\x02\x02\x00\x00\x01";
    show(&rt, "P10", table, b"RW\x00\x01\x01", 1, 0)
}
