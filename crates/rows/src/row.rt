// Row records, by value.
// Bounds of a number stay clauses here: the check finds them at each call, and a type around the number would be opened at each use.
ghost use Rattle.std.specs.Prelude.{◌≡◌, cond, ℕ, ◌+◌, ◌*◌, ◌≤◌, List, length, ltb};
ghost use Rattle.automata.specs.Clocks.{at, each};
ghost use Rattle.automata.specs.Closed.{first_row};
ghost use Rattle.regions.specs.Values.{padded, region_of};
ghost use Rattle.table_files.specs.Admission.{table_of};
ghost use Rattle.table_records.specs.declared.head.Head.{Head};
ghost use Rattle.tables.specs.Values.{Describes};
ghost use Rattle.calls.specs.RegionFile.{row_in, row_width};
ghost use Rattle.rows.specs.Row.{ReadsRow, byte_from};

use regions::clocks::Clocks;
use regions::region::Region;
use table_records::record::record;
use table_records::refusal::Fault;
use tables::table::Table;

// A byte as one of a region's numbers.
pub fn wide(x: u8) -> u16
    ensures { result ≡ x }
{
    x as u16
}

// Byte z of the n from at on, or 0 after them.
fn byte_of(bytes: &[u8], at: usize, n: usize, z: usize) -> u8
    requires { at + n ≤ length bytes.now }
    ensures { result ≡ cond (ltb z n) (byte_from bytes.now at z) 0 }
{
    if z < n { bytes[at + z] } else { 0 }
}

// The n bytes from at on as intervals, zeros after them.
fn intervals_in(bytes: &[u8], at: usize, n: usize) -> [u16; 4]
    requires { (n ≤ 4) × (at + n ≤ length bytes.now) }
    ensures { result ≡ padded (each n (byte_from bytes.now at)) }
{
    [
        wide(byte_of(bytes, at, n, 0)),
        wide(byte_of(bytes, at, n, 1)),
        wide(byte_of(bytes, at, n, 2)),
        wide(byte_of(bytes, at, n, 3)),
    ]
}

// The n bytes from at on as ranks, zeros after them.
fn ranks_in(bytes: &[u8], at: usize, n: usize) -> [u8; 4]
    requires { (n ≤ 4) × (at + n ≤ length bytes.now) }
    ensures { result ≡ padded (each n (byte_from bytes.now at)) }
{
    [
        byte_of(bytes, at, n, 0),
        byte_of(bytes, at, n, 1),
        byte_of(bytes, at, n, 2),
        byte_of(bytes, at, n, 3),
    ]
}

// The bytes of a row record of n clocks.
pub fn row_width(n: usize) -> usize
    requires { n ≤ 4 }
    ensures { result ≡ row_width n }
{
    3 + 2 * n
}

// The region in the bytes of a row record.
pub fn region_in(bytes: &[u8], n: usize) -> Region
    requires { (n ≤ 4) × (row_width n ≤ length bytes.now) }
    ensures { result ≡ region_of (row_in n bytes.now) }
{
    Region {
        location: bytes[2],
        intervals: intervals_in(bytes, 3, n),
        ranks: ranks_in(bytes, 3 + n, n),
    }
}

// The initial row of a table that has this initial location: the location, then zeros.
pub fn initial_row(initial: u8) -> Region
    ensures { (file : List ℕ) (head : Head) → Describes file head → initial ≡ head.initial → result ≡ region_of (first_row (table_of file)) }
{
    Region {
        location: initial,
        intervals: [0; 4],
        ranks: [0; 4],
    }
}

// The region of the row record at a position of a file; or refusal 7 or 8.
pub fn read_row(file: &[u8], at: usize, table: &Table) -> Result<Region, Fault>
    ensures { ReadsRow (table_of table.now.file.now) file.now at result }
{
    let head = table.head;
    let n = head.clocks.count as usize;
    let bytes = record(file, at, row_width(n), *b"RW");
    if bytes.is_empty() {
        return Err(Fault::ListCut);
    }
    let region = region_in(bytes, n);
    if head.locations <= region.location {
        return Err(Fault::ListRange);
    }
    if region.is_region(head.clocks) {
        Ok(region)
    } else {
        Err(Fault::ListRange)
    }
}
