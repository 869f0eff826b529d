// The location records of a table.
ghost use Rattle.std.specs.Prelude.{◌≤◌, length, drop};
ghost use Rattle.table_files.specs.Reading.{records};
ghost use Rattle.table_files.specs.TableFile.{location};
ghost use Rattle.table_records.specs.Scan.{Scanned};

use crate::record::record;
use crate::refusal::{Fault, Refusal};

const LO: [u8; 2] = *b"LO";

// Reads the location record from at on, its bytes, its mark and its flags, and says where the next one begins.
fn location(file: &[u8], at: usize, place: u16) -> Result<usize, Refusal>
    ensures { Scanned file.now (location place (drop at file.now)) result }
{
    let bytes = record(file, at, 3, LO);
    if bytes.len() < 3 {
        return Err(Fault::TableCut.at(place));
    }
    if 3 < bytes[2] {
        return Err(Fault::TableRange.at(place));
    }
    Ok(at + 3)
}

// Reads so many location records from at on, the first of them at place 1, and says where they end.
pub fn locations(file: &[u8], at: usize, count: u8) -> Result<usize, Refusal>
    requires { at ≤ length file.now }
    ensures { Scanned file.now (records location 1 count (drop at file.now)) result }
{
    let mut here = at;
    for place in 1..1 + (count as u16) {
        here = location(file, here, place)?;
    }
    Ok(here)
}
