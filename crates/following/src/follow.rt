// Following one region: its next rows, by waiting or by an edge, written into a lent buffer.
// What joins two parameters stays a clause here: a type of both would be made anew for each call, and taken apart in it.
ghost use Rattle.std.specs.Prelude.{◌≡◌, true, ℕ, ◌*◌, ◌≤◌, ◌<◌, length, leb, Some};
ghost use Rattle.automata.specs.Clocks.{at};
ghost use Rattle.regions.specs.Image.{deterministic};
ghost use Rattle.regions.specs.Values.{edge_of};
ghost use Rattle.edge_walk.specs.Way.{rows_on};
ghost use Rattle.table_files.specs.Answer.{accepted};
ghost use Rattle.table_files.specs.Admission.{table_of};
ghost use Rattle.calls.specs.RegionFile.{row_width};
ghost use Rattle.calls.specs.Follow.{follow_answer, follow_buffer};
ghost use Rattle.calls.specs.Meaning.{Written};
ghost use Rattle.tables.specs.Values.{answer_of};
ghost use Rattle.following.specs.Following.{Stands, Leaves, rows_waited, rows_led, row_found, fits, told, put, FirstAfter, Stays};
ghost use Rattle.following.specs.Writing.{Low};

use crate::writing::write_all;
use edge_walk::way::{Way, is_enabled, way_by};
use regions::clocks::Clocks;
use regions::edge::Edge;
use regions::image::is_deterministic;
use regions::region::Region;
use rows::row::{read_row, row_width};
use rows::row_writer::write_row;
use table_records::refusal::{Fault, Refusal};
use tables::admission::open;
use way_counts::way_count::way_count;

// The count of rows written, or why and where it is refused. A buffer may have room for more rows than a number of two bytes counts.
pub type Followed = Result<usize, Refusal>;

// The bytes of a row record.
fn width_of(clocks: Clocks) -> usize
    ensures { result ≡ row_width clocks.count }
{
    row_width(clocks.count as usize)
}

// Whether so many rows fit in so many bytes. The room is divided, since the bytes of all rows together may be more than a number can count.
fn all_fit(clocks: Clocks, count: usize, room: usize) -> bool
    ensures { result ≡ leb (count * row_width clocks.count) room }
{
    count <= room / width_of(clocks)
}

// Writes the row of a region, if there is one and it fits, and tells how many that are.
fn write_one(buffer: &mut [u8], clocks: Clocks, next: Option<Region>) -> Followed
    requires { (region : Region) → next ≡ Some region → (z : ℕ) → z < clocks.count → at region.intervals z < 256 }
    ensures answer { answer_of result ≡ told (fits (row_found clocks.count next) (length buffer.old)) (row_found clocks.count next) }
    ensures buffer { buffer.new ≡ put (fits (row_found clocks.count next) (length buffer.old)) (row_found clocks.count next) buffer.old }
{
    let Some(region) = next else {
        return Ok(0);
    };
    if buffer.len() < width_of(clocks) {
        return Err(Fault::BufferShort.at(0));
    }
    write_row(buffer, clocks.count as usize, region);
    Ok(1)
}

// Follows a way: counts first, so that a refusal has written nothing.
fn follow_way(buffer: &mut [u8], way: Way) -> Followed
    requires low { Low way.search.clocks }
    ensures answer { answer_of result ≡ told (fits (rows_on way) (length buffer.old)) (rows_on way) }
    ensures buffer { buffer.new ≡ put (fits (rows_on way) (length buffer.old)) (rows_on way) buffer.old }
{
    let count = way_count(way);
    if !all_fit(way.search.clocks, count, buffer.len()) {
        return Err(Fault::BufferShort.at(0));
    }
    write_all(buffer, way);
    Ok(count)
}

// The only region that a deterministic edge leads to, or none.
fn image_by(clocks: Clocks, from: Region, e: Edge) -> Option<Region>
    requires stands { Stands clocks from }
    requires leaves { Leaves clocks e }
    requires e_value { deterministic clocks.count (edge_of clocks.count e) ≡ true }
    ensures { rows_led clocks e from ≡ row_found clocks.count result }
{
    if !is_enabled(clocks, from, e) {
        return None;
    }
    from.image(clocks, e)
}

// Follows a region by an edge. Where it leads to one region at most, that is computed, and no way is gone.
#[tactic(auto, using(crate::proofs::Laws::FollowRows::nothing_done))]
fn follow_edge(buffer: &mut [u8], clocks: Clocks, from: Region, e: Edge) -> Followed
    requires stands { Stands clocks from }
    requires leaves { Leaves clocks e }
    ensures answer { answer_of result ≡ told (fits (rows_led clocks e from) (length buffer.old)) (rows_led clocks e from) }
    ensures buffer { buffer.new ≡ put (fits (rows_led clocks e from) (length buffer.old)) (rows_led clocks e from) buffer.old }
{
    if is_deterministic(usize::from(clocks.count), e) {
        return write_one(buffer, clocks, image_by(clocks, from, e));
    }
    let Some(way) = way_by(clocks, from, e) else {
        return Ok(0);
    };
    follow_way(buffer, way)
}

// Follows a region by waiting: one next row, or none.
fn follow_wait(buffer: &mut [u8], clocks: Clocks, from: Region) -> Followed
    requires { Stands clocks from }
    ensures answer { answer_of result ≡ told (fits (rows_waited clocks from) (length buffer.old)) (rows_waited clocks from) }
    ensures buffer { buffer.new ≡ put (fits (rows_waited clocks from) (length buffer.old)) (rows_waited clocks from) buffer.old }
{
    write_one(buffer, clocks, from.wait(clocks))
}

// Follows a region by an edge, or by waiting for 65,535: the next rows are written into the buffer, ascending, each from the next free byte on.
// Refusals 1 to 9, 18, 19, which alter nothing, or the count of rows.
pub fn follow(table: &[u8], row: &[u8], number: u16, buffer: &mut [u8]) -> Followed
    ensures answer { answer_of result ≡ follow_answer table.now row.now number buffer.old }
    ensures buffer { buffer.new ≡ follow_buffer table.now row.now number buffer.old }
    ensures written { (k : ℕ) → answer_of result ≡ accepted k → Written (table_of table.now) row.now number buffer.old buffer.new k }
    ensures first { (k : ℕ) → answer_of result ≡ accepted k → number ≡ 65535 → FirstAfter (table_of table.now) row.now }
    ensures last { answer_of result ≡ accepted 0 → number ≡ 65535 → Stays (table_of table.now) row.now }
{
    let opened = open(table)?;
    let from = read_row(row, 0, &opened).map_err(|fault| fault.at(0))?;
    let clocks = opened.head.clocks;
    if width_of(clocks) < row.len() {
        return Err(Fault::ListLong.at(1));
    }
    if number == 65535 {
        return follow_wait(buffer, clocks, from);
    }
    if opened.head.edges <= number {
        return Err(Fault::EdgeUnknown.at(0));
    }
    follow_edge(buffer, clocks, from, opened.edge_at(number))
}
