// The turns of the making of a list: how work begins, goes on and ends.
// Bounds of a number stay clauses here: the check finds them at each call, and a type around the number would be opened at each use.
ghost use Rattle.std.specs.Prelude.{◌≡◌, true, false, List, ◌⊎◌, ℕ, suc, ◌+◌, ◌*◌, ◌≤◌, ◌<◌, length, set, get_or, replicate};
ghost use Rattle.regions.specs.Values.{row_of};
ghost use Rattle.regions.specs.declared.region.Region.{Region};
ghost use Rattle.table_files.specs.Admission.{table_of};
ghost use Rattle.calls.specs.RegionFile.{row_width};
ghost use Rattle.listed_rows.specs.Listed.{listed_rows};
ghost use Rattle.making_turns.specs.Work.{blank, left, Standing, Working, Loops, Begins, BeginsRows, Comes};

use crate::work::{Work, starting};
use kept_rows::finishing::{clear, finish as finish_list};
use kept_rows::inserting::insert;
use listed_rows::region_list::RegionList;
use next_steps::following::follow_row;
use next_steps::walking::walk_edges;
use regions::region::Region;
use rows::row::{initial_row, row_width};
use table_records::refusal::{Fault, Refusal};
use tables::admission::open;
use tables::reading::first_edge;
use tables::table::Table;

// Whether there is room for a row more than so many.
fn has_room(n: usize, count: usize, room: usize) -> bool
    requires n_bound { n ≤ 4 }
    requires count_bound { count ≤ 4096 }
    ensures yes { result ≡ true → (count < 4096) × (4 + suc count * row_width n ≤ room) }
    ensures no { result ≡ false → (4096 < suc count) ⊎ (room < 4 + suc count * row_width n) }
{
    count < 4096 && 4 + (count + 1) * row_width(n) <= room
}

// The rows that are kept, as they stand in the buffer.
fn kept(out: &[u8], s: Work) -> RegionList<'_>
    requires { (table before : List ℕ) × (records : ℕ) × (ws : List Region) × Standing table before records out.now ws s }
    ensures clocks { result.clocks ≡ s.head.clocks }
    ensures bytes { result.bytes.now ≡ out.now }
    ensures count { result.count ≡ s.count }
{
    RegionList {
        clocks: s.head.clocks,
        bytes: out,
        count: s.count,
    }
}

// The table, as work goes by it.
fn read_by(table: &[u8], s: Work) -> Table<'_>
    requires { (before out : List ℕ) × (records : ℕ) × (ws : List Region) × Standing table.now before records out ws s }
    ensures file { result.file.now ≡ table.now }
    ensures head { result.head ≡ s.head }
{
    Table {
        file: table,
        head: s.head,
    }
}

// Adds a new row to the list, or ends with 20 where there is no room for it.
fn add(out: &mut [u8], s: Work, row: Region) -> Work
    requires { (table before : List ℕ) × (records : ℕ) × (ws : List Region) × Standing table before records out.old ws s × Comes (table_of table) (listed_rows s.head.clocks.count out.old s.count) (row_of s.head.clocks.count row) }
    ensures loops { (table before : List ℕ) (records : ℕ) (ws : List Region) → Standing table before records out.old ws s → Comes (table_of table) (listed_rows s.head.clocks.count out.old s.count) (row_of s.head.clocks.count row) → Loops table before records out.new ws result }
    ensures falls { left result < left s }
{
    let clocks = s.head.clocks;
    if !has_room(clocks.count as usize, s.count, out.len()) {
        clear(out);
        return s.refusing(Fault::NoRoom.at(0));
    }
    let at = kept(out, s).rows_below(row, 2 * s.count);
    insert(out, clocks, s.count, at, row);
    s.adding(row)
}

// Goes on where the row at the top has been followed by all plain steps: with the next row, or with walks.
fn follow_next(s: Work) -> Work
    requires walking_value { (s.walking ≡ false) × (s.last.step ≡ suc s.head.edges) }
    requires by_index { (table before : List ℕ) × (records : ℕ) × (out : List ℕ) × (ws : List Region) × Standing table before records out ws s }
    ensures loops { (table before : List ℕ) (records : ℕ) (out : List ℕ) (ws : List Region) → Standing table before records out ws s → Loops table before records out ws result }
    ensures falls { left result < left s }
{
    if s.top + 1 < s.count {
        return s.next_row();
    }
    s.to_walks(first_edge(s.head.clocks.count, s.head.locations))
}

// Ends where all rows have been followed: with the list, or with 21.
fn conclude(out: &mut [u8], s: Work) -> Work
    requires walking_value { (s.walking ≡ true) × (s.last.step ≡ suc s.head.edges) × (s.count ≤ s.top) }
    requires by_index { (table before : List ℕ) × (records : ℕ) × (ws : List Region) × Standing table before records out.old ws s }
    ensures loops { (table before : List ℕ) (records : ℕ) (ws : List Region) → Standing table before records out.old ws s → Loops table before records out.new ws result }
    ensures falls { left result < left s }
{
    if s.last.entered {
        clear(out);
        return s.refusing(Fault::FinalEntered.at(0));
    }
    finish_list(out, s.head.clocks.count as usize, s.count);
    s.ending()
}

// Goes on where the rows have been walked by all other steps: with the rows that were found since, or to the end.
fn walk_next(out: &mut [u8], s: Work) -> Work
    requires walking_value { (s.walking ≡ true) × (s.last.step ≡ suc s.head.edges) }
    requires by_index { (table before : List ℕ) × (records : ℕ) × (ws : List Region) × Standing table before records out.old ws s }
    ensures loops { (table before : List ℕ) (records : ℕ) (ws : List Region) → Standing table before records out.old ws s → Loops table before records out.new ws result }
    ensures falls { left result < left s }
{
    if s.top < s.count {
        return s.to_rows();
    }
    conclude(out, s)
}

// A turn that follows the row which was taken by plain steps.
fn follow_turn(table: &[u8], out: &mut [u8], r: Region, s: Work) -> Work
    requires walking_value { s.walking ≡ false }
    requires by_index { (before : List ℕ) × (records : ℕ) × (ws : List Region) × Standing table.now before records out.old ws s × (r ≡ get_or ws s.take blank) }
    ensures loops { (before : List ℕ) (records : ℕ) (ws : List Region) → Standing table.now before records out.old ws s → r ≡ get_or ws s.take blank → Loops table.now before records out.new ws result }
    ensures falls { left result < left s }
{
    let list = kept(out, s);
    let q = follow_row(&read_by(table, s), &list, r, s.last);
    let w = s.went(q);
    match q.next {
        Some(row) => add(out, w, row),
        None => follow_next(w),
    }
}

// A turn that walks by the other steps.
fn walk_turn(table: &[u8], out: &mut [u8], s: Work) -> Work
    requires walking_value { s.walking ≡ true }
    requires by_index { (before : List ℕ) × (records : ℕ) × (ws : List Region) × Standing table.now before records out.old ws s }
    ensures loops { (before : List ℕ) (records : ℕ) (ws : List Region) → Standing table.now before records out.old ws s → Loops table.now before records out.new ws result }
    ensures falls { left result < left s }
{
    let list = kept(out, s);
    let q = walk_edges(&read_by(table, s), &list, s.start, s.last);
    let w = s.went(q);
    match q.next {
        Some(row) => add(out, w, row),
        None => walk_next(out, w),
    }
}

// One turn: all that is done with the row which was taken, up to the next one to be stored.
pub fn turn(table: &[u8], out: &mut [u8], r: Region, s: Work) -> Work
    requires { (before : List ℕ) × (records : ℕ) × (ws : List Region) × Working table.now before records out.old ws s × (r ≡ get_or (set ws s.place s.row) s.take blank) }
    ensures loops { (before : List ℕ) (records : ℕ) (ws : List Region) → Working table.now before records out.old ws s → r ≡ get_or (set ws s.place s.row) s.take blank → Loops table.now before records out.new (set ws s.place s.row) result }
    ensures falls { left result < left s }
{
    if s.walking {
        return walk_turn(table, out, s);
    }
    follow_turn(table, out, r, s)
}

// Begins with the initial row, or refuses at once. What a refusal leaves in the buffer is not yet cleared.
fn begin_rows(table: &[u8], out: &mut [u8], records: usize) -> Result<Work, Refusal>
    ensures { (ws : List Region) → length ws ≡ records → BeginsRows table.now out.old records out.new ws result }
{
    let opened = open(table)?;
    let head = opened.head;
    if records < 4096 {
        return Err(Fault::NoRoom.at(0));
    }
    if out.len() < 4 {
        return Err(Fault::NoRoom.at(0));
    }
    if opened.is_final(head.initial) {
        return Err(Fault::FinalEntered.at(0));
    }
    if out.len() < 4 + row_width(head.clocks.count as usize) {
        return Err(Fault::NoRoom.at(0));
    }
    let first = initial_row(head.initial);
    insert(out, head.clocks, 0, 0, first);
    Ok(starting(head, first))
}

// Work before the first turn, with a buffer and so many waiting records; or the refusal, with the buffer cleared.
pub fn begin(table: &[u8], out: &mut [u8], records: usize) -> Result<Work, Refusal>
    ensures { (ws : List Region) → length ws ≡ records → Begins table.now out.old records out.new ws result }
{
    let begun = begin_rows(table, out, records);
    if begun.is_err() {
        clear(out);
    }
    begun
}
