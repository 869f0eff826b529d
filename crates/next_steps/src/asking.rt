// One plain edge from one row of a list in the making: a deterministic one leads to one row at most, which may be new; one into a final location is asked
// whether it leads anywhere, and never gone.
// What joins two parameters stays a clause here: a type of both would be made anew for each call, and taken apart in it.
ghost use Rattle.std.specs.Prelude.{◌≡◌, ℕ, suc, ◌≤◌, ◌<◌};
ghost use Rattle.automata.specs.Row.{IsRow};
ghost use Rattle.automata.specs.Automaton.{edge};
ghost use Rattle.regions.specs.Values.{bounds_of, row_of, edge_of};
ghost use Rattle.table_files.specs.Admission.{table_of};
ghost use Rattle.table_records.specs.Edge.{edge_at, Stands};
ghost use Rattle.tables.specs.Bounds.{edge_start};
ghost use Rattle.listed_rows.specs.RegionLists.{all_rows};
ghost use Rattle.next_steps.specs.Steps.{Asks};

use listed_rows::region_list::RegionList;
use new_rows::asking::leads_anywhere;
use new_rows::imaging::new_by_image;
use regions::edge::Edge;
use regions::image::is_deterministic;
use regions::region::Region;
use table_records::decode::edge_from;
use table_records::record::part;
use tables::table::Table;

// A new row, if there is one, and whether a final location has been entered.
#[derive(Clone, Copy)]
pub struct Asked {
    pub next: Option<Region>,
    pub entered: bool,
}

// The source of the edge whose record stands at a position, so that no edge of another location has to be read.
fn source_at(file: &[u8], at: usize, clocks: u8) -> u8
    requires { Stands clocks file.now at }
    ensures { result ≡ (edge_at clocks file.now at).source }
{
    part(file, at, 5)[2]
}

// Asks an edge of the table.
fn ask(table: &Table, list: &RegionList, e: Edge, from: Region, entered: bool) -> Asked
    requires clocks { list.now.clocks ≡ table.now.head.clocks }
    requires row { IsRow (bounds_of list.now.clocks) (row_of list.now.clocks.count from) }
    requires by_index { (j : ℕ) × (j < table.now.head.edges) × (edge_of table.now.head.clocks.count e ≡ edge (table_of table.now.file.now) j) }
    ensures { (j : ℕ) → j < table.now.head.edges → edge_of table.now.head.clocks.count e ≡ edge (table_of table.now.file.now) j → Asks (table_of table.now.file.now) (all_rows list.now) list.now.clocks.count (suc j) (row_of list.now.clocks.count from) entered result.next result.entered }
{
    if table.is_final(e.target) {
        return Asked {
            next: None,
            entered: entered || leads_anywhere(list.clocks, e, from),
        };
    }
    if is_deterministic(list.clocks.count as usize, e) {
        return Asked {
            next: new_by_image(list, e, from, 2 * list.count),
            entered,
        };
    }
    Asked {
        next: None,
        entered,
    }
}

// Asks the edge whose record stands at a position.
pub fn ask_at(table: &Table, list: &RegionList, at: usize, from: Region, entered: bool) -> Asked
    requires clocks { list.now.clocks ≡ table.now.head.clocks }
    requires row { IsRow (bounds_of list.now.clocks) (row_of list.now.clocks.count from) }
    requires by_index { (j : ℕ) × (j < table.now.head.edges) × (at ≡ edge_start table.now.head.clocks.count table.now.head.locations table.now.file.now j) }
    ensures { (j : ℕ) → j < table.now.head.edges → at ≡ edge_start table.now.head.clocks.count table.now.head.locations table.now.file.now j → Asks (table_of table.now.file.now) (all_rows list.now) list.now.clocks.count (suc j) (row_of list.now.clocks.count from) entered result.next result.entered }
{
    let n = table.head.clocks.count;
    if source_at(table.file, at, n) != from.location {
        return Asked {
            next: None,
            entered,
        };
    }
    ask(table, list, edge_from(table.file, at, n), from, entered)
}
