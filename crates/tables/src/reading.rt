// What an admitted table says: its locations and edges, by value.
ghost use Rattle.std.specs.Prelude.{◌≡◌, ◌+◌, ◌*◌, ◌<◌, ◌≤◌};
ghost use Rattle.automata.specs.Automaton.{edge, final};
ghost use Rattle.regions.specs.Values.{edge_of};
ghost use Rattle.table_files.specs.Admission.{table_of};
ghost use Rattle.tables.specs.Bounds.{edge_start, StartsOf};

use crate::table::Table;
use regions::edge::Edge;
use table_records::decode::{after_edge, edge_from};
use table_records::record::part;

// Where the first edge's record begins: after the header and the locations.
pub fn first_edge(clocks: u8, locations: u8) -> usize
    ensures { result ≡ 7 + clocks + 3 * locations }
{
    7 + (clocks as usize) + 3 * (locations as usize)
}

impl Table<'_> {
    // Whether a location is final.
    pub fn is_final(&self, location: u8) -> bool
        requires location_lt_locations { location < self.now.head.locations }
        ensures { result ≡ final (table_of self.now.file.now) location }
    {
        let at = 7 + (self.head.clocks.count as usize) + 3 * (location as usize);
        let bytes = part(self.file, at, 3);
        bytes[2] % 2 == 1
    }

    // Where each edge's record begins, two bytes an edge: found in one pass, so that whoever takes many edges looks for none of them.
    pub fn edge_starts(&self) -> [u16; 256]
        ensures { StartsOf self.now.head.clocks.count self.now.head.locations self.now.file.now self.now.head.edges result }
    {
        let n = self.head.clocks.count;
        let mut starts = [0u16; 256];
        let mut here = first_edge(n, self.head.locations);
        for k in 0..self.head.edges {
            starts[k as usize] = here as u16;
            here = after_edge(self.file, here, n);
        }
        starts
    }

    // Where one edge's record begins.
    fn edge_start(&self, number: u16) -> usize
        requires number_lt_edges { number < self.now.head.edges }
        ensures { result ≡ edge_start self.now.head.clocks.count self.now.head.locations self.now.file.now number }
    {
        let n = self.head.clocks.count;
        let mut at = first_edge(n, self.head.locations);
        for _edge in 0..number {
            at = after_edge(self.file, at, n);
        }
        at
    }

    // An edge, by value.
    pub fn edge_at(&self, number: u16) -> Edge
        requires number_lt_edges { number < self.now.head.edges }
        ensures means { edge_of self.now.head.clocks.count result ≡ edge (table_of self.now.file.now) number }
        ensures few { result.guard_count ≤ 8 }
    {
        edge_from(self.file, self.edge_start(number), self.head.clocks.count)
    }
}
