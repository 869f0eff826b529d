// Walks from rows of a region list that were chosen, by an edge that may lead to many regions: the least of them from which it leads out of the list.
// What joins two parameters stays a clause here: a type of both would be made anew for each call, and taken apart in it.
ghost use Rattle.std.specs.Prelude.{◌≡◌, ℕ, suc, ◌≤◌, length, is_ok};
ghost use Rattle.automata.specs.Clocks.{at};
ghost use Rattle.automata.specs.Checks.{every, has};
ghost use Rattle.skylines.specs.Skyline.{member};
ghost use Rattle.listed_rows.specs.RegionLists.{nth_row, all_rows};
ghost use Rattle.listed_rows.specs.EdgesInLists.{bounds_in, edge_in, led_in};
ghost use Rattle.selection.specs.Chosen.{AllSit, Offered, AllHeld};
ghost use Rattle.walked_rows.specs.Open.{Lowers, LeastOf};
ghost use Rattle.walked_rows.specs.Leading.{LeadsIn};

use inclusion::inside::leads_inside;
use listed_rows::edge_in_list::EdgeInList;
use skylines::reach::Reach;

// The least row found so far from which the edge leads out of the list, and where a row was looked up last.
#[derive(Clone, Copy)]
pub struct Least {
    pub row: usize,
    pub hint: usize,
}

// Whether the edge leads into the list from row i, which it can be taken from.
pub fn leads_from(edge: &EdgeInList, i: usize, hint: usize) -> Result<usize, usize>
    requires offered { Offered (edge_in edge.now) edge.now.list.clocks.count edge.now.list.bytes.now 0 edge.now.list.count i }
    ensures { is_ok result ≡ every (has (all_rows edge.now.list)) (led_in edge.now (nth_row edge.now.list i)) }
{
    leads_inside(edge, edge.list.row(i), hint)
}

// Looks from row i, which the edge can be taken from, if it is below the least row found so far. From there on nothing is left to look for.
fn look_from(edge: &EdgeInList, i: usize, least: Least) -> Least
    requires offered { Offered (edge_in edge.now) edge.now.list.clocks.count edge.now.list.bytes.now 0 edge.now.list.count i }
    ensures { Lowers (LeadsIn edge.now) i least.row result.row }
{
    if least.row <= i {
        return least;
    }
    match leads_from(edge, i, least.hint) {
        Ok(hint) => Least {
            row: least.row,
            hint,
        },
        Err(hint) => Least { row: i, hint },
    }
}

// The least row before end, of those that were chosen, from which the edge leads out of the list, or end.
pub fn least_chosen(edge: &EdgeInList, members: &[Reach], size: usize, end: usize) -> usize
    requires size_in_bounds { size ≤ length members.now }
    requires all_sit { AllSit (bounds_in edge.now) (edge_in edge.now) edge.now.list.clocks.count edge.now.list.bytes.now 0 edge.now.list.count members.now size }
    ensures { LeastOf (LeadsIn edge.now) (λ k j. (member members.now k).row ≡ j) size end result }
{
    let mut least = Least {
        row: end,
        hint: 2 * edge.list.count,
    };
    for reach in &members[..size] {
        least = look_from(edge, reach.row as usize, least);
    }
    least.row
}

// The least row before end, of those that slots hold, from which the edge leads out of the list, or end.
pub fn least_held(edge: &EdgeInList, slots: &[u16; 1024], end: usize) -> usize
    requires all_held { AllHeld (edge_in edge.now) edge.now.list.clocks.count edge.now.list.bytes.now 0 edge.now.list.count slots.now }
    ensures { LeastOf (LeadsIn edge.now) (λ k j. at slots.now k ≡ suc j) 1024 end result }
{
    let mut least = Least {
        row: end,
        hint: 2 * edge.list.count,
    };
    for holder in slots {
        if *holder != 0 {
            least = look_from(edge, (*holder - 1) as usize, least);
        }
    }
    least.row
}
