// A region list whose records were read: what is asked of its rows.
ghost use Rattle.std.specs.Prelude.{◌≡◌, true, ℕ, suc, ◌+◌, ◌*◌, ◌≤◌, ◌<◌, length, is_ok};
ghost use Rattle.automata.specs.Clocks.{at};
ghost use Rattle.automata.specs.Rows.{isrowb};
ghost use Rattle.automata.specs.Checks.{belowb};
ghost use Rattle.regions.specs.Values.{bounds_of};
ghost use Rattle.calls.specs.RegionFile.{row_width};
ghost use Rattle.listed_rows.specs.Listed.{listed_row};

use regions::clocks::Clocks;

// The bytes, in which so many rows of these clocks stand after the header, ascending; bounds are those of a table file.
#[derive(Clone, Copy)]
pub struct RegionList<'a> {
    pub clocks: Clocks,
    pub bytes: &'a [u8],
    pub count: usize,
    ghost sized: { length (bounds_of clocks) ≡ clocks.count },
    ghost low: { (z : ℕ) → z < clocks.count → at clocks.bounds z ≤ 127 },
    ghost short: { count ≤ 4096 },
    ghost room: { 4 + count * row_width clocks.count ≤ length bytes.now },
    ghost are_rows: { (i : ℕ) → i < count → isrowb (bounds_of clocks) (listed_row clocks.count bytes.now i) ≡ true },
    ghost rise: { (i : ℕ) → suc i < count → belowb (listed_row clocks.count bytes.now i) (listed_row clocks.count bytes.now (suc i)) ≡ true },
}
