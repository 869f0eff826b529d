// What a walk over an edge's next regions goes by.
ghost use Rattle.std.specs.Prelude.{◌≡◌, ℕ, ◌+◌, ◌*◌, ◌≤◌, ◌<◌, get_or};
ghost use Rattle.automata.specs.Clocks.{at};
ghost use Rattle.regions.specs.Placing.{still};

use regions::clocks::Clocks;
use regions::placing::Moves;

// The clocks, and their moves: from few ranks, each with the top interval of its clock.
#[derive(Clone, Copy)]
pub struct Search {
    pub clocks: Clocks,
    pub moves: Moves,
    ghost few_ranks: { moves.ranks ≤ 4 },
    ghost tops: { (z : ℕ) → z < clocks.count → (get_or moves.each z still).top ≡ 2 * at clocks.bounds z + 1 },
}
