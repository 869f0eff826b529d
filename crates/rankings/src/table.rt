// The rankings of all choices of open clocks, as one table.
ghost use Rattle.std.specs.Prelude.{◌≡◌};
ghost use Rattle.rankings.specs.Table.{table};

// The table's rows: ranks, one a clock.
#[derive(Clone, Copy)]
pub struct Rankings {
    pub each: [[u8; 4]; 150],
    ghost known: { each ≡ table },
}
