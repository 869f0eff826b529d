// What a table is read by.
use regions::clocks::Clocks;

// What the records of an admitted table are read by: the clocks, how many locations and edges there are, and the initial location.
#[derive(Clone, Copy)]
pub struct Head {
    pub clocks: Clocks,
    pub locations: u8,
    pub initial: u8,
    pub edges: u16,
}
