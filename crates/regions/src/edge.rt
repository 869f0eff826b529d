// Edges by value: guards and updates.
// A comparison stays a number (`comparison.rt` says why).

// A clock against a constant.
#[derive(Clone, Copy)]
pub struct Guard {
    pub clock: u8,
    pub comparison: u8,
    pub constant: u16,
}

// What a clock's new value is compared with: its own old value, a constant, or an old clock plus an offset. Of the offset's two numbers, what
// is added and what is taken away, one is 0.
#[derive(Clone, Copy)]
pub enum Action {
    Keep,
    Constant(u16),
    Clock(u8, u16, u16),
}

// An action beside its comparison.
#[derive(Clone, Copy)]
pub struct Update {
    pub action: Action,
    pub comparison: u8,
}

// Guards from guard_count on, and updates from the clocks' count on, say nothing. No count is ruled out: one above eight stands for
// all eight guards, so that whoever reads guards reads at most as many as there are.
#[derive(Clone, Copy)]
pub struct Edge {
    pub source: u8,
    pub target: u8,
    // beside its array: an edge is copied, and takes no heap
    pub guard_count: u8,
    pub guards: [Guard; 8],
    pub updates: [Update; 4],
}
