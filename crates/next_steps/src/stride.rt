// What a look for a new row has come to: the next one goes on from there.
use regions::region::Region;

// The new row, if there is one; the step that it came by, or the one after the last; where the record of that step's edge begins; whether a final location has
// been entered; and the row that was walked from.
#[derive(Clone, Copy)]
pub struct Stride {
    pub next: Option<Region>,
    pub step: u16,
    pub here: usize,
    pub entered: bool,
    pub from: Option<Region>,
}
