// The skyline of an edge: up to 64 reaches, none of them within another. The edge leads no further from the rows that are covered than from those that
// are kept, so it need not be walked from them.
// Bounds of a number stay clauses here: the check finds them at each call, and a type around the number would be opened at each use.
ghost use Rattle.std.specs.Prelude.{◌≡◌, ◌≤◌};
ghost use Rattle.skylines.specs.Skyline.{coveredb, Drops, Seats};

use crate::reach::{Reach, is_within};

// The first so many are kept.
#[derive(Drop)]
pub struct Skyline {
    pub members: [Reach; 64],
    // beside its array: there is no heap
    pub size: usize,
    ghost few: { size ≤ 64 },
}

impl Skyline {
    // One that keeps none.
    pub fn new() -> Skyline
        ensures { result.size ≡ 0 }
    {
        Skyline {
            members: [Reach::default(); 64],
            size: 0,
        }
    }

    // Whether a reach lies within one of those that are kept.
    fn covers(&self, n: usize, own: Reach) -> bool
        requires { n ≤ 4 }
        ensures { result ≡ coveredb n self.now.members self.now.size own }
    {
        self.members[..self.size]
            .iter()
            .any(|other| is_within(n, own, *other))
    }

    // How many stand before one that lies within one's own: they need not be moved. Most often these are all. Any number of them would be right.
    fn before_covered(&self, n: usize, own: Reach) -> usize
        requires { n ≤ 4 }
        ensures { result ≤ self.now.size }
    {
        self.members[..self.size]
            .iter()
            .position(|other| is_within(n, *other, own))
            .unwrap_or(self.size)
    }

    // Drops those that lie within one's own.
    fn drop_covered(&mut self, n: usize, own: Reach)
        requires { n ≤ 4 }
        ensures { Drops n own self.old.members self.old.size self.new.members self.new.size }
    {
        let mut kept = self.before_covered(n, own);
        for k in kept..self.size {
            let other = self.members[k];
            if !is_within(n, other, own) {
                self.members[kept] = other;
                kept += 1;
            }
        }
        self.size = kept;
    }

    // Offers a reach to those that are kept, which make room where they lie within it, and tells whether it is covered by them. It is left out only where
    // there is no room for another.
    pub fn seat(&mut self, n: usize, own: Reach) -> bool
        requires { n ≤ 4 }
        ensures { Seats n own self.old.members self.old.size self.new.members self.new.size result }
    {
        if self.covers(n, own) {
            return true;
        }
        self.drop_covered(n, own);
        if self.size == 64 {
            return false;
        }
        self.members[self.size] = own;
        self.size += 1;
        true
    }
}
