//! Sets of positions are read and moved.
ghost use Rattle.std.specs.Prelude.{◌≡◌, ◌%◌, ◌<◌, ◌&&◌, nat_lt, set, slice_index};
ghost use Rattle.machine.specs.Masks.{has};
ghost use Rattle.positions.specs.Sets.{moved_on, marked};

use crate::lines::Lines;
use crate::moves::Moves;
use std::array;

/// Whether the position j is in the set.
pub fn holds(set: u32, j: u8) -> bool
    requires { j < 32 }
    ensures { result ≡ has set j }
{
    (set >> j) % 2 == 1
}

impl Moves {
    /// The set after a name of the column.
    pub fn on(&self, set: u32, column: usize) -> u32
        requires { column < 16 }
        ensures { result ≡ moved_on self.now.fits self.now.stays set column }
    {
        ((set & self.fits[column]) << 1) | (set & self.stays)
    }
}

impl Lines {
    /// Whether the last position of the query q, if it is one, is in the set.
    pub fn is_marked(&self, q: usize, set: u32) -> bool
        requires { q < 8 }
        ensures { result ≡ (nat_lt q self.now.count && has set (slice_index self.now.last q)) }
    {
        q < self.count && holds(set, self.last[q])
    }

    /// The queries whose last position is in the set.
    pub fn marked(&self, set: u32) -> [bool; 8]
        ensures { result ≡ marked self.now (λ q. set) }
    {
        array::from_fn(|q| self.is_marked(q, set))
    }
}
