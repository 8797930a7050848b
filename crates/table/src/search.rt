//! The number of a set among those found.
ghost use Rattle.std.specs.Prelude.{◌≡◌, ◌+◌, ◌<◌, length, set, MatchOption};
ghost use Rattle.table.specs.Closure.{place, added};
ghost use Rattle.table.specs.Filling.{seen};

use crate::found::Found;

/// How many states there may be.
const MOST_STATES: usize = 32;

/// Where the set stands first.
pub fn place_of(sets: &[u32], set: u32) -> Option<usize>
    ensures { MatchOption result (place set sets.now ≡ length sets.now) (λ at. (at ≡ place set sets.now) × (at < length sets.now)) }
{
    sets.iter().position(|s| set == *s)
}

impl Found {
    /// The sets that were found.
    #[tactic(auto, unfolding(crate::specs::Filling::seen))]
    pub fn seen(&self) -> &[u32]
        ensures { result.now ≡ seen self.now }
    {
        &self.sets[0..self.count]
    }

    /// The number of the set, which is added unless it is there; nothing for a 33rd.
    pub fn number(&mut self, set: u32) -> Option<usize>
        ensures { MatchOption result ((32 < length (added (seen self.old) set)) × (seen self.new ≡ seen self.old)) (λ at. (at ≡ place set (seen self.old)) × (seen self.new ≡ added (seen self.old) set)) }
    {
        if let Some(at) = place_of(self.seen(), set) {
            return Some(at);
        }
        if self.count == MOST_STATES {
            return None;
        }
        let count = self.count;
        self.sets[count] = set;
        self.count = count + 1;
        Some(count)
    }
}
