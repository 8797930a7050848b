//! The table is filled, state by state.
ghost use Rattle.std.specs.Prelude.{◌≡◌, ℕ, ◌+◌, ◌*◌, ◌/◌, ◌<◌, ◌≤◌, [], ◌∷◌, length, set, MatchOption, slice_index};
ghost use Rattle.table.specs.Closure.{tried, closure};
ghost use Rattle.table.specs.Filling.{seen, by_moves, Filled, KeepsMoves};

use crate::filling::Filling;

impl Filling {
    /// Tries each column in state i; nothing if a 33rd set arises.
    fn try_state(&mut self, i: usize) -> Option<()>
        requires state { i < self.old.found.count }
        requires filled { Filled (by_moves self.old.moves) self.old.columns (i * 16) (seen self.old.found) self.old.next }
        ensures keeps { KeepsMoves self.old self.new }
        ensures tried { MatchOption result (32 < length (tried (by_moves self.old.moves) (slice_index (seen self.old.found) i) 0 self.old.columns (seen self.old.found))) (λ _. (seen self.new.found ≡ tried (by_moves self.old.moves) (slice_index (seen self.old.found) i) 0 self.old.columns (seen self.old.found)) × Filled (by_moves self.old.moves) self.old.columns ((i + 1) * 16) (seen self.new.found) self.new.next) }
    {
        let set = self.found.sets[i];
        for c in 0..self.columns {
            let to = self.moves.on(set, c);
            let at = self.found.number(to)?;
            self.next[i * 16 + c] = at as u8;
        }
        Some(())
    }

    /// Tries each state, also those that arise on the way; nothing if a 33rd set arises.
    pub fn try_states(&mut self) -> Option<()>
        requires { Filled (by_moves self.old.moves) self.old.columns 0 (seen self.old.found) self.old.next }
        ensures { MatchOption result (32 < length (closure (by_moves self.old.moves) self.old.columns 32 0 (seen self.old.found))) (λ _. (seen self.new.found ≡ closure (by_moves self.old.moves) self.old.columns 32 0 (seen self.old.found)) × Filled (by_moves self.old.moves) self.old.columns (length (seen self.new.found) * 16) (seen self.new.found) self.new.next) }
    {
        // The number of states grows while they are tried.
        let mut i = 0;
        while i < self.found.count {
            self.try_state(i)?;
            i += 1;
        }
        Some(())
    }
}
