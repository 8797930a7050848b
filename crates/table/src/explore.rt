//! The states of queries, and their table.
ghost use Rattle.std.specs.Prelude.{◌≡◌, ℕ, ◌+◌, ◌*◌, ◌/◌, ◌%◌, ◌<◌, ◌≤◌, [], ◌∷◌, length, MatchOption, slice_index};
ghost use Rattle.table.specs.Closure.{closure};
ghost use Rattle.table.specs.Filling.{by_moves, Made};

use crate::filling::Filling;
use crate::found::Found;
use crate::states::States;
use positions::Moves;
use std::array;

/// A table whose every entry leads a state to itself.
fn themselves() -> [u8; 512]
    ensures { (length result ≡ 512) × ((k : ℕ) → k < 512 → slice_index result k ≡ k / 16) }
{
    // The table is one flat array of zeros, which is filled in place.
    let mut next = [0; 512];
    for k in 0..512 {
        next[k] = (k / 16) as u8;
    }
    next
}

/// The same table column by column.
fn columns_of(next: &[u8; 512]) -> [u8; 512]
    ensures { (length result ≡ 512) × ((k : ℕ) → k < 512 → slice_index result k ≡ slice_index next.now (k % 32 * 16 + k / 32)) }
{
    array::from_fn(|k| next[k % 32 * 16 + k / 32])
}

impl States {
    /// No states: every entry leads a state to itself.
    pub fn none() -> States
        ensures count { result.found.count ≡ 0 }
        ensures next { (k : ℕ) → k < 512 → slice_index result.next k ≡ k / 16 }
    {
        let next = themselves();
        let columns = columns_of(&next);
        States {
            found: Found {
                sets: [0; 32],
                count: 0,
            },
            next,
            columns,
        }
    }
}

/// The states that arise from `start` on the columns, and their table; nothing if there are more than 32.
pub fn explore(moves: &Moves, start: u32, columns: usize) -> Option<States>
    requires { columns ≤ 16 }
    ensures { MatchOption result (32 < length (closure (by_moves moves.now) columns 32 0 (start ∷ []))) (λ s. Made (by_moves moves.now) columns start s) }
{
    let mut sets = [0; 32];
    sets[0] = start;
    let mut filling = Filling {
        moves: *moves,
        columns,
        found: Found { sets, count: 1 },
        next: themselves(),
    };
    filling.try_states()?;
    let columns = columns_of(&filling.next);
    Some(States {
        found: filling.found,
        next: filling.next,
        columns,
    })
}
