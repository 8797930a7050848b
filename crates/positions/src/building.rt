//! Lines and moves are made from the positions of queries.
ghost use Rattle.std.specs.Prelude.{◌≡◌, ℕ, ◌+◌, ◌-◌, ◌^◌, ◌<◌, ◌≤◌, length, replicate, slice_index};
ghost use Rattle.machine.specs.Asked.{queries_of, listed_names};
ghost use Rattle.machine.specs.Queries.{positions};
ghost use Rattle.positions.specs.Sets.{fit_masks};
ghost use Rattle.positions.specs.Verdicts.{begun, LinesOf};

use crate::lines::Lines;
use crate::masks::fit_masks;
use crate::moves::Moves;
use machine::Queries;
use std::array;

impl Lines {
    /// Of no queries.
    pub fn none() -> Lines
        ensures { (result.count ≡ 0) × (result.first ≡ replicate 8 0) × (result.last ≡ replicate 8 0) }
    {
        Lines {
            first: [0; 8],
            last: [0; 8],
            count: 0,
        }
    }

    /// Of queries with these last positions.
    fn ending(lasts: &[usize]) -> Lines
        requires few { length lasts.now ≤ 8 }
        requires low { (k : ℕ) → k < length lasts.now → slice_index lasts.now k < 32 }
        requires rising { (k : ℕ) → k + 1 < length lasts.now → slice_index lasts.now k < slice_index lasts.now (k + 1) }
        ensures count { result.count ≡ length lasts.now }
        ensures last { (k : ℕ) → k < length lasts.now → slice_index result.last k ≡ slice_index lasts.now k }
        ensures first { (k : ℕ) → k < length lasts.now → slice_index result.first k ≡ begun lasts.now k }
        ensures rest { (k : ℕ) → length lasts.now ≤ k → (slice_index result.first k ≡ 0) × (slice_index result.last k ≡ 0) }
    {
        let first = array::from_fn(|q| {
            if 0 < q && q < lasts.len() {
                lasts[q - 1] as u8 + 1
            } else {
                0
            }
        });
        let last = array::from_fn(|q| if q < lasts.len() { lasts[q] as u8 } else { 0 });
        Lines {
            first,
            last,
            count: lasts.len(),
        }
    }

    /// Where these queries begin and end.
    pub fn of(queries: &Queries) -> Lines
        ensures { LinesOf (queries_of queries.now) result }
    {
        Lines::ending(queries.lasts())
    }
}

impl Moves {
    /// No position leads to the next one, and all lead to themselves.
    pub fn none() -> Moves
        ensures { ((c : ℕ) → slice_index result.fits c ≡ 0) × (result.stays ≡ 2 ^ 32 - 1) }
    {
        Moves {
            fits: [0; 16],
            stays: u32::MAX,
        }
    }

    /// Of the positions of these queries, where `stays` lead to themselves.
    pub fn of(queries: &Queries, stays: u32) -> Moves
        ensures fits { result.fits ≡ fit_masks (positions (listed_names queries.now) (queries_of queries.now)) }
        ensures stays { result.stays ≡ stays }
    {
        Moves {
            fits: fit_masks(queries.positions()),
            stays,
        }
    }
}
