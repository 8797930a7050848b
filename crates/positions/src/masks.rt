//! The masks of positions.
ghost use Rattle.std.specs.Prelude.{◌≡◌, ◌-◌, ◌<◌, ◌≤◌, ◌||◌, ◌==◌, true, length, slice_index_or};
ghost use Rattle.machine.specs.Queries.{fits_at, deep_at};
ghost use Rattle.machine.specs.Masks.{mask, fit_mask, deep_mask};
ghost use Rattle.machine.specs.Views.{is_end};
ghost use Rattle.positions.specs.Sets.{rest_mask, fit_masks, start_bits};

use machine::Position;
use std::array;

fn fits(p: Position, column: u8) -> bool
    ensures { result ≡ fits_at p column }
{
    match p {
        Position::End => false,
        Position::Any(_) => true,
        Position::Name(_, name) => name == column,
    }
}

fn deep(p: Position) -> bool
    ensures { result ≡ deep_at p }
{
    match p {
        Position::End => false,
        Position::Any(deep) | Position::Name(deep, _) => deep,
    }
}

/// Whether the position j is a query's first: that of the first query, or one after an end.
fn begins(positions: &[Position], j: usize) -> bool
    requires { j < length positions.now }
    ensures { result ≡ ((j == 0) || is_end (slice_index_or positions.now (j - 1) Position.End)) }
{
    j == 0 || matches!(positions[j - 1], Position::End)
}

/// The set of the places where a bit is true.
fn mask_of(bits: [bool; 32]) -> u32
    ensures { result ≡ mask bits }
{
    bits.iter()
        .rev()
        .fold(0, |mask, bit| mask << 1 | u32::from(*bit))
}

/// The positions whose step fits the column.
pub fn fit_mask(positions: &[Position], column: u8) -> u32
    requires { length positions.now ≤ 32 }
    ensures { result ≡ fit_mask positions.now column }
{
    positions
        .iter()
        .rev()
        .fold(0, |mask, p| mask << 1 | u32::from(fits(*p, column)))
}

/// The positions whose step is `//`.
pub fn deep_mask(positions: &[Position]) -> u32
    requires { length positions.now ≤ 32 }
    ensures { result ≡ deep_mask positions.now }
{
    positions
        .iter()
        .rev()
        .fold(0, |mask, p| mask << 1 | u32::from(deep(*p)))
}

/// These, and the unused ones of 32 positions.
pub fn rest_mask(positions: &[Position]) -> u32
    requires { length positions.now ≤ 32 }
    ensures { result ≡ rest_mask 32 positions.now }
{
    mask_of(array::from_fn(|j| j >= positions.len() || deep(positions[j])))
}

/// The mask of each column.
pub fn fit_masks(positions: &[Position]) -> [u32; 16]
    requires { length positions.now ≤ 32 }
    ensures { result ≡ fit_masks positions.now }
{
    array::from_fn(|c| fit_mask(positions, c as u8))
}

/// The positions 0 of the queries: the first one, and each that follows an end.
pub fn start_mask(positions: &[Position]) -> u32
    requires { length positions.now ≤ 32 }
    ensures { result ≡ mask (start_bits true positions.now) }
{
    mask_of(array::from_fn(|j| j < positions.len() && begins(positions, j)))
}
