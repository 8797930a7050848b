//! A job: the pieces that are made of one file.
ghost use Rattle.std.specs.Prelude.{◌≡◌, ℕ, ◌<◌, ◌≤◌, length, slice_index_or};
ghost use Rattle.job.specs.Pieces.{InPlace, no_piece};

use crate::piece::Piece;

pub mod answering;
pub mod asks;
pub mod calls;
pub mod pieces;

/// A file of `size` bytes in work: the pieces made of it so far, and how many rows of the lists they use.
#[derive(Clone, Copy)]
pub struct Job {
    size: usize,
    pieces: [Piece; 128],
    made: usize,
    used: usize,
    ghost short: { size ≤ 1073741824 },
    ghost room: { length pieces ≡ 128 },
    ghost few: { made ≤ 128 },
    ghost placed: { (k : ℕ) → k < made → InPlace size used (slice_index_or pieces k no_piece) },
}
