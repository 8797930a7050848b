//! A job and its pieces.
ghost use Rattle.std.specs.Prelude.{◌≡◌, ◌+◌, ◌-◌, ◌^◌, ◌<◌, ◌≤◌, length};
ghost use Rattle.job.specs.Pieces.{InPlace};
ghost use Rattle.job.specs.State.{seen, opened, nth_piece, with_kept, OpenSays, Unchanged};

use crate::job::Job;
use crate::piece::Piece;
use machine::Refusal;
use rows::part::{Kept, Part};

/// The most bytes that a file may have.
pub const MOST_BYTES: usize = 1_073_741_824;

impl Job {
    /// A job for a file of no bytes.
    pub fn new() -> Job
        ensures { seen result ≡ opened 0 }
    {
        let part = Part {
            first: 0,
            last: 0,
            marks: 0,
            at: 0,
            kept: Kept {
                rows: 0,
                fault: None,
            },
        };
        Job {
            size: 0,
            pieces: [Piece {
                from: 0,
                to: 0,
                part,
            }; 128],
            made: 0,
            used: 0,
        }
    }

    /// Starts the job anew, for a file of `size` bytes.
    pub fn open(&mut self, size: usize) -> Result<(), Refusal>
        ensures says { OpenSays size (seen self.old) result (seen self.new) }
        ensures kept { Unchanged result self.old self.new }
    {
        if size > MOST_BYTES {
            return Err(Refusal::FileTooLong);
        }
        self.made = 0;
        self.used = 0;
        self.size = size;
        Ok(())
    }

    /// The piece of a number.
    pub(super) fn piece(&self, k: usize) -> Piece
        requires { k < self.now.made }
        ensures is { result ≡ nth_piece (seen self.now) k }
        ensures placed { InPlace self.now.size self.now.used result }
    {
        self.pieces[k]
    }

    /// One more piece, whose rows stand after the used ones.
    pub(super) fn add(
        &mut self,
        from: usize,
        to: usize,
        marks: (usize, usize, usize),
        kept: Kept,
    ) -> usize
        requires few { self.old.made < 128 }
        requires bytes { (from ≤ to) × (to ≤ self.old.size) }
        requires rows { (kept.rows ≤ marks.2 - 1) × (marks.2 ≤ to - from) }
        requires used { self.old.used + kept.rows < 2 ^ 64 }
        ensures number { result ≡ length (seen self.old).pieces }
        ensures job { seen self.new ≡ with_kept (seen self.old) from to marks kept }
    {
        let number = self.made;
        let (first, last, count) = marks;
        self.pieces[number] = Piece {
            from,
            to,
            part: Part {
                first,
                last,
                marks: count,
                at: self.used,
                kept,
            },
        };
        self.used += kept.rows;
        self.made = number + 1;
        number
    }
}
