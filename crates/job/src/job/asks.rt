//! The questions that a call asks, in their order.
ghost use Rattle.std.specs.Prelude.{◌≡◌, ◌+◌, ◌-◌, ◌<◌, ◌≤◌, length, None};
ghost use Rattle.tags.specs.Marks.{scanned};
ghost use Rattle.job.specs.State.{seen, world, all_inside, ruled, allowed, asked_lists, asked_room, asked_read, asked_join, asked_whole, nth_piece};

use crate::job::Job;
use crate::piece::Piece;
use machine::Refusal;
use rows::Row;
use tags::scan;

/// The most pieces that a job may have.
pub const MOST_PIECES: usize = 128;

/// Whether the rows keep the row rule: the file has each one's name, its mark, and one byte more.
fn all_inside(file: &[u8], rows: &[Row]) -> bool
    ensures { result ≡ all_inside file.now rows.now }
{
    rows.iter().all(|row| row.place as usize + row.name_len as usize + 2 <= file.len())
}

/// The same of a piece's rows.
fn ruled(file: &[u8], rows: &[Row], piece: Piece) -> bool
    requires { piece.part.at + piece.part.kept.rows ≤ length rows.now }
    ensures { result ≡ ruled file.now rows.now piece }
{
    let from = piece.part.at;
    let to = from + piece.part.kept.rows;
    all_inside(file, &rows[from..to])
}

impl Job {
    fn ask_lists(&self, size: usize, rows: usize, actions: usize) -> Result<(), Refusal>
        ensures { result ≡ allowed (asked_lists (seen self.now) size rows actions None) tt }
    {
        if size != self.size {
            return Err(Refusal::OtherLength);
        }
        if self.used > rows || self.used > actions {
            return Err(Refusal::ListsTooShort);
        }
        Ok(())
    }

    fn ask_room(&self, rows: usize, actions: usize, marks: usize) -> Result<(), Refusal>
        requires { (self.now.used ≤ rows) × (self.now.used ≤ actions) }
        ensures { result ≡ allowed (asked_room (seen self.now) rows actions marks) tt }
    {
        if self.made >= MOST_PIECES {
            return Err(Refusal::TooManyPieces);
        }
        if rows - self.used < marks || actions - self.used < marks {
            return Err(Refusal::NoRoomForRows);
        }
        Ok(())
    }

    /// Asks what a read asks, and tells the marks of the bytes that it names.
    pub(super) fn ask_read<P>(
        &self,
        file: &[u8],
        rows: &[Row],
        actions: &[P],
        from: usize,
        to: usize,
    ) -> Result<(usize, usize, usize), Refusal>
        ensures { result ≡ allowed (asked_read file.now (world self.now rows.now actions.now) from to) (scanned file.now from to) }
    {
        self.ask_lists(file.len(), rows.len(), actions.len())?;
        if from > to || to > self.size {
            return Err(Refusal::OutOfRange);
        }
        let marks = scan(file, from, to);
        self.ask_room(rows.len(), actions.len(), marks.2)?;
        Ok(marks)
    }

    /// Asks what a join asks, and tells the two pieces.
    pub(super) fn ask_join<P>(
        &self,
        file: &[u8],
        rows: &[Row],
        actions: &[P],
        left: usize,
        right: usize,
    ) -> Result<(Piece, Piece), Refusal>
        ensures { result ≡ allowed (asked_join file.now (world self.now rows.now actions.now) left right) (nth_piece (seen self.now) left, nth_piece (seen self.now) right) }
    {
        self.ask_lists(file.len(), rows.len(), actions.len())?;
        if left >= self.made || right >= self.made {
            return Err(Refusal::NoSuchPiece);
        }
        let l = self.piece(left);
        let r = self.piece(right);
        if l.to != r.from {
            return Err(Refusal::PiecesApart);
        }
        if !ruled(file, rows, l) || !ruled(file, rows, r) {
            return Err(Refusal::RowsBroken);
        }
        self.ask_room(rows.len(), actions.len(), l.part.marks + r.part.marks)?;
        Ok((l, r))
    }

    /// Asks what a finish asks before it looks at the rows, and tells the piece.
    pub(super) fn ask_finish<P>(
        &self,
        file: &[u8],
        rows: &[Row],
        actions: &[P],
        piece: usize,
    ) -> Result<Piece, Refusal>
        ensures { result ≡ allowed (asked_whole file.now (world self.now rows.now actions.now) piece None) (nth_piece (seen self.now) piece) }
    {
        self.ask_lists(file.len(), rows.len(), actions.len())?;
        if piece >= self.made {
            return Err(Refusal::NoSuchPiece);
        }
        let p = self.piece(piece);
        if p.from != 0 || p.to != self.size {
            return Err(Refusal::NotWhole);
        }
        if !ruled(file, rows, p) {
            return Err(Refusal::RowsBroken);
        }
        Ok(p)
    }
}
