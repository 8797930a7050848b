//! The row that a stretch makes.
ghost use Rattle.std.specs.Prelude.{◌≡◌, ◌+◌, ◌<◌, length, IfOk};
ghost use Rattle.tags.specs.Reads.{kind_of, name_of};
ghost use Rattle.rows.specs.Pieces.{Inside};
ghost use Rattle.rows.specs.Stretches.{one, row_kind, row_of, action_of};
ghost use Rattle.rows.specs.Places.{stored};
ghost use Rattle.rows.specs.Made.{content_of};

use crate::row::{PieceFault, Row, RowKind};
use machine::Machine;
use tags::{Tag, TagKind, read_tag};

impl From<TagKind> for RowKind {
    ghost from_gives = { λ kind r. r ≡ row_kind kind };

    fn from(kind: TagKind) -> RowKind {
        match kind {
            TagKind::Start => RowKind::Open,
            TagKind::Empty => RowKind::Done,
            TagKind::End => RowKind::Close,
        }
    }
}

/// The row of the tag at `mark`.
pub fn row_of(mark: usize, tag: Tag<'_>) -> Row
    requires { mark + length (name_of tag) < 4294967296 }
    ensures { result ≡ row_of mark (kind_of tag.entry) (name_of tag.entry) }
{
    Row {
        kind: RowKind::from(tag.kind()),
        place: mark as u32,
        name_len: tag.name().len() as u32,
    }
}

/// The plain form of a tag's own action.
pub fn own_plain<M: Machine>(m: &M, tag: Tag<'_>) -> M::Plain
    ensures { result ≡ (M.model m.now).plain (action_of (M.model m.now) (kind_of tag.entry) (name_of tag.entry)) }
{
    let action = match tag {
        Tag::Start(name) | Tag::Empty(name) => m.action_of(name),
        Tag::End(_) => m.stay(),
    };
    m.plain(&action)
}

/// What rows are made from: a machine, and a file each of whose places fits a row.
#[derive(Drop)]
pub struct Source<'a, M: Machine> {
    pub machine: &'a M,
    pub file: &'a [u8],
    ghost short: { length file.now < 4294967296 },
}

impl<'a, M: Machine> Source<'a, M> {
    /// The row of the tag from `mark` up to but without `to`, with its action's plain form, or what is wrong with the tag.
    pub fn tag_row(&self, mark: usize, to: usize) -> Result<(Row, M::Plain), PieceFault>
        ensures made { content_of result ≡ one self.now.file.now (stored (M.model self.now.machine.now)) (mark, to) }
        ensures inside { IfOk result (λ t. Inside self.now.file.now t.0) }
    {
        let tag = read_tag(self.file, mark, to)?;
        Ok((row_of(mark, tag), own_plain(self.machine, tag)))
    }
}
