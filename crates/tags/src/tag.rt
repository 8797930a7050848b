//! Tags, and what may be wrong with one.
ghost use Rattle.std.specs.Prelude.{◌≡◌};
ghost use Rattle.tags.specs.Reads.{cause_number, kind_of, name_of};

#[derive(Clone, Copy, Debug, PartialEq, Eq)]
pub enum TagKind {
    Start,
    Empty,
    End,
}

/// A good tag, with its name as a part of the file.
#[derive(Clone, Copy)]
pub enum Tag<'a> {
    Start(&'a [u8]),
    Empty(&'a [u8]),
    End(&'a [u8]),
}

impl<'a> Tag<'a> {
    pub fn new(kind: TagKind, name: &'a [u8]) -> Tag<'a>
        ensures kind { kind_of result ≡ kind }
        ensures name { name_of result ≡ name.now }
    {
        match kind {
            TagKind::Start => Tag::Start(name),
            TagKind::Empty => Tag::Empty(name),
            TagKind::End => Tag::End(name),
        }
    }

    pub fn kind(&self) -> TagKind
        ensures { result ≡ kind_of self.now }
    {
        match self {
            Tag::Start(_) => TagKind::Start,
            Tag::Empty(_) => TagKind::Empty,
            Tag::End(_) => TagKind::End,
        }
    }

    pub fn name(&self) -> &'a [u8]
        ensures { result.now ≡ name_of self.now }
    {
        match self {
            Tag::Start(name) | Tag::Empty(name) | Tag::End(name) => name,
        }
    }
}

/// Why a tag is bad.
#[derive(Clone, Copy, Debug, PartialEq, Eq)]
pub enum Cause {
    /// An element name must begin here.
    NoName = 1,
    /// An attribute name has begun, and its `=` has not come.
    NoEquals = 2,
    /// A quote must open or close here.
    NoQuote = 3,
    /// Anything else.
    Misplaced = 4,
}

impl Cause {
    pub fn number(self) -> u8
        ensures { result ≡ cause_number self }
    {
        self as u8
    }
}

/// A bad tag: the cause, its mark, and the first byte that no tag can have there. Places are counted from the file's start.
#[derive(Clone, Copy, Debug, PartialEq, Eq)]
pub struct TagFault {
    pub cause: Cause,
    pub mark: usize,
    pub byte: usize,
}
