//! Why a call is refused.
ghost use Rattle.std.specs.Prelude.{◌≡◌};
ghost use Rattle.machine.specs.Refusals.{refusal_number};

/// The first question that was answered no.
#[derive(Clone, Copy, Debug, PartialEq, Eq)]
pub enum Refusal {
    /// The query text is too long.
    TextTooLong = 1,
    /// The query text is not one to eight lines, each a query.
    NotQueries = 2,
    /// The queries have too many positions: steps and lines together.
    TooManyPositions = 3,
    /// The queries use too many different names, or one that is too long.
    NamesOverLimit = 4,
    /// Too many sets of positions arise for the table machine.
    TooManySets = 5,
    /// The file is longer than a job can be opened for.
    FileTooLong = 6,
    /// The file is not as long as the one that the job was opened for.
    OtherLength = 7,
    /// A list ends before the rows that are in use.
    ListsTooShort = 8,
    /// The bytes named do not lie in the file in this order.
    OutOfRange = 9,
    /// A piece was named that has not been made.
    NoSuchPiece = 10,
    /// The left piece does not end where the right one begins.
    PiecesApart = 11,
    /// The piece does not run over the whole file.
    NotWhole = 12,
    /// A row of a named piece has no name in the file.
    RowsBroken = 13,
    /// As many pieces as a job can hold are made.
    TooManyPieces = 14,
    /// A list has fewer unused rows than the new piece has marks.
    NoRoomForRows = 15,
    /// The match list has fewer entries than there are matches.
    NoRoomForMatches = 16,
}

impl Refusal {
    pub fn number(self) -> u8
        ensures { result ≡ refusal_number self }
    {
        self as u8
    }
}
