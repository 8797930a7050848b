//! Why an input is not taken.
ghost use Rattle.std.specs.Prelude.{◌≡◌};
ghost use Rattle.request.specs.Asked.{number, as_refusal};

pub use crate::stop::Stop;
use machine::Refusal;

/// What is wrong with an input. Its number is that of the question which the input is refused by.
#[derive(Clone, Copy, Debug, PartialEq, Eq)]
pub enum InputRefusal {
    /// The first line is no list of rising places, or has one above 4,096.
    BadCuts = 9,
    /// The file is longer than 4,096 bytes.
    LongFile = 6,
}

impl InputRefusal {
    pub fn number(self) -> u8
        ensures { result ≡ number self }
    {
        self as u8
    }
}

impl From<InputRefusal> for Refusal {
    ghost from_gives = { λ why r. r ≡ as_refusal why };

    fn from(why: InputRefusal) -> Refusal {
        match why {
            InputRefusal::BadCuts => Refusal::OutOfRange,
            InputRefusal::LongFile => Refusal::FileTooLong,
        }
    }
}
