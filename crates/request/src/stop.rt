//! Why nothing came back.
ghost use Rattle.std.specs.Prelude.{◌≡◌};
ghost use Rattle.request.specs.declared.stop.Stop.TheVariants.{Refused, NoMemory};
ghost use Rattle.request.specs.Stops.{as_stop};

use crate::refusal::InputRefusal;
use machine::Refusal;
use std::alloc::{AllocError, AllocFailed};

/// It was refused, or there was no memory.
#[derive(Clone, Copy, Debug, PartialEq, Eq)]
pub enum Stop<R> {
    Refused(R),
    NoMemory,
}

impl From<InputRefusal> for Stop<InputRefusal> {
    ghost from_gives = { λ why stop. stop ≡ Refused why };

    fn from(why: InputRefusal) -> Stop<InputRefusal> {
        Stop::Refused(why)
    }
}

impl From<Refusal> for Stop<Refusal> {
    ghost from_gives = { λ why stop. stop ≡ Refused why };

    fn from(why: Refusal) -> Stop<Refusal> {
        Stop::Refused(why)
    }
}

impl<R> From<AllocError> for Stop<R> {
    ghost from_gives = { λ _ stop. stop ≡ NoMemory };

    fn from(_e: AllocError) -> Stop<R> {
        Stop::NoMemory
    }
}

impl<R> From<AllocFailed<usize>> for Stop<R> {
    ghost from_gives = { λ _ stop. stop ≡ NoMemory };

    fn from(_e: AllocFailed<usize>) -> Stop<R> {
        Stop::NoMemory
    }
}

impl From<Stop<InputRefusal>> for Stop<Refusal> {
    ghost from_gives = { λ of stop. stop ≡ as_stop of };

    fn from(of: Stop<InputRefusal>) -> Stop<Refusal> {
        match of {
            Stop::Refused(why) => Stop::Refused(why.into()),
            Stop::NoMemory => Stop::NoMemory,
        }
    }
}
