//! The whole work of the program, from the bytes that it reads to those that it writes.
ghost use Rattle.std.specs.Prelude.{IfOk, string_bytes};
ghost use Rattle.session.specs.Printing.{Printed};

use crate::answering::answer_input;
use answers::Match;
use listing::listing_of;
use request::Stop;
use std::alloc::{AllocError, Global};

/// What the program prints for an input.
pub fn print_of(heap: Global, input: &[u8]) -> Result<String, AllocError>
    ensures { IfOk result (λ s. Printed input.now (string_bytes s)) }
{
    let mut matches = [Match { place: 0, query: 0 }; 256];
    let outcome = match answer_input(heap, input, &mut matches) {
        Ok(answer) => Ok(answer),
        Err(Stop::Refused(why)) => Err(why),
        Err(Stop::NoMemory) => return Err(AllocError),
    };
    listing_of(heap, outcome, &matches)
}
