//! The program's listing.
ghost use Rattle.std.specs.Prelude.{◌≡◌, ◌++◌, IfOk, string_bytes, OnOk};
ghost use Rattle.job.specs.declared.answer.Answer.TheVariants.{Matches};
ghost use Rattle.listing.specs.Listing.{told, listing};

use answers::Match;
use job::Answer;
use machine::Refusal;
use std::alloc::{AllocError, Global};
use std::fmt::Write;

/// A line for each match, and the line after them.
fn list_matches(text: &mut String, count: usize, matches: &[Match]) -> Result<(), AllocError>
    ensures { OnOk result (string_bytes text.new ≡ string_bytes text.old ++ told (Matches count) matches.now) }
{
    for found in matches.iter().take(count) {
        writeln!(text, "{found}")?;
    }
    writeln!(text, "end {count}")
}

/// What the program prints of an outcome, where the matches stand at the list's start.
pub fn listing_of(
    heap: Global,
    outcome: Result<Answer, Refusal>,
    matches: &[Match],
) -> Result<String, AllocError>
    ensures { IfOk result (λ s. string_bytes s ≡ listing outcome matches.now) }
{
    let mut text = String::new(heap);
    match outcome {
        Err(why) => writeln!(text, "refused {}", why.number())?,
        Ok(Answer::Fault(fault)) => writeln!(text, "fault {} {}", fault.number(), fault.place())?,
        Ok(Answer::Matches(count)) => list_matches(&mut text, count, matches)?,
    }
    Ok(text)
}
