//! What a piece over the whole file answers.
ghost use Rattle.std.specs.Prelude.{◌≤◌, length};
ghost use Rattle.rows.specs.Stretches.{last_put};
ghost use Rattle.rows.specs.Places.{stored, paired};
ghost use Rattle.rows.specs.Lists.{ends_of};
ghost use Rattle.answers.specs.Finish.{finish};
ghost use Rattle.finishing.specs.Ends.{AllInside};
ghost use Rattle.job.specs.State.{AnswerSays};

use crate::answer::Answer;
use answers::Match;
use finishing::{count_answer, ending, write_answer};
use machine::{Machine, Refusal};
use rows::part::Part;
use rows::{Entries, Source};

/// The file's fault, or the number of its matches, which are written from the match list's start.
pub(super) fn answer<M: Machine>(
    source: &Source<'_, M>,
    entries: &Entries<'_, M::Plain>,
    part: Part,
    matches: &mut [Match],
) -> Result<Answer, Refusal>
    requires rule { AllInside source.now.file.now entries.now.rows.now }
    requires few { length entries.now.rows.now ≤ 4294967296 }
    ensures { AnswerSays (finish (stored (M.model source.now.machine.now)) (last_put source.now.file.now (stored (M.model source.now.machine.now)) (ends_of part) (record { rows = paired entries.now.rows.now entries.now.actions.now; fault = part.kept.fault }))) matches.old result matches.new }
{
    let more = match ending(source, entries, part) {
        Ok(more) => more,
        Err(fault) => return Ok(Answer::Fault(fault)),
    };
    let count = count_answer(source.machine, entries, more);
    if count > matches.len() {
        return Err(Refusal::NoRoomForMatches);
    }
    write_answer(source.machine, entries, more, matches);
    Ok(Answer::Matches(count))
}
