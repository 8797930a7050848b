//! The queries of a text.
ghost use Rattle.std.specs.Prelude.{◌≡◌, [], MatchResult};
ghost use Rattle.machine.specs.Asked.{queries_of, listed_names, Once, Refused, Accepted};

use crate::measure::Measure;
use crate::plan::{MOST_LINES, MOST_POSITIONS, Plan};
use crate::queries::Queries;
use crate::refusal::Refusal;

/// How long a text of queries may be.
pub const MOST_BYTES: usize = 512;

impl Queries {
    /// No queries.
    pub fn none() -> Queries
        ensures queries { queries_of result ≡ [] }
        ensures names { listed_names result ≡ [] }
    {
        Queries { plan: Plan::new() }
    }

    /// The queries that the text stands for, one to a line, or the first question that is answered no.
    pub fn read(text: &[u8]) -> Result<Queries, Refusal>
        ensures answer { MatchResult result (Accepted text.now) (Refused text.now) }
        ensures once { Once text.now }
    {
        if text.len() > MOST_BYTES {
            return Err(Refusal::TextTooLong);
        }
        let measure = Measure::of(text);
        if !measure.is_whole() || measure.lines > MOST_LINES {
            return Err(Refusal::NotQueries);
        }
        if measure.positions > MOST_POSITIONS {
            return Err(Refusal::TooManyPositions);
        }
        let mut plan = Plan::new();
        plan.read(text)?;
        Ok(Queries { plan })
    }
}
