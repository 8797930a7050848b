//! What the steps of a plan come to.
ghost use Rattle.std.specs.Prelude.{◌≡◌};
ghost use Rattle.solving.specs.Outcomes.{decided, outcome_of};

use job::Answer;
use machine::Refusal;
use runs::{Reply, Step};

/// What comes of a request: what is answered, or why it is refused.
pub type Outcome = Result<Answer, Refusal>;

/// A refusal or an answer decides.
fn decides(reply: Reply) -> Option<Outcome>
    ensures { result ≡ decided reply }
{
    match reply {
        Reply::Made(Err(why)) => Some(Err(why)),
        Reply::Answered(outcome) => Some(outcome),
        Reply::Made(Ok(_)) | Reply::Unanswered => None,
    }
}

/// The first refusal or answer among the replies.
pub fn outcome_of(steps: &[Step]) -> Option<Outcome>
    ensures { result ≡ outcome_of steps.now }
{
    steps.iter().find_map(|step| decides(step.reply))
}
