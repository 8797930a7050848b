//! Calls of a job, and their replies.
use job::Answer;
use machine::Refusal;

#[derive(Clone, Copy, Debug, PartialEq, Eq)]
pub enum Call {
    Read { from: usize, to: usize },
    Join { left: usize, right: usize },
    Finish { piece: usize },
}

#[derive(Clone, Copy, Debug, PartialEq, Eq)]
pub enum Reply {
    /// The call has not been made.
    Unanswered,
    /// To a read or a join: the new piece's number.
    Made(Result<usize, Refusal>),
    /// To a finish.
    Answered(Result<Answer, Refusal>),
}

/// A call, and a place for its reply.
#[derive(Clone, Copy, Debug, PartialEq, Eq)]
pub struct Step {
    pub call: Call,
    pub reply: Reply,
}
