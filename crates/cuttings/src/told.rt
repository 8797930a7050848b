//! What a file tells when it is read in one way.
use answers::Match;
use job::{Answer, Job};
use machine::Machine;
use rows::{Row, RowKind};
use runs::{Reply, Step, run};
use std::alloc::{AllocError, Global};
use tags::scan;

/// An answer, and the matches that were found.
#[derive(PartialEq, Eq, Drop)]
pub struct Told {
    pub answer: Answer,
    pub matches: Vec<Match>,
}

/// The reply of the last step with the matches; nothing where it is no answer.
fn last_told(heap: Global, steps: &[Step], matches: &[Match]) -> Result<Option<Told>, AllocError> {
    let Some(last) = steps.last() else {
        return Ok(None);
    };
    let Reply::Answered(Ok(answer)) = last.reply else {
        return Ok(None);
    };
    let count = match answer {
        Answer::Matches(n) => n,
        Answer::Fault(_) => 0,
    };
    let matches = matches.iter().take(count).copied().collect(heap)?;
    Ok(Some(Told { answer, matches }))
}

/// What a file tells after these steps, which read each of its marks at most once and join at most `joins` times. The lists hold other rows before.
pub fn tell<M: Machine>(
    heap: Global,
    m: &M,
    file: &[u8],
    steps: &mut [Step],
    joins: usize,
) -> Result<Option<Told>, AllocError> {
    let (_, _, marks) = scan(file, 0, file.len());
    let room = joins.saturating_add(1).saturating_mul(marks);
    let row = Row {
        kind: RowKind::Open,
        place: 1,
        name_len: 1,
    };
    let mut rows = vec![in heap; row; room]?;
    let mut actions = vec![in heap; m.plain(&m.stay()); room]?;
    let mut matches = vec![in heap; Match { place: 1, query: 1 }; marks.saturating_mul(8)]?;
    let mut job = Job::new();
    match run(
        m,
        &mut job,
        file,
        rows.as_mut_slice(),
        actions.as_mut_slice(),
        matches.as_mut_slice(),
        steps,
    ) {
        Ok(()) => last_told(heap, steps, matches.as_slice()),
        Err(_) => Ok(None),
    }
}
