//! Ways to cut a file and to join the pieces, and what the file tells under each.
ghost use Rattle.std.specs.Prelude.{◌<◌};

use crate::told::{Told, tell};
use machine::Machine;
use runs::{Call, Reply, Step};
use std::alloc::{AllocError, Global};

fn step(call: Call) -> Step {
    Step {
        call,
        reply: Reply::Unanswered,
    }
}

/// Calls that read pieces in turn: the last one that stands makes all that was read so far.
#[derive(Drop)]
struct Plan {
    steps: Vec<Step>,
    whole: usize,
}

impl Plan {
    fn new(heap: Global) -> Plan {
        Plan {
            steps: Vec::new(heap),
            whole: 0,
        }
    }

    /// Reads a piece, and joins it as `join` says to what was read so far, if anything was.
    fn add<F: Fn(usize, usize) -> Call>(
        &mut self,
        from: usize,
        to: usize,
        join: F,
    ) -> Result<(), AllocError>
        requires { F.IsAlwaysCallable join }
    {
        let piece = self.steps.len();
        self.steps.push(step(Call::Read { from, to }))?;
        if piece > 0 {
            let joined = self.steps.len();
            self.steps.push(step(join(self.whole, piece)))?;
            self.whole = joined;
        }
        Ok(())
    }

    /// Finishes the whole.
    fn finish(self) -> Result<Vec<Step>, AllocError> {
        let Plan { mut steps, whole } = self;
        steps.push(step(Call::Finish { piece: whole }))?;
        Ok(steps)
    }
}

/// Reads the pieces that end at these places, from the first on, and joins each to what stands before it.
pub fn from_left(heap: Global, ends: &[usize]) -> Result<Vec<Step>, AllocError> {
    let mut plan = Plan::new(heap);
    let mut from = 0;
    for to in ends {
        plan.add(from, *to, |left, right| Call::Join { left, right })?;
        from = *to;
    }
    plan.finish()
}

/// Reads the same pieces from the last back, and joins each to what stands after it.
pub fn from_right(heap: Global, ends: &[usize]) -> Result<Vec<Step>, AllocError> {
    let mut plan = Plan::new(heap);
    for (i, to) in ends.iter().enumerate().rev() {
        let from = if i == 0 { 0 } else { ends[i - 1] };
        plan.add(from, *to, |right, left| Call::Join { left, right })?;
    }
    plan.finish()
}

/// Whether the file, cut at these places, tells the same in both orders.
pub fn same<M: Machine>(
    heap: Global,
    m: &M,
    file: &[u8],
    ends: &[usize],
    told: &Told,
) -> Result<bool, AllocError> {
    let mut left = from_left(heap, ends)?;
    let mut right = from_right(heap, ends)?;
    match (
        tell(heap, m, file, left.as_mut_slice(), ends.len())?,
        tell(heap, m, file, right.as_mut_slice(), ends.len())?,
    ) {
        (Some(a), Some(b)) => Ok(a == *told && b == *told),
        _ => Ok(false),
    }
}

/// Whether it does cut in two, at every place of a short file and at some of a long one.
fn same_in_two<M: Machine>(
    heap: Global,
    m: &M,
    file: &[u8],
    told: &Told,
) -> Result<bool, AllocError> {
    let length = file.len();
    let step = length / 128 + 1;
    for cut in (0..=length).step_by(step) {
        if !same(heap, m, file, &[cut, length], told)? {
            return Ok(false);
        }
    }
    Ok(true)
}

/// So many pieces of equal length, but for the last.
fn even_pieces(heap: Global, length: usize, pieces: usize) -> Result<Vec<usize>, AllocError>
    requires { 0 < pieces }
{
    let mut ends: Vec<usize> = (1..pieces)
        .map(|i| (length / pieces).saturating_mul(i))
        .collect(heap)?;
    ends.push(length)?;
    Ok(ends)
}

/// What the file tells, if it tells the same whole, cut in two and cut in many.
pub fn agreed<M: Machine>(heap: Global, m: &M, file: &[u8]) -> Result<Option<Told>, AllocError> {
    let mut whole = from_left(heap, &[file.len()])?;
    let Some(told) = tell(heap, m, file, whole.as_mut_slice(), 0)? else {
        return Ok(None);
    };
    if !same_in_two(heap, m, file, &told)? {
        return Ok(None);
    }
    for pieces in [3, 5, 16, 64] {
        let ends = even_pieces(heap, file.len(), pieces)?;
        if !same(heap, m, file, ends.as_slice(), &told)? {
            return Ok(None);
        }
    }
    Ok(Some(told))
}
