//! A file read by a plan.
ghost use Rattle.std.specs.Prelude.{length};
ghost use Rattle.request.specs.Stops.{IfDecided, Kept};
ghost use Rattle.solving.specs.Plan.{plan_of};
ghost use Rattle.solving.specs.Solving.{FinishesLast, calls_of, SolveSays};

use crate::outcome::{Outcome, outcome_of};
use crate::plan::plan_calls;
use answers::Match;
use job::{Answer, Job};
use machine::{Machine, Refusal};
use request::Stop;
use rows::Row;
use runs::{Step, run};
use std::alloc::Global;

/// Runs steps, of which the last is the only finish, and tells what came of them.
fn run_steps<M: Machine>(
    m: &M,
    file: &[u8],
    rows: &mut [Row],
    actions: &mut [M::Plain],
    matches: &mut [Match],
    steps: &mut [Step],
) -> Outcome
    requires { FinishesLast (calls_of steps.old) }
    ensures { SolveSays (M.model m.now) steps.old file.now rows.old actions.old matches.old result rows.new actions.new matches.new }
{
    let mut job = Job::new();
    run(m, &mut job, file, rows, actions, matches, steps)?;
    outcome_of(steps).unwrap()
}

/// Cuts the file at `cuts`, reads it from the last piece back, and tells what came of it.
pub fn solve<M: Machine>(
    heap: Global,
    m: &M,
    cuts: &[usize],
    file: &[u8],
    rows: &mut [Row],
    actions: &mut [M::Plain],
    matches: &mut [Match],
) -> Result<Answer, Stop<Refusal>>
    ensures solved { IfDecided result (λ o. SolveSays (M.model m.now) (plan_of cuts.now (length file.now)) file.now rows.old actions.old matches.old o rows.new actions.new matches.new) }
    ensures kept { Kept result rows.old rows.new × Kept result actions.old actions.new × Kept result matches.old matches.new }
{
    let mut steps = plan_calls(heap, cuts, file.len())?;
    Ok(run_steps(m, file, rows, actions, matches, steps.as_mut_slice())?)
}
