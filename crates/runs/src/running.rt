//! A list of calls, made one after another.
ghost use Rattle.machine.specs.Model.{Model, Lawful};
ghost use Rattle.runs.specs.Runs.{stage, answered, Does, lent, RunSays, AlwaysFaithful, Stepwise};

use crate::steps::{Call, Reply, Step};
use answers::Match;
use job::Job;
use machine::{Machine, Refusal};
use rows::Row;

/// Makes one call of the job.
pub fn make<M: Machine>(
    m: &M,
    job: &mut Job,
    file: &[u8],
    rows: &mut [Row],
    actions: &mut [M::Plain],
    matches: &mut [Match],
    call: Call,
) -> Reply
    ensures { Does (M.model m.now) file.now (stage job.old rows.old actions.old matches.old) (answered call result) (stage job.new rows.new actions.new matches.new) }
{
    match call {
        Call::Read { from, to } => Reply::Made(job.read(m, file, rows, actions, from, to)),
        Call::Join { left, right } => Reply::Made(job.join(m, file, rows, actions, left, right)),
        Call::Finish { piece } => Reply::Answered(job.finish(
            m, file, rows, actions, matches, piece,
        )),
    }
}

/// Opens the job for the file, makes the calls in turn, and writes each reply into its step.
pub fn run<M: Machine>(
    m: &M,
    job: &mut Job,
    file: &[u8],
    rows: &mut [Row],
    actions: &mut [M::Plain],
    matches: &mut [Match],
    steps: &mut [Step],
) -> Result<(), Refusal>
    ensures { RunSays file.now (M.model m.now) (lent job.old rows.old actions.old matches.old steps.old) result (lent job.new rows.new actions.new matches.new steps.new) }
{
    job.open(file.len())?;
    for step in steps.iter_mut() {
        step.reply = make(m, job, file, rows, actions, matches, step.call);
    }
    Ok(())
}

/// For every machine that keeps its laws, by definitions alone: whatever calls do what they say, one after another from a new job on,
/// or one by one on a sound job, do it faithfully. The function does nothing: its promises are theorems.
pub fn every_run<Action, Plain>()
    ensures runs { (m : Model Action Plain) → Lawful m → AlwaysFaithful m }
    ensures steps { (m : Model Action Plain) → Lawful m → Stepwise m }
{}
