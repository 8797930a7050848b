//! The calls that make pieces, and the one that finishes a file.
ghost use Rattle.std.specs.Prelude.{◌≡◌, ◌+◌, ◌^◌, ◌<◌};
ghost use Rattle.rows.specs.Stretches.{joined_ends};
ghost use Rattle.rows.specs.Lists.{ends_of};
ghost use Rattle.job.specs.State.{world, Unchanged, ReadSays, JoinSays, FinishSays};

use crate::answer::Answer;
use crate::job::Job;
use crate::job::answering::answer;
use answers::Match;
use joining::join as join_rows;
use machine::{Machine, Refusal};
use reading::read as read_rows;
use rows::part::Part;
use rows::{Entries, Row, Source};

/// The first mark, the last mark and the number of marks of two neighbours together.
fn joined_ends(left: Part, right: Part) -> (usize, usize, usize)
    requires { left.marks + right.marks < 2 ^ 64 }
    ensures { result ≡ joined_ends (ends_of left) (ends_of right) }
{
    if left.marks == 0 {
        return (right.first, right.last, right.marks);
    }
    if right.marks == 0 {
        return (left.first, left.last, left.marks);
    }
    (left.first, right.last, left.marks + right.marks)
}

impl Job {
    /// Makes a piece of the bytes from `from` up to but without `to`, and tells its number.
    pub fn read<M: Machine>(
        &mut self,
        m: &M,
        file: &[u8],
        rows: &mut [Row],
        actions: &mut [M::Plain],
        from: usize,
        to: usize,
    ) -> Result<usize, Refusal>
        ensures says { ReadSays file.now (M.model m.now) (world self.old rows.old actions.old) from to result (world self.new rows.new actions.new) }
        ensures kept { Unchanged result self.old self.new }
    {
        let marks = self.ask_read(file, rows, actions, from, to)?;
        let source = Source { machine: m, file };
        let kept = read_rows(&source, rows, actions, self.used, from, to, marks.2);
        Ok(self.add(from, to, marks, kept))
    }

    /// Makes a piece of two that lie side by side, and leaves them there. Tells its number.
    pub fn join<M: Machine>(
        &mut self,
        m: &M,
        file: &[u8],
        rows: &mut [Row],
        actions: &mut [M::Plain],
        left: usize,
        right: usize,
    ) -> Result<usize, Refusal>
        ensures says { JoinSays file.now (M.model m.now) (world self.old rows.old actions.old) left right result (world self.new rows.new actions.new) }
        ensures kept { Unchanged result self.old self.new }
    {
        let (l, r) = self.ask_join(file, rows, actions, left, right)?;
        let marks = joined_ends(l.part, r.part);
        let source = Source { machine: m, file };
        let kept = join_rows(&source, rows, actions, self.used, l.part, r.part);
        Ok(self.add(l.from, r.to, marks, kept))
    }

    /// What the file answers, from a piece that runs over all of it. Matches are written from the match list's start.
    pub fn finish<M: Machine>(
        &self,
        m: &M,
        file: &[u8],
        rows: &[Row],
        actions: &[M::Plain],
        matches: &mut [Match],
        piece: usize,
    ) -> Result<Answer, Refusal>
        ensures { FinishSays file.now (M.model m.now) (world self.now rows.now actions.now) piece matches.old result matches.new }
    {
        let p = self.ask_finish(file, rows, actions, piece)?;
        let source = Source { machine: m, file };
        let from = p.part.at;
        let to = from + p.part.kept.rows;
        let entries = Entries {
            rows: &rows[from..to],
            actions: &actions[from..to],
        };
        answer(&source, &entries, p.part, matches)
    }
}
