//! A file is read in parts, joined and finished, and each stage is timed.
use answers::Match;
use anyhow::anyhow;
use job::{Answer, Job};
use machine::{Machine, Refusal};
use rows::{Row, RowKind};
use std::alloc::Global;
use std::rt::Clock;
use std::time::{Duration, Instant};
use tags::scan;

/// How long each stage took, and what was answered.
#[derive(Clone, Copy)]
pub struct Times {
    pub read: Duration,
    pub join: Duration,
    pub finish: Duration,
    pub answer: Answer,
}

/// What an accepted call answers.
fn accepted<T: Drop>(answer: Result<T, Refusal>) -> anyhow::Result<T> {
    answer.map_err(|_| anyhow!("a call was refused"))
}

/// How often pieces are joined in pairs until one is left.
fn levels(parts: usize) -> usize {
    (0..7).find(|n| parts <= 1 << *n).unwrap_or(7)
}

/// A file in work, with the lists that its job is lent.
#[derive(Drop)]
struct Bench<'a, M: Machine> {
    machine: &'a M,
    file: &'a [u8],
    job: Job,
    rows: Vec<Row>,
    actions: Vec<M::Plain>,
    matches: Vec<Match>,
}

impl<'a, M: Machine> Bench<'a, M> {
    /// With room in the lists for every piece that is read or joined.
    fn new(heap: Global, machine: &'a M, file: &'a [u8], parts: usize) -> anyhow::Result<Self> {
        let (_, _, marks) = scan(file, 0, file.len());
        let room = marks.saturating_mul(levels(parts).saturating_add(1));
        let row = Row {
            kind: RowKind::Close,
            place: 0,
            name_len: 0,
        };
        let action = machine.plain(&machine.stay());
        let found = Match { place: 0, query: 0 };
        Ok(Bench {
            machine,
            file,
            job: Job::new(),
            rows: vec![in heap; row; room]?,
            actions: vec![in heap; action; room]?,
            matches: vec![in heap; found; marks.saturating_mul(4)]?,
        })
    }

    fn read(&mut self, from: usize, to: usize) -> anyhow::Result<usize> {
        let rows = self.rows.as_mut_slice();
        let actions = self.actions.as_mut_slice();
        accepted(
            self.job
                .read(self.machine, self.file, rows, actions, from, to),
        )
    }

    fn join(&mut self, left: usize, right: usize) -> anyhow::Result<usize> {
        let rows = self.rows.as_mut_slice();
        let actions = self.actions.as_mut_slice();
        accepted(
            self.job
                .join(self.machine, self.file, rows, actions, left, right),
        )
    }

    fn finish(&mut self, piece: usize) -> anyhow::Result<Answer> {
        let rows = self.rows.as_slice();
        let actions = self.actions.as_slice();
        let matches = self.matches.as_mut_slice();
        accepted(
            self.job
                .finish(self.machine, self.file, rows, actions, matches, piece),
        )
    }

    /// Reads the file in parts of equal length, and tells the pieces.
    fn read_parts(&mut self, heap: Global, parts: usize) -> anyhow::Result<Vec<usize>> {
        let mut pieces = Vec::new(heap);
        let length = self.file.len().checked_div(parts).unwrap_or(0);
        let mut from: usize = 0;
        for left in (0..parts).rev() {
            let to = if left == 0 {
                self.file.len()
            } else {
                from.saturating_add(length)
            };
            pieces.push(self.read(from, to)?)?;
            from = to;
        }
        Ok(pieces)
    }

    /// Joins each piece at an even place with the one after it.
    fn join_pairs(&mut self, heap: Global, pieces: &[usize]) -> anyhow::Result<Vec<usize>> {
        let mut joined = Vec::new(heap);
        for pair in pieces.chunks(2) {
            let piece = match pair {
                [left, right] => self.join(*left, *right)?,
                [last] => *last,
                _ => 0,
            };
            joined.push(piece)?;
        }
        Ok(joined)
    }

    /// Reads the file in parts, joins these in pairs until one piece is left, and finishes it.
    fn round(&mut self, heap: Global, clock: &impl Clock, parts: usize) -> anyhow::Result<Times> {
        accepted(self.job.open(self.file.len()))?;
        let start = Instant::now(clock)?;
        let mut pieces = self.read_parts(heap, parts)?;
        let read = start.elapsed(clock)?;
        let start = Instant::now(clock)?;
        for _ in 0..levels(parts) {
            pieces = self.join_pairs(heap, pieces.as_slice())?;
        }
        let join = start.elapsed(clock)?;
        let whole = pieces.first().copied().unwrap_or(0);
        let start = Instant::now(clock)?;
        let answer = self.finish(whole)?;
        let finish = start.elapsed(clock)?;
        Ok(Times {
            read,
            join,
            finish,
            answer,
        })
    }
}

/// The shortest time of each stage in five rounds.
pub fn measure<M: Machine>(
    heap: Global,
    clock: &impl Clock,
    m: &M,
    file: &[u8],
    parts: usize,
) -> anyhow::Result<Times> {
    let mut bench = Bench::new(heap, m, file, parts)?;
    let mut best = bench.round(heap, clock, parts)?;
    for _ in 0..4 {
        let times = bench.round(heap, clock, parts)?;
        best = Times {
            read: best.read.min(times.read),
            join: best.join.min(times.join),
            finish: best.finish.min(times.finish),
            answer: times.answer,
        };
    }
    Ok(best)
}
