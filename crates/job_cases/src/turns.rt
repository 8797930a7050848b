//! Calls one after another, each with a file and lists of its own length.
use answers::Match;
use job::{Answer, Job};
use machine::Refusal;
use rows::{Row, RowKind};
use runs::{Call, Reply, make};
use std::process::Abort;
use table::TableMachine;

/// How many bytes of the file and how many places of the row list, the action list and the match list come with a call; the call; and what it must tell.
pub type Turn = ([usize; 4], Call, Result<usize, u8>);

const ROW: Row = Row {
    kind: RowKind::Open,
    place: 0,
    name_len: 0,
};

const MATCH: Match = Match { place: 0, query: 0 };

/// The number of the new piece, of matches or of the fault; or the number by which the call is refused.
fn number(reply: Reply) -> Result<usize, u8> {
    match reply {
        Reply::Made(Ok(piece)) => Ok(piece),
        Reply::Answered(Ok(Answer::Matches(count))) => Ok(count),
        Reply::Answered(Ok(Answer::Fault(fault))) => Ok(fault.number() as usize),
        Reply::Made(Err(why)) | Reply::Answered(Err(why)) => Err(why.number()),
        Reply::Unanswered => Err(0),
    }
}

/// A machine, a job, and the lists that the job is lent.
#[derive(Drop)]
pub struct Desk<'a> {
    machine: &'a TableMachine,
    job: Job,
    pub rows: [Row; 64],
    pub actions: [[u8; 32]; 64],
    matches: [Match; 16],
}

impl<'a> Desk<'a> {
    /// With a job that was never opened.
    pub fn new(machine: &'a TableMachine) -> Desk<'a> {
        Desk {
            machine,
            job: Job::new(),
            rows: [ROW; 64],
            actions: [[0; 32]; 64],
            matches: [MATCH; 16],
        }
    }

    /// With a job opened for a file of that length.
    pub fn opened(machine: &'a TableMachine, size: usize) -> Result<Desk<'a>, Refusal> {
        let mut desk = Desk::new(machine);
        desk.open(size)?;
        Ok(desk)
    }

    pub fn open(&mut self, size: usize) -> Result<(), Refusal> {
        self.job.open(size)
    }

    /// Makes the calls in turn, and holds what each tells to the table.
    pub fn take_turns(&mut self, rt: &impl Abort, file: &[u8], turns: &[Turn]) {
        let rows = &mut self.rows[..];
        let actions = &mut self.actions[..];
        let matches = &mut self.matches[..];
        for (lengths, call, told) in turns {
            let [bytes, row_count, action_count, match_count] = *lengths;
            let reply = make(
                self.machine,
                &mut self.job,
                &file[..bytes.min(file.len())],
                &mut rows[..row_count.min(64)],
                &mut actions[..action_count.min(64)],
                &mut matches[..match_count.min(16)],
                *call,
            );
            assert_eq!(rt; number(reply), *told);
        }
    }
}
