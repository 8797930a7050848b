//! Reads cases, each a query text and a document, and lists what every document answers. A listing is printed if all ways of reading the document agree on it.

#![tactic(auto)]

mod given;

use crate::given::{Case, next_case};
use answers::Fault;
use cuttings::{Told, agreed};
use job::Answer;
use machine::Refusal;
use relation::RelationMachine;
use std::alloc::{AllocError, Global};
use std::io;
use std::io::Read;
use table::TableMachine;

/// Why a case tells nothing.
#[derive(Debug, Drop)]
enum Stop {
    /// The queries are refused.
    Refused(Refusal),
    /// Two ways of reading the document differ, or one is refused.
    Disagree,
    NoMemory(AllocError),
}

impl From<Refusal> for Stop {
    fn from(why: Refusal) -> Stop {
        Stop::Refused(why)
    }
}

impl From<AllocError> for Stop {
    fn from(e: AllocError) -> Stop {
        Stop::NoMemory(e)
    }
}

/// What the relation machine tells, and the table machine too where it can be made.
fn told_of(heap: Global, case: &Case) -> Result<Told, Stop> {
    let mut relation = RelationMachine::new();
    relation.make(case.text)?;
    let told = agreed(heap, &relation, case.file)?.ok_or(Stop::Disagree)?;
    let mut table = TableMachine::new();
    match table.make(case.text) {
        Ok(()) => match agreed(heap, &table, case.file)? {
            Some(again) if again == told => Ok(told),
            _ => Err(Stop::Disagree),
        },
        Err(Refusal::TooManySets) => Ok(told),
        Err(why) => Err(Stop::Refused(why)),
    }
}

fn list_fault(rt: &impl Print, fault: Fault) -> io::Result<()> {
    let number = fault.number();
    let place = fault.place();
    match fault {
        Fault::BadTag(bad) => {
            let cause = bad.cause.number();
            let byte = bad.byte;
            println!(rt; "fault {number} {place} {cause} {byte}")
        }
        _ => println!(rt; "fault {number} {place}"),
    }
}

fn list_told(rt: &impl Print, told: &Told) -> io::Result<()> {
    match told.answer {
        Answer::Fault(fault) => list_fault(rt, fault),
        Answer::Matches(count) => {
            for found in told.matches.iter() {
                println!(rt; "{found}")?;
            }
            println!(rt; "end {count}")
        }
    }
}

fn list_case(rt: &(impl Print + AllocGlobal), case: &Case) -> io::Result<()> {
    match told_of(rt.alloc(), case) {
        Ok(told) => list_told(rt, &told),
        Err(Stop::Refused(why)) => {
            let number = why.number();
            println!(rt; "refused {number}")
        }
        Err(Stop::Disagree) => println!(rt; "disagree"),
        Err(Stop::NoMemory(e)) => Err(e.into()),
    }
}

fn main(rt: HostRuntime) -> io::Result<()> {
    let mut input = Vec::new(rt.alloc());
    rt.stdin().read_to_end(&mut input)?;
    let mut rest = input.as_slice();
    for number in 0..input.len() {
        let Some((case, after)) = next_case(rest) else {
            break;
        };
        println!(rt; "case {number}")?;
        list_case(&rt, &case)?;
        rest = after;
    }
    if rest.is_empty() {
        Ok(())
    } else {
        println!(rt; "unread")
    }
}
