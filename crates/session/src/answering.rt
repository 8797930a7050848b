//! An input answered.
ghost use Rattle.std.specs.Prelude.{◌≡◌, length, vec_items};
ghost use Rattle.table.specs.Making.{SetsRefused};
ghost use Rattle.request.specs.Asked.{request};
ghost use Rattle.request.specs.Stops.{IfDecided, Kept};
ghost use Rattle.session.specs.Answering.{room, Tried, TextSays, Said, Wanted};

use answers::Match;
use job::Answer;
use machine::{Machine, Refusal};
use relation::RelationMachine;
use request::{Request, Stop, read_request};
use rows::{Row, RowKind};
use solving::solve;
use std::alloc::Global;
use table::TableMachine;

const NO_ROW: Row = Row {
    kind: RowKind::Close,
    place: 0,
    name_len: 0,
};

/// The actions are lent, since an array of a type parameter may be too large for memory.
fn try_machine<M: Machine>(
    heap: Global,
    machine: &M,
    asked: &Request<'_>,
    actions: &mut [M::Plain],
    matches: &mut [Match],
) -> Result<Answer, Stop<Refusal>>
    requires { length actions.old ≡ room }
    ensures tried { IfDecided result (λ o. Tried (M.model machine.now) (vec_items asked.now.cuts) asked.now.file.now matches.old o matches.new) }
    ensures kept { Kept result matches.old matches.new }
{
    let mut rows = [NO_ROW; 256];
    solve(
        heap,
        machine,
        asked.cuts.as_slice(),
        asked.file,
        &mut rows,
        actions,
        matches,
    )
}

/// By the machine of relations, where the table machine cannot have the queries.
fn answer_by_relation(
    heap: Global,
    asked: &Request<'_>,
    matches: &mut [Match],
) -> Result<Answer, Stop<Refusal>>
    requires { SetsRefused asked.now.queries.now }
    ensures says { IfDecided result (λ o. TextSays asked.now.queries.now (vec_items asked.now.cuts) asked.now.file.now matches.old o matches.new) }
    ensures kept { Kept result matches.old matches.new }
{
    let mut machine = RelationMachine::new();
    machine.make(asked.queries)?;
    let mut actions = [machine.stay(); 256];
    try_machine(heap, &machine, asked, &mut actions, matches)
}

fn answer_queries(
    heap: Global,
    asked: &Request<'_>,
    matches: &mut [Match],
) -> Result<Answer, Stop<Refusal>>
    ensures says { IfDecided result (λ o. TextSays asked.now.queries.now (vec_items asked.now.cuts) asked.now.file.now matches.old o matches.new) }
    ensures kept { Kept result matches.old matches.new }
{
    let mut machine = TableMachine::new();
    let made = machine.make(asked.queries);
    if made == Err(Refusal::TooManySets) {
        return answer_by_relation(heap, asked, matches);
    }
    made?;
    try_machine(heap, &machine, asked, &mut [[0u8; 32]; 256], matches)
}

/// Answers an input. The matches are written from the match list's start.
pub fn answer_input(
    heap: Global,
    input: &[u8],
    matches: &mut [Match],
) -> Result<Answer, Stop<Refusal>>
    ensures said { IfDecided result (λ o. Said (request input.now) matches.old o matches.new) }
    ensures kept { Kept result matches.old matches.new }
    ensures memory { Wanted result input.now }
{
    let asked = read_request(heap, input)?;
    answer_queries(heap, &asked, matches)
}
