//! Rows, actions and bytes that the caller changes between calls.
use crate::turns::{Desk, Turn};
use rows::{Row, RowKind};
use runs::Call;
use std::process::Abort;
use std::test::Fail;
use table::TableMachine;

const FILE: &[u8] = b"<day><tour><stop/></tour><stop></stop></day>";

const ALL: [usize; 4] = [44, 64, 64, 16];

/// Two pieces with two rows each: day and tour open; tour's end, and a stop.
static TWO: [Turn; 2] = [
    (ALL, Call::Read { from: 0, to: 13 }, Ok(0)),
    (ALL, Call::Read { from: 13, to: 44 }, Ok(1)),
];

fn queries() -> Result<TableMachine, Fail> {
    let mut m = TableMachine::new();
    m.make(b"/day/stop\n//stop\n/day//tour/*")?;
    Ok(m)
}

/// A desk where the two pieces are read.
fn two_read<'a>(rt: &impl Abort, m: &'a TableMachine) -> Result<Desk<'a>, Fail> {
    let mut desk = Desk::opened(m, FILE.len())?;
    desk.take_turns(rt, FILE, &TWO);
    Ok(desk)
}

/// Reads the two pieces, puts a row in the place of another, and makes the other calls.
fn with_row(
    rt: &impl Abort,
    m: &TableMachine,
    at: usize,
    row: Row,
    turns: &[Turn],
) -> Result<(), Fail> {
    let mut desk = two_read(rt, m)?;
    desk.rows[at % 64] = row;
    desk.take_turns(rt, FILE, turns);
    Ok(())
}

/// A row's place and the row put there; what the join then tells, and the finish.
type Overwritten = (usize, Row, Result<usize, u8>, Result<usize, u8>);

static ROWS: [Overwritten; 13] = [
    (
        2,
        Row {
            kind: RowKind::Close,
            place: 18,
            name_len: 4,
        },
        Ok(2),
        Ok(4),
    ),
    // the row rule at its edge
    (
        0,
        Row {
            kind: RowKind::Open,
            place: 0,
            name_len: 42,
        },
        Ok(2),
        Ok(102),
    ),
    (
        0,
        Row {
            kind: RowKind::Open,
            place: 0,
            name_len: 43,
        },
        Err(13),
        Err(10),
    ),
    (
        1,
        Row {
            kind: RowKind::Open,
            place: 40,
            name_len: 3,
        },
        Err(13),
        Err(10),
    ),
    (
        3,
        Row {
            kind: RowKind::Done,
            place: 42,
            name_len: 0,
        },
        Ok(2),
        Ok(4),
    ),
    (
        3,
        Row {
            kind: RowKind::Done,
            place: 43,
            name_len: 0,
        },
        Err(13),
        Err(10),
    ),
    // an open element of another name, or closed already, or an end tag
    (
        1,
        Row {
            kind: RowKind::Open,
            place: 0,
            name_len: 3,
        },
        Ok(2),
        Ok(102),
    ),
    (
        1,
        Row {
            kind: RowKind::Done,
            place: 5,
            name_len: 4,
        },
        Ok(2),
        Ok(102),
    ),
    (
        1,
        Row {
            kind: RowKind::Close,
            place: 18,
            name_len: 4,
        },
        Ok(2),
        Ok(103),
    ),
    // an end tag of another name, or a start tag; one more of each
    (
        2,
        Row {
            kind: RowKind::Close,
            place: 31,
            name_len: 4,
        },
        Ok(2),
        Ok(102),
    ),
    (
        2,
        Row {
            kind: RowKind::Open,
            place: 0,
            name_len: 3,
        },
        Ok(2),
        Ok(104),
    ),
    (
        3,
        Row {
            kind: RowKind::Close,
            place: 18,
            name_len: 4,
        },
        Ok(2),
        Ok(102),
    ),
    (
        3,
        Row {
            kind: RowKind::Open,
            place: 25,
            name_len: 4,
        },
        Ok(2),
        Ok(102),
    ),
];

#[test]
fn rows_overwritten(rt: HostRuntime) -> Result<(), Fail> {
    let m = queries()?;
    for (at, row, joined, told) in ROWS {
        with_row(
            &rt,
            &m,
            at,
            row,
            &[
                (ALL, Call::Join { left: 0, right: 1 }, joined),
                (ALL, Call::Finish { piece: 2 }, told),
            ],
        )?;
    }
    Ok(())
}

/// Where a row of the left piece breaks the rule: what is asked before that, and after.
static BROKEN: [Turn; 6] = [
    ([43, 64, 64, 16], Call::Join { left: 0, right: 1 }, Err(7)),
    ([44, 3, 64, 16], Call::Join { left: 0, right: 1 }, Err(8)),
    (ALL, Call::Join { left: 0, right: 2 }, Err(10)),
    (ALL, Call::Join { left: 1, right: 0 }, Err(11)),
    (ALL, Call::Finish { piece: 0 }, Err(12)),
    ([44, 4, 4, 16], Call::Join { left: 0, right: 1 }, Err(13)),
];

#[test]
fn rows_broken(rt: HostRuntime) -> Result<(), Fail> {
    let m = queries()?;
    with_row(
        &rt,
        &m,
        1,
        Row {
            kind: RowKind::Done,
            place: 4294967295,
            name_len: 4294967295,
        },
        &BROKEN,
    )
}

/// The two pieces joined with another file, which has the names that are compared and the tag that was cut.
static FILES: [(&[u8], Result<usize, u8>, Result<usize, u8>); 7] = [
    (FILE, Ok(2), Ok(4)),
    (
        b"<day><trip><stop/></trip><stop></stop></day>",
        Ok(2),
        Ok(4),
    ),
    (
        b"<day><tour><stop/></trip><stop></stop></day>",
        Ok(2),
        Ok(102),
    ),
    (
        b"<day><tour><spot/></tour><stop></stop></day>",
        Ok(2),
        Ok(3),
    ),
    (
        b"<day><tour><stop></tour><stop></stop></daay>",
        Ok(2),
        Ok(102),
    ),
    (
        b"xxxxxxxxxxxxxxxxxxxxxxxxxxxxxxxxxxxxxxxxxxxx",
        Ok(2),
        Ok(101),
    ),
    (
        b"<day><tour><stop/></tour><stop></stop></day>\n",
        Err(7),
        Err(7),
    ),
];

#[test]
fn another_file(rt: HostRuntime) -> Result<(), Fail> {
    let m = queries()?;
    for (file, joined, told) in FILES {
        let lengths = [file.len(), 64, 64, 16];
        let turns = [
            (lengths, Call::Join { left: 0, right: 1 }, joined),
            (lengths, Call::Finish { piece: 2 }, told),
        ];
        two_read(&rt, &m)?.take_turns(&rt, file, &turns);
    }
    Ok(())
}

/// Actions that the caller has overwritten are taken as they stand: state 31 is unused, so what is below it marks nothing.
#[test]
fn actions_overwritten(rt: HostRuntime) -> Result<(), Fail> {
    let m = queries()?;
    let mut desk = two_read(&rt, &m)?;
    desk.actions[0] = [255; 32];
    let turns = [
        (ALL, Call::Join { left: 0, right: 1 }, Ok(2)),
        (ALL, Call::Finish { piece: 2 }, Ok(2)),
    ];
    desk.take_turns(&rt, FILE, &turns);
    Ok(())
}
