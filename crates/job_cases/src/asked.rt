//! Each question at its edge, and which of two comes first.
use crate::turns::{Desk, Turn};
use machine::Refusal;
use runs::Call;
use std::test::Fail;
use table::TableMachine;

const FILE: &[u8] = b"<day><tour><stop/></tour><stop></stop></day>";

/// In two pieces: the file has 7 marks, of which 3 stand before place 13.
static CALLS: [Turn; 40] = [
    // reads of a job with no pieces
    ([43, 0, 0, 0], Call::Read { from: 14, to: 13 }, Err(7)),
    ([44, 0, 0, 0], Call::Read { from: 14, to: 13 }, Err(9)),
    ([44, 0, 0, 0], Call::Read { from: 0, to: 45 }, Err(9)),
    ([44, 0, 0, 0], Call::Read { from: 45, to: 45 }, Err(9)),
    ([44, 0, 0, 0], Call::Read { from: 0, to: 13 }, Err(15)),
    ([44, 2, 3, 0], Call::Read { from: 0, to: 13 }, Err(15)),
    ([44, 3, 2, 0], Call::Read { from: 0, to: 13 }, Err(15)),
    ([44, 3, 3, 0], Call::Join { left: 0, right: 0 }, Err(10)),
    ([44, 3, 3, 0], Call::Finish { piece: 0 }, Err(10)),
    ([44, 3, 3, 0], Call::Read { from: 0, to: 13 }, Ok(0)),
    // two rows are used
    ([43, 1, 1, 0], Call::Read { from: 13, to: 44 }, Err(7)),
    ([44, 1, 64, 0], Call::Read { from: 14, to: 13 }, Err(8)),
    ([44, 64, 1, 0], Call::Read { from: 13, to: 44 }, Err(8)),
    ([44, 2, 2, 0], Call::Read { from: 14, to: 13 }, Err(9)),
    ([44, 5, 6, 0], Call::Read { from: 13, to: 44 }, Err(15)),
    ([44, 6, 5, 0], Call::Read { from: 13, to: 44 }, Err(15)),
    ([44, 6, 64, 0], Call::Read { from: 13, to: 44 }, Ok(1)),
    // four rows are used
    ([43, 0, 0, 0], Call::Join { left: 0, right: 2 }, Err(7)),
    ([44, 3, 64, 0], Call::Join { left: 0, right: 2 }, Err(8)),
    ([44, 64, 3, 0], Call::Join { left: 0, right: 2 }, Err(8)),
    ([44, 4, 4, 0], Call::Join { left: 0, right: 2 }, Err(10)),
    ([44, 4, 4, 0], Call::Join { left: 2, right: 1 }, Err(10)),
    ([44, 4, 4, 0], Call::Join { left: 1, right: 0 }, Err(11)),
    ([44, 4, 4, 0], Call::Join { left: 0, right: 0 }, Err(11)),
    ([44, 10, 11, 0], Call::Join { left: 0, right: 1 }, Err(15)),
    ([44, 11, 10, 0], Call::Join { left: 0, right: 1 }, Err(15)),
    ([44, 11, 11, 0], Call::Join { left: 0, right: 1 }, Ok(2)),
    // eight rows are used
    ([43, 7, 7, 0], Call::Finish { piece: 0 }, Err(7)),
    ([44, 7, 8, 0], Call::Finish { piece: 3 }, Err(8)),
    ([44, 8, 7, 0], Call::Finish { piece: 3 }, Err(8)),
    ([44, 8, 8, 0], Call::Finish { piece: 3 }, Err(10)),
    ([44, 8, 8, 0], Call::Finish { piece: 0 }, Err(12)),
    ([44, 8, 8, 0], Call::Finish { piece: 1 }, Err(12)),
    ([44, 8, 8, 0], Call::Finish { piece: 2 }, Err(16)),
    ([44, 8, 8, 3], Call::Finish { piece: 2 }, Err(16)),
    ([44, 8, 8, 4], Call::Finish { piece: 2 }, Ok(4)),
    ([44, 64, 8, 16], Call::Finish { piece: 2 }, Ok(4)),
    // pieces without marks need no room
    ([44, 8, 8, 0], Call::Read { from: 44, to: 44 }, Ok(3)),
    ([44, 8, 8, 0], Call::Join { left: 2, right: 3 }, Err(15)),
    ([44, 15, 15, 0], Call::Join { left: 2, right: 3 }, Ok(4)),
];

#[test]
fn questions_in_order(rt: HostRuntime) -> Result<(), Fail> {
    let mut m = TableMachine::new();
    m.make(b"/day/stop\n//stop\n/day//tour/*")?;
    Desk::opened(&m, FILE.len())?.take_turns(&rt, FILE, &CALLS);
    Ok(())
}

/// Calls on a job that was never opened: its file is empty.
static UNOPENED: [Turn; 5] = [
    ([1, 0, 0, 0], Call::Read { from: 0, to: 0 }, Err(7)),
    ([0, 0, 0, 0], Call::Finish { piece: 0 }, Err(10)),
    ([0, 0, 0, 0], Call::Read { from: 0, to: 0 }, Ok(0)),
    ([0, 0, 0, 0], Call::Join { left: 0, right: 0 }, Ok(1)),
    ([0, 0, 0, 0], Call::Finish { piece: 1 }, Ok(0)),
];

#[test]
fn never_opened(rt: HostRuntime) {
    let m = TableMachine::new();
    Desk::new(&m).take_turns(&rt, FILE, &UNOPENED);
}

/// A refused open leaves the job and its pieces, an accepted one begins anew.
#[test]
fn opened_again(rt: HostRuntime) {
    let m = TableMachine::new();
    let mut desk = Desk::new(&m);
    let opens: [(usize, Result<(), Refusal>, usize); 6] = [
        (44, Ok(()), 0),
        (1073741825, Err(Refusal::FileTooLong), 1),
        (usize::MAX, Err(Refusal::FileTooLong), 2),
        (44, Ok(()), 0),
        (1073741825, Err(Refusal::FileTooLong), 1),
        (44, Ok(()), 0),
    ];
    for (size, opened, piece) in opens {
        assert_eq!(rt; desk.open(size), opened);
        let turns = [([44, 0, 0, 0], Call::Read { from: 1, to: 5 }, Ok(piece))];
        desk.take_turns(&rt, FILE, &turns);
    }
    assert_eq!(rt; desk.open(1073741824), Ok(()));
}

/// With 128 pieces made, what is asked before and after the room for one more.
static FULL: [Turn; 8] = [
    ([43, 0, 0, 0], Call::Read { from: 0, to: 0 }, Err(7)),
    ([44, 0, 0, 0], Call::Read { from: 1, to: 0 }, Err(9)),
    ([44, 0, 0, 0], Call::Read { from: 0, to: 0 }, Err(14)),
    ([44, 0, 0, 0], Call::Read { from: 0, to: 44 }, Err(14)),
    (
        [44, 0, 0, 0],
        Call::Join {
            left: 0,
            right: 128,
        },
        Err(10),
    ),
    (
        [44, 0, 0, 0],
        Call::Join {
            left: 0,
            right: 127,
        },
        Err(11),
    ),
    ([44, 0, 0, 0], Call::Join { left: 0, right: 1 }, Err(14)),
    ([44, 0, 0, 0], Call::Finish { piece: 0 }, Err(12)),
];

#[test]
fn pieces_run_out(rt: HostRuntime) -> Result<(), Fail> {
    let m = TableMachine::new();
    let mut desk = Desk::opened(&m, FILE.len())?;
    for piece in 0..128 {
        let from = if piece == 127 { 44 } else { 0 };
        let turns = [([44, 0, 0, 0], Call::Read { from, to: from }, Ok(piece))];
        desk.take_turns(&rt, FILE, &turns);
    }
    desk.take_turns(&rt, FILE, &FULL);
    Ok(())
}
