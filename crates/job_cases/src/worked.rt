//! Files worked through under every cut.
use answers::Match;
use cuttings::{agreed, same};
use foreign::ParityMachine;
use machine::Machine;
use relation::RelationMachine;
use std::alloc::{AllocError, Global};
use std::test::Fail;
use table::TableMachine;

const FILE: &[u8] = b"<day><tour><stop/></tour><stop></stop></day>";

const TEXT: &[u8] = b"/day/stop\n//stop\n/day//tour/*";

static FOUND: [Match; 4] = [
    Match {
        place: 11,
        query: 1,
    },
    Match {
        place: 11,
        query: 2,
    },
    Match {
        place: 25,
        query: 0,
    },
    Match {
        place: 25,
        query: 1,
    },
];

/// Whether the file has these matches, however it is cut in three and in whichever order it is joined.
fn found_in_three<M: Machine>(
    heap: Global,
    m: &M,
    file: &[u8],
    found: &[Match],
) -> Result<bool, AllocError> {
    let Some(told) = agreed(heap, m, file)? else {
        return Ok(false);
    };
    for a in 0..=file.len() {
        for b in a..=file.len() {
            if !same(heap, m, file, &[a, b, file.len()], &told)? {
                return Ok(false);
            }
        }
    }
    Ok(told.matches.as_slice() == found)
}

#[test]
fn tables(rt: HostRuntime) -> Result<(), Fail> {
    let mut m = TableMachine::new();
    m.make(TEXT)?;
    assert!(rt; found_in_three(rt.alloc(), &m, FILE, &FOUND)?);
    Ok(())
}

#[test]
fn relations(rt: HostRuntime) -> Result<(), Fail> {
    let mut m = RelationMachine::new();
    m.make(TEXT)?;
    assert!(rt; found_in_three(rt.alloc(), &m, FILE, &FOUND)?);
    Ok(())
}

/// A machine with a verdict of its own goes through the same calls.
#[test]
fn parities(rt: HostRuntime) -> Result<(), Fail> {
    let found = [
        Match { place: 3, query: 0 },
        Match { place: 7, query: 1 },
        Match {
            place: 16,
            query: 0,
        },
        Match {
            place: 16,
            query: 1,
        },
    ];
    assert!(rt;
        found_in_three(
            rt.alloc(),
            &ParityMachine {},
            b"<a><bb><c/></bb><d/></a>",
            &found,
        )?
    );
    Ok(())
}
