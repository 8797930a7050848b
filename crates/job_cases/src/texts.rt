//! Texts of queries at the edges of what the machines take.
use cuttings::{Told, from_left, tell};
use job::Answer;
use machine::Refusal;
use relation::RelationMachine;
use std::alloc::{AllocError, Global};
use std::test::Fail;
use table::TableMachine;

/// A part, how often it stands at the beginning, and the end; then the number by which the table machine refuses it, and the relation machine, 0 for neither.
type Text = (&'static [u8], usize, &'static [u8], u8, u8);

static TEXTS: [Text; 45] = [
    (b"/day/stop\n", 1, b"//stop\n/day//tour/*", 0, 0),
    // bytes
    (b"/abcdefghijklmnopqrstuvwx", 20, b"/abcdefghijk", 0, 0),
    (b"/abcdefghijklmnopqrstuvwx", 20, b"/abcdefghijkl", 1, 1),
    (b"x", 513, b"", 1, 1),
    (b"x", 512, b"", 2, 2),
    // lines, each a query
    (b"/a\n", 7, b"/a", 0, 0),
    (b"/a\n", 8, b"/a", 2, 2),
    (b"", 0, b"", 2, 2),
    (b"", 0, b"/", 2, 2),
    (b"", 0, b"//", 2, 2),
    (b"", 0, b"///a", 2, 2),
    (b"", 0, b"a", 2, 2),
    (b"", 0, b"*", 2, 2),
    (b"", 0, b"/a\n", 2, 2),
    (b"", 0, b"\n/a", 2, 2),
    (b"", 0, b"/a\n\n/a", 2, 2),
    (b"", 0, b"/a/", 2, 2),
    (b"", 0, b"/a b", 2, 2),
    (b"", 0, b" /a", 2, 2),
    (b"", 0, b"/a ", 2, 2),
    (b"", 0, b"/a\r\n/a", 2, 2),
    (b"", 0, b"/1a", 2, 2),
    (b"", 0, b"/-a", 2, 2),
    (b"", 0, b"/a*", 2, 2),
    (b"", 0, b"/*a", 2, 2),
    (b"", 0, b"/**", 2, 2),
    (b"", 0, b"/:/_.-9/A:b", 0, 0),
    // steps and lines together
    (b"/a", 30, b"", 0, 0),
    (b"/a", 31, b"", 5, 0),
    (b"/a", 32, b"", 3, 3),
    (b"//*", 31, b"", 0, 0),
    (b"/a/b/c\n", 7, b"/a/b/c", 0, 0),
    (b"/a/b/c\n", 7, b"/a/b/c/d", 3, 3),
    (b"/a", 40, b"/", 2, 2),
    // names
    (b"", 0, b"/a/b/c/d/e/f/g/h/i/j/k/l/m/n/o", 0, 0),
    (b"", 0, b"/a/b/c/d/e/f/g/h/i/j/k/l/m/n/o/p", 4, 4),
    (b"/a/b/c/d/e/f/g/h/i/j/k/l/m/n/o", 2, b"", 0, 0),
    (b"/a/b/c/d/e/f/g/h/i/j/k/l/m/n/o/p", 2, b"", 3, 3),
    (b"", 0, b"/abcdefghijklmnopqrstuvwx", 0, 0),
    (b"", 0, b"/abcdefghijklmnopqrstuvwxy", 4, 4),
    // sets of positions
    (b"//a", 1, b"/*/*/*/*", 0, 0),
    (b"//a", 1, b"/*/*/*/*/*", 5, 0),
    (b"//a", 1, b"/*/*/*/*/*/abcdefghijklmnopqrstuvwxy", 4, 4),
    (b"//a/*/*/*/*/*\n", 1, b"//b", 5, 0),
    (b"//a/*\n", 4, b"/b", 0, 0),
];

fn written(heap: Global, part: &[u8], times: usize, end: &[u8]) -> Result<Vec<u8>, AllocError> {
    let mut text = Vec::new(heap);
    for _ in 0..times {
        text.extend_from_slice(part)?;
    }
    text.extend_from_slice(end)?;
    Ok(text)
}

fn number(made: Result<(), Refusal>) -> u8 {
    made.map_or_else(|why| why.number(), |()| 0)
}

#[test]
fn texts_at_their_edges(rt: HostRuntime) -> Result<(), Fail> {
    for (part, times, end, by_table, by_relation) in TEXTS {
        let text = written(rt.alloc(), part, times, end)?;
        assert_eq!(rt; number(TableMachine::new().make(text.as_slice())), by_table);
        assert_eq!(rt;
            number(RelationMachine::new().make(text.as_slice())),
            by_relation
        );
    }
    Ok(())
}

fn count(told: &Option<Told>) -> Option<usize> {
    match told {
        Some(
            Told {
                answer: Answer::Matches(n),
                ..
            },
        ) => Some(*n),
        _ => None,
    }
}

/// A machine of no queries marks nothing, a refused text leaves the machine as it was, and an accepted one takes its place.
#[test]
fn made_again(rt: HostRuntime) -> Result<(), Fail> {
    let file = b"<day><tour><stop/></tour><stop></stop></day>";
    let texts: [(&[u8], usize); 6] = [
        (b"", 0),
        (b"//stop", 2),
        (b"/", 2),
        (b"//a/*/*/*/*/*", 2),
        (b"/day", 1),
        (b"//*\n//day", 5),
    ];
    let mut m = TableMachine::new();
    for (text, matches) in texts {
        let _ = m.make(text);
        let mut steps = from_left(rt.alloc(), &[file.len()])?;
        let told = tell(rt.alloc(), &m, file, steps.as_mut_slice(), 0)?;
        assert_eq!(rt; count(&told), Some(matches));
    }
    Ok(())
}
