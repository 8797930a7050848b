use machine::{Position, Queries};
use std::array;
use std::test::Fail;

/// The number of the refusal, or 0.
fn refused(text: &[u8]) -> u8 {
    Queries::read(text).map_or_else(|why| why.number(), |_| 0)
}

#[test]
fn length(rt: HostRuntime) -> Result<(), Fail> {
    let text: [u8; 513] = array::from_fn(|i| if i % 25 == 0 { b'/' } else { b'a' });
    assert_eq!(rt; refused(&text[0..512]), 0);
    assert_eq!(rt; refused(&text[0..513]), 1);
    Ok(())
}

/// Texts, each with the number of its refusal.
static TEXTS: [(&[u8], u8); 21] = [
    (b"/a1.-:_", 0),
    (b"/a\n//b\n/*\n//*\n/a\n/a\n/a\n/a", 0),
    (b"/a\n//b\n/*\n//*\n/a\n/a\n/a\n/a\n/a", 2),
    (b"", 2),
    (b"\n", 2),
    (b"/a\n", 2),
    (b"/a\n\n/b", 2),
    (b"/\xff", 2),
    (b"a", 2),
    (b"/", 2),
    (b"//", 2),
    (b"///a", 2),
    (b"/a//", 2),
    (b"/*a", 2),
    (b"/a*", 2),
    (b"/1", 2),
    (
        b"/*/*/*/*/*/*/*/*/*/*/*/*/*/*/*/*/a/b/c/d/e/f/g/h/i/j/k/l/m/n/o/p",
        3,
    ),
    (b"/a/b/c/d/e/f/g/h/i/j/k/l/m/n/o/a//b", 0),
    (b"/a/b/c/d/e/f/g/h/i/j/k/l/m/n/o/p", 4),
    (b"/abcdefghijklmnopqrstuvwx", 0),
    (b"/abcdefghijklmnopqrstuvwxy", 4),
];

#[test]
fn texts(rt: HostRuntime) {
    for (text, number) in &TEXTS {
        assert_eq!(rt; refused(text), *number);
    }
    assert_eq!(rt; refused(&[b'/'; 513]), 1);
}

#[test]
fn positions(rt: HostRuntime) -> Result<(), Fail> {
    let mut text: [u8; 64] = array::from_fn(|i| if i % 2 == 0 { b'/' } else { b'*' });
    assert_eq!(rt; refused(&text[0..62]), 0);
    assert_eq!(rt; refused(&text[0..64]), 3);
    text[63] = b'/';
    assert_eq!(rt; refused(&text[0..64]), 2);
    Ok(())
}

#[test]
fn look_ups(rt: HostRuntime) -> Result<(), Fail> {
    let Ok(queries) = Queries::read(b"/day//tour/*\n//stop/day") else {
        return Err(Fail::new("refused"));
    };
    assert_eq!(rt; queries.count(), 2);
    assert_eq!(rt; queries.name_count(), 3);
    assert_eq!(rt; queries.column(b"day"), 1);
    assert_eq!(rt; queries.column(b"stop"), 3);
    assert_eq!(rt; queries.column(b"sto"), 0);
    assert_eq!(rt; queries.column(b"stops"), 0);
    assert!(rt; queries.lasts().len() == 2);
    assert_eq!(rt; queries.lasts()[0], 3);
    assert_eq!(rt; queries.lasts()[1], 6);
    Ok(())
}

#[test]
fn steps(rt: HostRuntime) -> Result<(), Fail> {
    let Ok(queries) = Queries::read(b"/day//tour/*\n//stop/day") else {
        return Err(Fail::new("refused"));
    };
    let positions = queries.positions();
    assert!(rt; positions.len() == 7);
    assert_eq!(rt; positions[0], Position::Name(false, 1));
    assert_eq!(rt; positions[1], Position::Name(true, 2));
    assert_eq!(rt; positions[2], Position::Any(false));
    assert_eq!(rt; positions[3], Position::End);
    assert_eq!(rt; positions[4], Position::Name(true, 3));
    assert_eq!(rt; positions[5], Position::Name(false, 1));
    assert_eq!(rt; positions[6], Position::End);
    Ok(())
}
