use std::process::Abort;
use std::test::Fail;
use tags::{Cause, TagFault, TagKind, next_mark, read_tag, scan};

// The stretch is all of `bytes`, and is read as a tag of that kind and name.
fn good(rt: &impl Abort, bytes: &[u8], kind: TagKind, name: &[u8]) -> Result<(), Fail> {
    match read_tag(bytes, 0, bytes.len()) {
        Ok(tag) => {
            assert_eq!(rt; tag.kind(), kind);
            assert_eq!(rt; tag.name(), name);
            Ok(())
        }
        Err(_) => Err(Fail::new("bad tag")),
    }
}

// The stretch is all of `bytes`, and is bad at that byte.
fn bad(rt: &impl Abort, bytes: &[u8], number: u8, byte: usize) -> Result<(), Fail> {
    match read_tag(bytes, 0, bytes.len()) {
        Ok(_) => Err(Fail::new("good tag")),
        Err(fault) => {
            assert_eq!(rt; fault.mark, 0);
            assert_eq!(rt; fault.cause.number(), number);
            assert_eq!(rt; fault.byte, byte);
            Ok(())
        }
    }
}

#[test]
fn good_tags(rt: HostRuntime) -> Result<(), Fail> {
    let cases: [(&[u8], TagKind, &[u8]); 7] = [
        (b"<a>", TagKind::Start, b"a"),
        (
            b"<_a:b-c.9 x='1' \t\r\ny = \"it's > fine\" >text",
            TagKind::Start,
            b"_a:b-c.9",
        ),
        (b"<a/>", TagKind::Empty, b"a"),
        (b"<a b=''/>", TagKind::Empty, b"a"),
        (b"<a />", TagKind::Empty, b"a"),
        (b"</a>", TagKind::End, b"a"),
        (b"</day\n>", TagKind::End, b"day"),
    ];
    for (bytes, kind, name) in cases {
        good(&rt, bytes, kind, name)?;
    }
    Ok(())
}

#[test]
fn bad_tags(rt: HostRuntime) -> Result<(), Fail> {
    let cases: [(&[u8], u8, usize); 13] = [
        (b"<a b='1'c='2'>", 4, 8),
        (b"<a 1>", 4, 3),
        (b"< a>", 1, 1),
        (b"<a b>", 2, 4),
        (b"<a b=1>", 3, 5),
        (b"<a b='<'>", 3, 6),
        (b"<a b='1", 3, 7),
        (b"<a/ >", 4, 3),
        (b"</a b='1'>", 4, 4),
        (b"</>", 1, 2),
        (b"<a", 4, 2),
        (b"a", 4, 0),
        (b"", 4, 0),
    ];
    for (bytes, number, byte) in cases {
        bad(&rt, bytes, number, byte)?;
    }
    Ok(())
}

#[test]
fn places_in_a_file(rt: HostRuntime) -> Result<(), Fail> {
    let file = b"x<a><b c></a>";
    let stray = TagFault {
        mark: 4,
        cause: Cause::NoEquals,
        byte: 8,
    };
    let none = TagFault {
        mark: 9,
        cause: Cause::Misplaced,
        byte: 9,
    };
    let cases = [(4usize, 9usize, stray), (4, 100, stray), (9, 4, none)];
    for (mark, to, expected) in cases {
        match read_tag(file, mark, to) {
            Ok(_) => return Err(Fail::new("good tag")),
            Err(fault) => assert_eq!(rt; fault, expected),
        }
    }
    Ok(())
}

#[test]
fn marks_of_parts(rt: HostRuntime) {
    let file = b"<a>b<";
    let cases = [
        (0usize, 5usize, (0usize, 4usize, 2usize)),
        (1, 5, (4, 4, 1)),
        (1, 4, (4, 4, 0)),
        (2, 2, (2, 2, 0)),
        (4, 2, (2, 2, 0)),
        (1, 9, (4, 4, 1)),
        (9, 9, (9, 9, 0)),
    ];
    for (from, to, expected) in cases {
        let found = scan(file, from, to);
        assert_eq!(rt; found, expected);
        assert_eq!(rt; next_mark(file, from, to), found.0);
    }
}
