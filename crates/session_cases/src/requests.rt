use request::cuts::place_of;
use request::lines::{blank_line, bytes_before};
use request::{InputRefusal, Stop, read_request};
use std::alloc::Global;
use std::process::Abort;
use std::test::Fail;

const BAD_CUTS: Stop<InputRefusal> = Stop::Refused(InputRefusal::BadCuts);

// What the input says.
fn says(
    rt: &impl Abort,
    heap: Global,
    input: &[u8],
    cuts: &[usize],
    queries: &[u8],
    file: &[u8],
) -> Result<(), Fail> {
    match read_request(heap, input) {
        Ok(request) => {
            assert_eq!(rt; request.cuts.as_slice(), cuts);
            assert_eq!(rt; request.queries, queries);
            assert_eq!(rt; request.file, file);
            Ok(())
        }
        Err(_) => Err(Fail::new("refused")),
    }
}

fn stops(
    rt: &impl Abort,
    heap: Global,
    input: &[u8],
    stop: Stop<InputRefusal>,
) -> Result<(), Fail> {
    match read_request(heap, input) {
        Ok(_) => Err(Fail::new("not refused")),
        Err(found) => {
            assert_eq!(rt; found, stop);
            Ok(())
        },
    }
}

#[test]
fn inputs(rt: HostRuntime) -> Result<(), Fail> {
    let cases: [(&[u8], &[usize], &[u8], &[u8]); 13] = [
        (b"13\n/a\n//b\n\n<a/>", &[13], b"/a\n//b", b"<a/>"),
        (b"13\n/a\n\n<a/>\n", &[13], b"/a", b"<a/>\n"),
        (b"13\n/a\n", &[13], b"/a", b""),
        (b"13\n/a", &[13], b"/a", b""),
        (b"13\n", &[13], b"", b""),
        (b"13", &[13], b"", b""),
        (b"\n\n<a/>", &[], b"", b"<a/>"),
        (b"\n\n\n<a/>", &[], b"", b"\n<a/>"),
        (b"\n/a\n\n", &[], b"/a", b""),
        (b"\n/a\n\n/b\n\n", &[], b"/a", b"/b\n\n"),
        (b"\n", &[], b"", b""),
        (b"", &[], b"", b""),
        (
            b"0 007 4095 4096\n/a\n\nx",
            &[0, 7, 4095, 4096],
            b"/a",
            b"x",
        ),
    ];
    for (input, cuts, queries, file) in cases {
        says(&rt, rt.alloc(), input, cuts, queries, file)?;
    }
    Ok(())
}

#[test]
fn bad_first_lines(rt: HostRuntime) -> Result<(), Fail> {
    let cases: [&[u8]; 12] = [
        b" \n",
        b" 1\n",
        b"1 \n",
        b"1  2\n",
        b"2 1\n",
        b"1 1\n",
        b"4097\n",
        b"99999999999999999999999\n",
        b"1,2\n",
        b"-1\n",
        b"1\r\n/a\n\n<a/>",
        b"/a\n\n<a/>",
    ];
    for input in cases {
        stops(&rt, rt.alloc(), input, BAD_CUTS)?;
    }
    Ok(())
}

#[test]
fn long_files(rt: HostRuntime) -> Result<(), Fail> {
    let mut input = [b'x'; 4099];
    input[0] = b'\n';
    input[1] = b'\n';
    stops(
        &rt,
        rt.alloc(),
        &input,
        Stop::Refused(InputRefusal::LongFile),
    )?;
    input[0] = b'x';
    stops(&rt, rt.alloc(), &input, BAD_CUTS)?;
    input[0] = b'\n';
    says(&rt, rt.alloc(), &input[0..4098], &[], b"", &input[2..4098])
}

#[test]
fn places(rt: HostRuntime) {
    let cases: [(&[u8], Option<usize>); 5] = [
        (b"", None),
        (b"0", Some(0)),
        (b"4096", Some(4096)),
        (b"4097", None),
        (b"1x", None),
    ];
    for (word, place) in cases {
        assert_eq!(rt; place_of(word), place);
    }
}

// Bytes before the first byte 10, and before the first empty line.
#[test]
fn lines(rt: HostRuntime) {
    let cases: [(&[u8], usize, usize); 5] = [
        (b"", 0, 0),
        (b"\n", 0, 0),
        (b"ab", 2, 2),
        (b"ab\n", 2, 3),
        (b"a\nb\n\nc", 1, 4),
    ];
    for (bytes, first, blank) in cases {
        assert_eq!(rt; bytes_before(bytes, b'\n'), first);
        assert_eq!(rt; blank_line(bytes), blank);
    }
}

#[test]
fn numbers(rt: HostRuntime) {
    assert_eq!(rt; InputRefusal::BadCuts.number(), 9);
    assert_eq!(rt; InputRefusal::LongFile.number(), 6);
}
