use session::print_of;
use std::alloc::Global;
use std::process::Abort;
use std::test::Fail;

fn prints(rt: &impl Abort, heap: Global, input: &[u8], listing: &str) -> Result<(), Fail> {
    match print_of(heap, input) {
        Ok(text) => {
            assert_eq!(rt; text.as_str(), listing);
            Ok(())
        },
        Err(_) => Err(Fail::new("no memory")),
    }
}

#[test]
fn inputs(rt: HostRuntime) -> Result<(), Fail> {
    let cases: [(&[u8], &str); 14] = [
        (
            b"13\n/day/stop\n//stop\n/day//tour/*\n\n<day><tour><stop/></tour><stop></stop></day>\n",
            "match 11 1\nmatch 11 2\nmatch 25 0\nmatch 25 1\nend 4\n",
        ),
        (b"\n//a\n\n<a><a/></a>", "match 0 0\nmatch 3 0\nend 2\n"),
        (
            b"1 2 3 4 5\n//a\n\n<a><a/></a>",
            "match 0 0\nmatch 3 0\nend 2\n",
        ),
        (b"0 11\n//a\n\n<a><a/></a>", "match 0 0\nmatch 3 0\nend 2\n"),
        (b"\n/a\n", "end 0\n"),
        (b"2\n/a\n\n<a><b></a>", "fault 102 6\n"),
        (b"\n/a\n\n</a><", "fault 103 0\n"),
        (b"\n/a\n\n<a>", "fault 104 0\n"),
        (b"3\n/a\n\n<a 1>", "fault 101 0\n"),
        (b"2 1\n/a\n\n<a/>", "refused 9\n"),
        (b"9\n/a\n\n<a/>", "refused 9\n"),
        (b"\n\n<a/>", "refused 2\n"),
        (b"\na\n\n<a/>", "refused 2\n"),
        (
            b"\n//a/*/*/*/*/*\n\n<a><b><c><d><e><f/></e></d></c></b></a>",
            "match 15 0\nend 1\n",
        ),
    ];
    for (input, listing) in cases {
        prints(&rt, rt.alloc(), input, listing)?;
    }
    Ok(())
}
