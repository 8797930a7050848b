//! The whole input.
ghost use Rattle.std.specs.Prelude.{◌≡◌, ◌+◌, ◌≤◌, length, drop};
ghost use Rattle.request.specs.Lines.{first_line, lines_ahead, after_blank};
ghost use Rattle.request.specs.Asked.{request, Wants};
ghost use Rattle.request.specs.Given.{Gives};

use crate::cuts::{LIMIT, cuts_of};
use crate::lines::{blank_line, bytes_before};
use crate::refusal::InputRefusal;
use crate::stop::Stop;
use std::alloc::Global;

/// What an input asks for. The queries are its query lines, parted by byte 10.
#[derive(Drop)]
pub struct Request<'a> {
    pub cuts: Vec<usize>,
    pub queries: &'a [u8],
    pub file: &'a [u8],
}

/// The bytes after the one at `to`.
fn past<'a>(bytes: &'a [u8], to: usize) -> &'a [u8]
    ensures { result.now ≡ drop (to + 1) bytes.now }
{
    match bytes.get(to..) {
        Some([_, rest @ ..]) => rest,
        _ => &[],
    }
}

/// The lines ahead of the empty one, parted by byte 10, and every byte after it.
fn parts<'a>(bytes: &'a [u8]) -> (&'a [u8], &'a [u8])
    ensures queries { result.0.now ≡ lines_ahead bytes.now }
    ensures file { result.1.now ≡ after_blank bytes.now }
{
    let blank = blank_line(bytes);
    let lines = &bytes[..blank];
    let queries = lines.strip_suffix(b"\n").unwrap_or(lines);
    (queries, past(bytes, blank))
}

/// Reads an input: a line of cut places, query lines, an empty line, and the file.
pub fn read_request<'a>(heap: Global, input: &'a [u8]) -> Result<Request<'a>, Stop<InputRefusal>>
    ensures asks { Gives result (request input.now) }
    ensures memory { Wants result (first_line input.now) }
{
    let to = bytes_before(input, b'\n');
    let cuts = cuts_of(heap, &input[..to])?;
    let (queries, file) = parts(past(input, to));
    if file.len() > LIMIT {
        return Err(InputRefusal::LongFile.into());
    }
    Ok(Request {
        cuts,
        queries,
        file,
    })
}
