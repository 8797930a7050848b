//! The cases as they stand on standard input.
use std::str::from_utf8;

/// A query text and a document.
#[derive(Clone, Copy)]
pub struct Case<'a> {
    pub text: &'a [u8],
    pub file: &'a [u8],
}

/// The first `count` bytes, and what stands after the one that follows them.
fn split_after(bytes: &[u8], count: usize) -> Option<(&[u8], &[u8])> {
    let (part, tail) = bytes.split_at_checked(count)?;
    let (_, rest) = tail.split_first()?;
    Some((part, rest))
}

/// The first line, and what stands after it.
fn first_line(bytes: &[u8]) -> Option<(&[u8], &[u8])> {
    let end = bytes.iter().position(|b| *b == b'\n')?;
    split_after(bytes, end)
}

fn number(digits: &str) -> Option<usize> {
    digits.parse::<usize>().ok()
}

/// The case that stands first, and what stands after it.
pub fn next_case(bytes: &[u8]) -> Option<(Case<'_>, &[u8])> {
    let (line, rest) = first_line(bytes)?;
    let (query_bytes, file_bytes) = from_utf8(line).ok()?.split_once(' ')?;
    let (text, rest) = split_after(rest, number(query_bytes)?)?;
    let (file, rest) = split_after(rest, number(file_bytes)?)?;
    Some((Case { text, file }, rest))
}
