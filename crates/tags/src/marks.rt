//! Marks: the bytes `<`, at which stretches begin.
ghost use Rattle.std.specs.Prelude.{◌≡◌, ◌≤◌, length};
ghost use Rattle.tags.specs.Marks.{scanned, first_or, last_or, marks_of, IsFirstMark, IsLastMark, mark_count};

use crate::part::part;
use std::simd::prelude::*;

/// How many bytes are counted at a time: few enough for a count of one byte.
const BLOCK: usize = 240;

/// The first mark of 16 bytes. The bytes are looked at together.
fn mark_in_block(block: &[u8; 16]) -> Option<usize>
    ensures { IsFirstMark block.now result }
{
    let marks = u8x16::from_array(*block)
        .simd_eq(u8x16::splat(b'<'))
        .to_bitmask();
    if marks == 0 {
        None
    } else {
        Some(marks.trailing_zeros() as usize)
    }
}

/// The first mark of some bytes: of blocks of 16, and then, one by one, of the few that are left.
fn first_mark(bytes: &[u8]) -> Option<usize>
    ensures { IsFirstMark bytes.now result }
{
    let (blocks, rest) = bytes.as_chunks::<16>();
    for (i, block) in blocks.iter().enumerate() {
        if let Some(k) = mark_in_block(block) {
            return Some(16 * i + k);
        }
    }
    rest.iter()
        .position(|b| *b == b'<')
        .map(|k| 16 * blocks.len() + k)
}

/// The first mark of the file's bytes from `from` up to but without `to`, or `to` where there is none.
pub fn next_mark(file: &[u8], from: usize, to: usize) -> usize
    ensures { result ≡ first_or to (marks_of file.now from to) }
{
    first_mark(part(file, from, to)).map_or(to, |k| from + k)
}

/// The last mark of some bytes.
fn last_mark(bytes: &[u8]) -> Option<usize>
    ensures { IsLastMark bytes.now result }
{
    bytes.iter().rposition(|b| *b == b'<')
}

/// How many of at most 255 bytes are marks. A count of one byte lets many be counted together.
fn count_marks(bytes: &[u8]) -> u8
    requires { length bytes.now ≤ 255 }
    ensures { result ≡ mark_count bytes.now }
{
    let mut count = 0;
    for b in bytes {
        if *b == b'<' {
            count += 1;
        }
    }
    count
}

/// The first mark, the last mark and the number of marks of the file's bytes from `from` up to but without `to`.
/// With no mark, both places are `to`. In one pass the marks of each block are counted, from the first mark on;
/// only the last block that has a mark is searched again.
pub fn scan(file: &[u8], from: usize, to: usize) -> (usize, usize, usize)
    ensures { result ≡ scanned file.now from to }
{
    let first = next_mark(file, from, to);
    let mut count = 0;
    let mut next = first;
    let mut low = first;
    let mut last: &[u8] = &[];
    for block in part(file, first, to).chunks(BLOCK) {
        let at = next;
        next += block.len();
        let marks = count_marks(block);
        if marks > 0 {
            count += marks as usize;
            low = at;
            last = block;
        }
    }
    (first, last_mark(last).map_or(to, |k| low + k), count)
}
