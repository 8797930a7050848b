//! The first line of the input: cut places.
ghost use Rattle.std.specs.Prelude.{◌≡◌};
ghost use Rattle.request.specs.Places.{place_of, place_from, cuts_of};
ghost use Rattle.request.specs.Asked.{LineSays, Wants};

use crate::refusal::InputRefusal;
use crate::stop::Stop;
use std::alloc::Global;

/// The greatest place, and the greatest length of a file.
pub const LIMIT: usize = 4096;

/// The place that a word writes: digits, and at most 4,096.
pub fn place_of(word: &[u8]) -> Option<usize>
    ensures { result ≡ place_of word.now }
{
    if word.is_empty() {
        return None;
    }
    let mut place = 0;
    for b in word {
        if !b.is_ascii_digit() {
            return None;
        }
        place = place * 10 + (*b - b'0') as usize;
        if place > LIMIT {
            return None;
        }
    }
    Some(place)
}

/// The place that a word writes, where it is no less than `least`.
fn place_from(word: &[u8], least: usize) -> Option<usize>
    ensures { result ≡ place_from least word.now }
{
    place_of(word).filter(|place| *place >= least)
}

/// The cut places of a line of rising places, parted by single spaces.
pub fn cuts_of(heap: Global, line: &[u8]) -> Result<Vec<usize>, Stop<InputRefusal>>
    ensures cuts { LineSays result (cuts_of line.now) }
    ensures memory { Wants result line.now }
{
    let mut cuts = Vec::new(heap);
    if line.is_empty() {
        return Ok(cuts);
    }
    let mut least = 0;
    for word in line.split(|b| *b == b' ') {
        let place = place_from(word, least).ok_or(InputRefusal::BadCuts)?;
        cuts.push(place)?;
        least = place + 1;
    }
    Ok(cuts)
}
