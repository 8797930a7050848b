//! Reads one tag.
ghost use Rattle.std.specs.Prelude.{◌≡◌, ℕ, ◌<◌, ◌≤◌, true, false, length, IfErr, ◌==◌, slice_index};
ghost use Rattle.tags.specs.Bytes.{name_byte, in_value};
ghost use Rattle.tags.specs.Steps.{next, in_name, cause_at_end, Stays};
ghost use Rattle.tags.specs.Reads.{read_tag, outcome, shown, tag_at};

use crate::part::part;
use crate::tag::{Cause, Tag, TagFault, TagKind};

/// Where in a tag the reader stands.
#[derive(Clone, Copy)]
pub enum State {
    Before,
    Opened,
    Name,
    Gap,
    Attribute,
    AttributeGap,
    Equals,
    InDouble,
    InSingle,
    AfterValue,
    Slashed,
    EndOpened,
    EndName,
    EndGap,
}

/// What a byte came to.
#[derive(Clone, Copy)]
pub enum Step {
    On,
    Done(TagKind),
    Bad(Cause),
}

/// Why reading stopped, and at which byte of the stretch.
#[derive(Clone, Copy)]
pub struct Stop {
    pub cause: Cause,
    pub at: usize,
}

#[derive(Clone, Copy)]
struct Reader {
    state: State,
}

impl Reader {
    fn new() -> Reader
        ensures { result.state ≡ State.Before }
    {
        Reader {
            state: State::Before,
        }
    }

    fn step(&mut self, b: u8) -> Step
        ensures { (self.new.state, result) ≡ next self.old.state b }
    {
        match (self.state, b) {
            (State::Before, b'<') => self.state = State::Opened,
            (State::Opened, b'a'..=b'z' | b'A'..=b'Z' | b'_' | b':') => self.state = State::Name,
            (State::Opened, b'/') => self.state = State::EndOpened,
            (State::Name, b'a'..=b'z' | b'A'..=b'Z' | b'_' | b':' | b'0'..=b'9' | b'-' | b'.') => {}
            (State::Name | State::Gap | State::AfterValue, b' ' | b'\t' | b'\n' | b'\r') =>
                self.state = State::Gap,
            (State::Name | State::Gap | State::AfterValue, b'/') => self.state = State::Slashed,
            (State::Name | State::Gap | State::AfterValue, b'>') => return Step::Done(
                TagKind::Start,
            ),
            (State::Gap, b'a'..=b'z' | b'A'..=b'Z' | b'_' | b':') => self.state = State::Attribute,
            (
                State::Attribute,
                b'a'..=b'z' | b'A'..=b'Z' | b'_' | b':' | b'0'..=b'9' | b'-' | b'.',
            ) => {}
            (State::Attribute | State::AttributeGap, b' ' | b'\t' | b'\n' | b'\r') => self.state =
                State::AttributeGap,
            (State::Attribute | State::AttributeGap, b'=') => self.state = State::Equals,
            (State::Equals, b' ' | b'\t' | b'\n' | b'\r') => {}
            (State::Equals, b'"') => self.state = State::InDouble,
            (State::Equals, b'\'') => self.state = State::InSingle,
            (State::InDouble, b'"') => self.state = State::AfterValue,
            (State::InSingle, b'\'') => self.state = State::AfterValue,
            (State::InDouble | State::InSingle, b'<') => return Step::Bad(Cause::NoQuote),
            (State::InDouble | State::InSingle, _) => {}
            (State::Slashed, b'>') => return Step::Done(TagKind::Empty),
            (State::EndOpened, b'a'..=b'z' | b'A'..=b'Z' | b'_' | b':') => self.state =
                State::EndName,
            (State::EndName, b'a'..=b'z' | b'A'..=b'Z' | b'_' | b':' | b'0'..=b'9' | b'-' | b'.') =>
                {}
            (State::EndName | State::EndGap, b' ' | b'\t' | b'\n' | b'\r') => self.state =
                State::EndGap,
            (State::EndName | State::EndGap, b'>') => return Step::Done(TagKind::End),
            (State::Opened | State::EndOpened, _) => return Step::Bad(Cause::NoName),
            (State::Attribute | State::AttributeGap, _) => return Step::Bad(Cause::NoEquals),
            (State::Equals, _) => return Step::Bad(Cause::NoQuote),
            _ => return Step::Bad(Cause::Misplaced),
        }
        Step::On
    }

    /// Whether the byte just read belongs to the tag's name.
    fn in_name(&self) -> bool
        ensures { result ≡ in_name self.now.state }
    {
        matches!(self.state, State::Name | State::EndName)
    }

    /// What is wrong where the stretch ends here.
    fn at_end(&self) -> Cause
        ensures { result ≡ cause_at_end self.now.state }
    {
        match self.state {
            State::Opened | State::EndOpened => Cause::NoName,
            State::Attribute | State::AttributeGap => Cause::NoEquals,
            State::Equals | State::InDouble | State::InSingle => Cause::NoQuote,
            _ => Cause::Misplaced,
        }
    }
}

fn is_name_byte(b: u8) -> bool
    ensures { result ≡ name_byte b }
{
    matches!(b, b'a'..=b'z' | b'A'..=b'Z' | b'_' | b':' | b'0'..=b'9' | b'-' | b'.')
}

/// Where the bytes of a name end that go on from `from`. A loop over places: through an iterator, files of short tags took a fifth longer.
fn name_end(stretch: &[u8], from: usize) -> usize
    requires { from ≤ length stretch.now }
    ensures within { (from ≤ result) × (result ≤ length stretch.now) }
    ensures all { (k : ℕ) → from ≤ k → k < result → name_byte (slice_index stretch.now k) ≡ true }
    ensures stops { result < length stretch.now → name_byte (slice_index stretch.now result) ≡ false }
{
    for i in from..stretch.len() {
        if !is_name_byte(stretch[i]) {
            return i;
        }
    }
    stretch.len()
}

/// Where the bytes of a value in these quotes end that go on from `from`. A loop over places, as for names.
fn value_end(stretch: &[u8], from: usize, quote: u8) -> usize
    requires { from ≤ length stretch.now }
    ensures within { (from ≤ result) × (result ≤ length stretch.now) }
    ensures all { (k : ℕ) → from ≤ k → k < result → in_value quote (slice_index stretch.now k) ≡ true }
    ensures stops { result < length stretch.now → in_value quote (slice_index stretch.now result) ≡ false }
{
    for i in from..stretch.len() {
        if stretch[i] == quote || stretch[i] == b'<' {
            return i;
        }
    }
    stretch.len()
}

impl Reader {
    /// How far the bytes from `from` on leave the reader where it is: in a name, or in a value.
    fn stays_to(&self, stretch: &[u8], from: usize) -> usize
        requires { from ≤ length stretch.now }
        ensures within { (from ≤ result) × (result ≤ length stretch.now) }
        ensures all { Stays self.now.state stretch.now from result }
    {
        match self.state {
            State::Name | State::Attribute | State::EndName => name_end(stretch, from),
            State::InDouble => value_end(stretch, from, b'"'),
            State::InSingle => value_end(stretch, from, b'\''),
            _ => from,
        }
    }
}

fn read_stretch<'a>(stretch: &'a [u8]) -> Result<Tag<'a>, Stop>
    ensures read { outcome result ≡ read_tag stretch.now }
    ensures within { IfErr result (λ e. e.at ≤ length stretch.now) }
{
    let mut reader = Reader::new();
    let mut from = 0;
    let mut end = 0;
    let mut i = 0;
    while i < stretch.len() {
        match reader.step(stretch[i]) {
            Step::On => {
                let next = reader.stays_to(stretch, i + 1);
                if reader.in_name() {
                    if end == 0 {
                        from = i;
                    }
                    end = next;
                }
                i = next;
            }
            Step::Done(kind) => return Ok(Tag::new(kind, &stretch[from..end])),
            Step::Bad(cause) => return Err(Stop { cause, at: i }),
        }
    }
    Err(Stop {
        cause: reader.at_end(),
        at: stretch.len(),
    })
}

/// The tag of the stretch from `mark` up to but without `to`, or what is wrong with it.
/// Where the file ends before `to`, so does the stretch.
pub fn read_tag<'a>(file: &'a [u8], mark: usize, to: usize) -> Result<Tag<'a>, TagFault>
    ensures { shown result ≡ tag_at file.now mark to }
{
    read_stretch(part(file, mark, to)).map_err(|stop| TagFault {
        mark,
        cause: stop.cause,
        byte: mark + stop.at,
    })
}
