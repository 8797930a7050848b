ghost use Rattle.std.specs.Prelude.{◌≡◌, ◌≤◌, length};
ghost use Rattle.machine.specs.Limits.{most_lines, most_positions};
ghost use Rattle.machine.specs.Reading.{parts};

use crate::names::Names;
use crate::position::Position;
use crate::reader::{Reader, Turn};
use crate::refusal::Refusal;

/// How many lines a text of queries may have.
pub const MOST_LINES: usize = 8;

/// How many positions the queries may have.
pub const MOST_POSITIONS: usize = 32;

/// The positions of queries as far as these have been read, and the last position of each query that is complete.
#[derive(Clone, Copy)]
pub struct Plan {
    pub(crate) list: [Position; MOST_POSITIONS],
    pub(crate) count: usize,
    pub(crate) names: Names,
    pub(crate) lasts: [usize; MOST_LINES],
    pub(crate) lines: usize,
    ghost size: { length list ≡ most_positions },
    ghost within: { count ≤ most_positions },
    ghost room: { length lasts ≡ most_lines },
    ghost few: { lines ≤ most_lines },
}

fn parts_names(b: u8) -> bool
    ensures { result ≡ parts b }
{
    matches!(b, b'/' | b'\n')
}

impl Plan {
    ghost use Rattle.std.specs.Prelude.{◌+◌, ◌<◌, [], MatchResult};
    ghost use Rattle.machine.specs.Limits.{NamesFit};
    ghost use Rattle.machine.specs.Reading.{turn, reads_as};
    ghost use Rattle.machine.specs.Sketches.{drawing, sketch, pushed, ended, taken, counted, line_count, drawn, names_in, size_in, sketch_of};
    ghost use Rattle.machine.specs.Views.{places_of, lasts_of};

    pub fn new() -> Plan
        ensures { sketch result ≡ drawing [] [] [] }
    {
        Plan {
            list: [Position::End; MOST_POSITIONS],
            count: 0,
            names: Names::none(),
            lasts: [0; MOST_LINES],
            lines: 0,
        }
    }

    pub(crate) fn positions(&self) -> &[Position]
        ensures { result.now ≡ places_of self.now }
    {
        &self.list[..self.count]
    }

    pub(crate) fn lasts(&self) -> &[usize]
        ensures { result.now ≡ lasts_of self.now }
    {
        &self.lasts[..self.lines]
    }

    fn push(&mut self, p: Position)
        requires { self.old.count < most_positions }
        ensures drawn { sketch self.new ≡ pushed p (sketch self.old) }
        ensures count { self.new.count ≡ self.old.count + 1 }
    {
        self.list[self.count] = p;
        self.count += 1;
    }

    fn end_line(&mut self)
        requires room { self.old.count < most_positions }
        requires lines { self.old.lines < most_lines }
        ensures { sketch self.new ≡ ended (sketch self.old) }
    {
        self.lasts[self.lines] = self.count;
        self.lines += 1;
        self.push(Position::End);
    }

    /// A step that has ended, if one has; `name` is what stands before the byte that ended it.
    fn take(&mut self, outcome: Turn, name: &[u8]) -> Result<(), Refusal>
        requires { self.old.count + counted outcome ≤ most_positions }
        ensures { MatchResult result (λ _. sketch self.new ≡ taken outcome name.now (sketch self.old)) (λ e. (e ≡ Refusal.NamesOverLimit) × (NamesFit (taken outcome name.now (sketch self.old)).names → ⊥)) }
    {
        match outcome {
            Turn::On => {}
            Turn::Starred(deep) => self.push(Position::Any(deep)),
            Turn::Named(deep) => {
                let column = self.names.note(name).ok_or(Refusal::NamesOverLimit)?;
                self.push(Position::Name(deep, column as u8));
            }
        }
        Ok(())
    }

    /// Takes one more byte; `name` is what stands between the last `/` or line's end and it.
    fn byte(&mut self, reader: &mut Reader, b: u8, name: &[u8]) -> Result<(), Refusal>
        requires room { self.old.count + counted (turn reader.old.state b).1 + line_count (turn reader.old.state b).0 ≤ most_positions }
        requires lines { self.old.lines + line_count (turn reader.old.state b).0 ≤ most_lines }
        ensures state { reader.new.state ≡ (turn reader.old.state b).0 }
        ensures sketch { MatchResult result (λ _. sketch self.new ≡ drawn (turn reader.old.state b).0 (turn reader.old.state b).1 name.now (sketch self.old)) (λ e. (e ≡ Refusal.NamesOverLimit) × (NamesFit (taken (turn reader.old.state b).1 name.now (sketch self.old)).names → ⊥)) }
    {
        self.take(reader.step(b), name)?;
        if reader.at_line() {
            self.end_line();
        }
        Ok(())
    }

    /// Reads the whole text.
    pub fn read(&mut self, text: &[u8]) -> Result<(), Refusal>
        requires none { sketch self.old ≡ drawing [] [] [] }
        requires positions { size_in (reads_as text.now) ≤ most_positions }
        requires lines { length (reads_as text.now).lines ≤ most_lines }
        ensures { MatchResult result (λ _. sketch self.new ≡ sketch_of (reads_as text.now)) (λ e. (e ≡ Refusal.NamesOverLimit) × (NamesFit (names_in (reads_as text.now)) → ⊥)) }
    {
        let mut reader = Reader::new();
        let mut from = 0;
        for (i, b) in text.iter().enumerate() {
            self.byte(&mut reader, *b, &text[from..i])?;
            if parts_names(*b) {
                from = i + 1;
            }
        }
        self.byte(&mut reader, b'\n', &text[from..])
    }
}
