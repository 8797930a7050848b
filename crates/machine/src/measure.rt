//! How many lines and positions a text of queries has.
ghost use Rattle.std.specs.Prelude.{◌≡◌, ◌+◌, ◌^◌, ◌<◌, ◌≤◌, length};
ghost use Rattle.machine.specs.Limits.{most_bytes};
ghost use Rattle.machine.specs.Reading.{turn, closes, reads_as};
ghost use Rattle.machine.specs.Sketches.{counted, line_count, size_in};

use crate::reader::{Reader, Turn};

/// What has been read so far.
#[derive(Clone, Copy)]
pub struct Measure {
    pub reader: Reader,
    pub lines: usize,
    pub positions: usize,
}

impl Measure {
    fn take(&mut self, b: u8)
        requires lines { self.old.lines + 1 < 2 ^ 64 }
        requires positions { self.old.positions + 2 < 2 ^ 64 }
        ensures state { self.new.reader.state ≡ (turn self.old.reader.state b).0 }
        ensures lines { self.new.lines ≡ self.old.lines + line_count (turn self.old.reader.state b).0 }
        ensures positions { self.new.positions ≡ self.old.positions + counted (turn self.old.reader.state b).1 + line_count (turn self.old.reader.state b).0 }
    {
        match self.reader.step(b) {
            Turn::On => {}
            Turn::Starred(_) | Turn::Named(_) => self.positions += 1,
        }
        if self.reader.at_line() {
            self.lines += 1;
            self.positions += 1;
        }
    }

    /// The measure of a whole text; each line has an end, the last one too.
    pub fn of(text: &[u8]) -> Measure
        requires { length text.now ≤ most_bytes }
        ensures state { result.reader.state ≡ (reads_as text.now).state }
        ensures lines { result.lines ≡ length (reads_as text.now).lines }
        ensures positions { result.positions ≡ size_in (reads_as text.now) }
    {
        let mut measure = Measure {
            reader: Reader::new(),
            lines: 0,
            positions: 0,
        };
        for b in text {
            measure.take(*b);
        }
        measure.take(b'\n');
        measure
    }

    /// Whether the text ends as a line does.
    pub fn is_whole(&self) -> bool
        ensures { result ≡ closes self.now.reader.state }
    {
        self.reader.at_line()
    }
}
