//! Reads a text of queries, a byte at a time.
ghost use Rattle.std.specs.Prelude.{◌≡◌};
ghost use Rattle.machine.specs.Reading.{turn, closes};

/// Where in a query the reader stands. `true` says that the name which it is inside belongs to a step `//`.
#[derive(Clone, Copy)]
pub enum State {
    /// A line begins.
    Line,
    Slash,
    Deep,
    Inside(bool),
    Star,
    Bad,
}

/// What a byte came to: the end of a step, or not; `true` for `//`.
#[derive(Clone, Copy)]
pub enum Turn {
    On,
    Starred(bool),
    Named(bool),
}

#[derive(Clone, Copy)]
pub struct Reader {
    pub state: State,
}

impl Reader {
    pub fn new() -> Reader
        ensures { result.state ≡ State.Line }
    {
        Reader { state: State::Line }
    }

    pub fn step(&mut self, b: u8) -> Turn
        ensures { (self.new.state, result) ≡ turn self.old.state b }
    {
        match (self.state, b) {
            (State::Line | State::Star, b'/') => self.state = State::Slash,
            (State::Slash, b'/') => self.state = State::Deep,
            (State::Slash, b'a'..=b'z' | b'A'..=b'Z' | b'_' | b':') => {
                self.state = State::Inside(false);
            }
            (State::Deep, b'a'..=b'z' | b'A'..=b'Z' | b'_' | b':') => {
                self.state = State::Inside(true);
            }
            (State::Slash, b'*') => {
                self.state = State::Star;
                return Turn::Starred(false);
            }
            (State::Deep, b'*') => {
                self.state = State::Star;
                return Turn::Starred(true);
            }
            (
                State::Inside(_),
                b'a'..=b'z' | b'A'..=b'Z' | b'_' | b':' | b'0'..=b'9' | b'-' | b'.',
            ) => {}
            (State::Inside(deep), b'/') => {
                self.state = State::Slash;
                return Turn::Named(deep);
            }
            (State::Inside(deep), b'\n') => {
                self.state = State::Line;
                return Turn::Named(deep);
            }
            (State::Star, b'\n') => self.state = State::Line,
            _ => self.state = State::Bad,
        }
        Turn::On
    }

    /// Whether a line begins here: once a byte has been read, that it ended a line.
    pub fn at_line(&self) -> bool
        ensures { result ≡ closes self.now.state }
    {
        matches!(self.state, State::Line)
    }
}
