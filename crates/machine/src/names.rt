ghost use Rattle.std.specs.Prelude.{◌≡◌, ◌≤◌, length};
ghost use Rattle.machine.specs.Limits.{most_names};

use crate::name::{LONGEST_NAME, Name};

/// How many different names queries may use.
pub const MOST_NAMES: usize = 15;

/// The names that queries use, in the order of first use.
#[derive(Clone, Copy)]
pub struct Names {
    list: [Name; MOST_NAMES],
    pub(crate) count: usize,
    ghost size: { length list ≡ most_names },
    ghost within: { count ≤ most_names },
}

impl Names {
    ghost use Rattle.std.specs.Prelude.{◌+◌, ◌<◌, [], ◌∷◌, ◌++◌, map, MatchOption};
    ghost use Rattle.machine.specs.Queries.{column, noted};
    ghost use Rattle.machine.specs.Limits.{longest_name, NamesFit};
    ghost use Rattle.machine.specs.Views.{bytes_of, names_of};

    pub fn none() -> Names
        ensures { names_of result ≡ [] }
    {
        Names {
            list: [Name::none(); MOST_NAMES],
            count: 0,
        }
    }

    /// The names in use.
    fn as_slice(&self) -> &[Name]
        ensures { map bytes_of result.now ≡ names_of self.now }
    {
        &self.list[..self.count]
    }

    /// One more than the name's place, or 0 for an unlisted name.
    pub fn column(&self, name: &[u8]) -> usize
        ensures { result ≡ column (names_of self.now) name.now }
    {
        self.as_slice()
            .iter()
            .position(|n| n.is(name))
            .map_or(0, |i| i + 1)
    }

    /// The name's column, once it stands among the names; nothing where it cannot.
    pub(crate) fn note(&mut self, name: &[u8]) -> Option<usize>
        ensures { MatchOption result ((self.new ≡ self.old) × (NamesFit (noted (names_of self.old) name.now) → ⊥)) (λ k. (names_of self.new ≡ noted (names_of self.old) name.now) × (k ≡ column (names_of self.new) name.now) × (k ≤ most_names)) }
    {
        if name.len() > LONGEST_NAME {
            return None;
        }
        let column = self.column(name);
        if column > 0 {
            return Some(column);
        }
        if self.count == MOST_NAMES {
            return None;
        }
        self.add(name);
        Some(self.count)
    }

    /// Puts a name after the others.
    fn add(&mut self, name: &[u8])
        requires room { self.old.count < most_names }
        requires short { length name.now ≤ longest_name }
        ensures names { names_of self.new ≡ names_of self.old ++ name.now ∷ [] }
        ensures count { self.new.count ≡ self.old.count + 1 }
    {
        self.list[self.count] = Name::new(name);
        self.count += 1;
    }
}
