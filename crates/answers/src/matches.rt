//! What a query found.
ghost use Rattle.std.specs.Prelude.{Some, ◌∷◌, ◌++◌, codes, decimal};

use std::fmt;

/// An element that meets a query: its mark's place, and the query's number.
#[derive(Clone, Copy, Debug, PartialEq, Eq)]
pub struct Match {
    pub place: u32,
    pub query: u8,
}

impl fmt::Display for Match {
    ghost output = { λ m. Some (codes "match " ++ (decimal m.place ++ (32 ∷ decimal m.query))) };

    fn fmt<W: fmt::Write>(&self, f: &mut fmt::Formatter<W>) -> fmt::Result {
        let Match { place, query } = *self;
        write!(f, "match {place} {query}")
    }
}
