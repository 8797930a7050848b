use machine::Names;
use positions::{Lines, Moves};

/// The queries' names, how their positions move on a name, and where each query begins and ends.
#[derive(Clone, Copy)]
pub struct RelationMachine {
    pub names: Names,
    pub moves: Moves,
    pub lines: Lines,
}
