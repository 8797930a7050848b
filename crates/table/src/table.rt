use crate::states::States;
use machine::Names;
use positions::Lines;

/// The queries' names, the states with their table, and where each query ends.
#[derive(Clone, Copy)]
pub struct TableMachine {
    pub names: Names,
    pub states: States,
    pub lines: Lines,
}
