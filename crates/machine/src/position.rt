/// A position of a query, by the step that follows it. `true` says that this step is `//`;
/// a name goes by its column: one more than its place among the names that the queries use.
#[derive(Clone, Copy, Debug, PartialEq, Eq)]
pub enum Position {
    End,
    Any(bool),
    Name(bool, u8),
}
