/// Whether a path has an odd number of names, and whether its names have an odd number of bytes.
#[derive(Clone, Copy)]
pub struct Parity {
    pub names: bool,
    pub bytes: bool,
}

/// Marks query 0 on a path of an even number of names, and query 1 where the names have an even number of bytes together.
#[derive(Clone, Copy)]
pub struct ParityMachine {}
