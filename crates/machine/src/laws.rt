//! The path rule and its decision.
ghost use Rattle.machine.specs.Paths.{PathRule};

/// Whatever the names are, the stepping of position sets tells whether a path meets a query.
pub fn path_rule<N>()
    ensures { PathRule N }
{}
