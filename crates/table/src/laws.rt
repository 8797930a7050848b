//! What the set construction finds.
ghost use Rattle.table.specs.Arising.{ClosureFinds, NeverBoth};

/// The closure finds the sets that arise, each once, or tells that there are more than its limit; never can it be both.
pub fn closure_finds()
    ensures finds { ClosureFinds }
    ensures either { NeverBoth }
{}
