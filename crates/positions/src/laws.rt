//! How positions lead on a name.
ghost use Rattle.positions.specs.Leading.{MovesByPosition, RestsByPosition, PicksByPosition, MasksByPosition, ColumnsFit};

/// A position is in a moved set exactly if one in the set leads to it, and in what a set picks exactly if it is in the row of one in the set;
/// a mask has the positions listed; a step fits a column as it fits the name.
pub fn positions_lead()
    ensures moves { MovesByPosition }
    ensures rests { RestsByPosition }
    ensures picks { PicksByPosition }
    ensures masks { MasksByPosition }
    ensures columns { ColumnsFit }
{}
