//! Queries, tags and files worked through, as equations over the definitions.

#![tactic(auto)]

ghost use Rattle.examples.specs.Worked.{Worked};

/// That the worked examples hold. The function does nothing: its promise is the table of them.
pub fn worked_examples()
    ensures { Worked }
{}
