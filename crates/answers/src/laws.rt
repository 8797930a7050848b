//! The laws of files read in pieces, and of what a whole file answers. Each function does nothing: its promises are theorems.
ghost use Rattle.machine.specs.Model.{Model, Lawful};
ghost use Rattle.answers.specs.Laws.{Stretched, Join, AnyCut, Whole, AnyCutWhole, Stored};
ghost use Rattle.answers.specs.Rule.{Accepted, Past};
ghost use Rattle.answers.specs.Exact.{Exactly};
ghost use Rattle.answers.specs.Listing.{Listing};
ghost use Rattle.answers.specs.Examples.{Pieces};
ghost use Rattle.answers.specs.Paths.{EveryVerdict};

/// For every machine that keeps its laws: a part of a file, cut anywhere, has the content of its two parts joined;
/// cut anyhow and joined in any order, that of one read; and the whole file's content, finished, is the file's own answer. The same holds of contents kept in plain forms.
pub fn pieces_join<Action, Plain>()
    ensures stretches { Stretched }
    ensures join { (m : Model Action Plain) → Lawful m → Join m }
    ensures cuts { (m : Model Action Plain) → Lawful m → AnyCut m }
    ensures whole { (m : Model Action Plain) → Lawful m → Whole m }
    ensures cuts_whole { (m : Model Action Plain) → Lawful m → AnyCutWhole m }
    ensures stored { (m : Model Action Plain) → Lawful m → Stored m }
{}

/// A file is accepted exactly if its bytes follow the rule for content, and each answer is told exactly by what the bytes say.
pub fn content_rule()
    ensures accepted { Accepted }
    ensures exactly { Exactly }
    ensures listing { Listing }
    ensures past { Past }
{}

/// Some small pieces worked through, by a machine whose actions are paths.
pub fn worked_pieces()
    ensures pieces { Pieces }
    ensures machine { EveryVerdict }
{}
