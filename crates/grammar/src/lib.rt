//! The reader of tags against XML's grammar.

#![tactic(auto)]

ghost use Rattle.tags.specs.Marks.{part};
ghost use Rattle.tags.specs.Reads.{shown};
ghost use Rattle.grammar.specs.Laws.{TagsExact, FaultsExact, CausesApart, Told};

use tags::{Tag, TagFault};

/// The tag of the stretch from `mark` up to but without `to`, as the grammar has it, or where and why no tag goes on.
pub fn read_tag<'a>(file: &'a [u8], mark: usize, to: usize) -> Result<Tag<'a>, TagFault>
    ensures { Told (part file.now mark to) mark (shown result) }
{
    tags::read_tag(file, mark, to)
}

/// That reading a tag follows the grammar, on any bytes. The function does nothing: its promises are theorems.
pub fn tag_grammar()
    ensures tags { TagsExact }
    ensures faults { FaultsExact }
    ensures causes { CausesApart }
{}
