//! Marks and tags: where the tags of an XML file begin, and what each one says.

#![tactic(auto)]

pub mod marks;
mod part;
pub mod reader;
pub mod tag;

pub use marks::{next_mark, scan};
pub use reader::read_tag;
pub use tag::{Cause, Tag, TagFault, TagKind};
