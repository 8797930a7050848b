//! Files to measure with, of any size.
use std::alloc::{AllocError, Global};

/// How the elements of a file lie.
#[derive(Clone, Copy)]
pub enum Shape {
    /// Tours of stops, with attributes and text, as a day's file has them.
    Day,
    /// Many closed children in one parent.
    Children,
    /// One element after another, and none around them.
    Flat,
    /// A thousand deep, again and again.
    Nested,
    /// Ten thousand deep, once, around all others.
    Deep,
    /// One tag for each 100 bytes of text.
    Sparse,
}

pub const SHAPES: [Shape; 6] = [
    Shape::Day,
    Shape::Children,
    Shape::Flat,
    Shape::Nested,
    Shape::Deep,
    Shape::Sparse,
];

const STOP: &[u8] =
    b"<stop id=\"1042\" at=\"09:15\"><name>Baker and Sons</name><street>Mill Lane 4</street><parcel kg=\"2.5\"/></stop>\n";

const CHILD: &[u8] = b"<stop>12</stop>\n";

const SENTENCE: &[u8] =
    b"<stop/>Ring twice, wait at the side door, and leave the parcel with the neighbours on the left.\n\n\n\n\n";

impl Shape {
    pub fn name(self) -> &'static str {
        match self {
            Shape::Day => "day",
            Shape::Children => "children",
            Shape::Flat => "flat",
            Shape::Nested => "nested",
            Shape::Deep => "deep",
            Shape::Sparse => "sparse",
        }
    }

    /// How often start tags stand before the first of the repeated lines, and end tags after the last.
    fn depth(self) -> usize {
        match self {
            Shape::Flat | Shape::Nested => 0,
            Shape::Deep => 10_000,
            Shape::Day | Shape::Children | Shape::Sparse => 1,
        }
    }

    /// One unit of what is repeated up to the size that is wanted.
    fn unit(self, heap: Global) -> Result<Vec<u8>, AllocError> {
        let mut unit = Vec::new(heap);
        match self {
            Shape::Children | Shape::Flat | Shape::Deep => unit.extend_from_slice(CHILD)?,
            Shape::Sparse => unit.extend_from_slice(SENTENCE)?,
            Shape::Day => {
                unit.extend_from_slice(b"<tour van=\"7\">\n")?;
                repeat(&mut unit, STOP, 20)?;
                unit.extend_from_slice(b"</tour>\n")?;
            }
            Shape::Nested => {
                repeat(&mut unit, b"<tour>", 1_000)?;
                repeat(&mut unit, b"</tour>", 1_000)?;
            }
        }
        Ok(unit)
    }

    /// A file of about `size` bytes.
    pub fn file(self, heap: Global, size: usize) -> Result<Vec<u8>, AllocError> {
        let unit = self.unit(heap)?;
        let mut file = Vec::with_capacity(heap, size)?;
        repeat(&mut file, b"<day>", self.depth())?;
        let units = size.checked_div(unit.len()).unwrap_or(0);
        repeat(&mut file, unit.as_slice(), units)?;
        repeat(&mut file, b"</day>", self.depth())?;
        Ok(file)
    }
}

/// Writes the same bytes again and again.
fn repeat(file: &mut Vec<u8>, bytes: &[u8], times: usize) -> Result<(), AllocError> {
    for _ in 0..times {
        file.extend_from_slice(bytes)?;
    }
    Ok(())
}
