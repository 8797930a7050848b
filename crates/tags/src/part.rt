//! Parts of a file.
ghost use Rattle.std.specs.Prelude.{◌≡◌, ◌-◌, ◌≤◌, length};
ghost use Rattle.tags.specs.Marks.{part};

/// The file's bytes from `from` up to but without `to`, as far as it has them.
pub(crate) fn part(file: &[u8], from: usize, to: usize) -> &[u8]
    ensures bytes { result.now ≡ part file.now from to }
    ensures within { length result.now ≤ length file.now - from }
{
    let end = to.min(file.len());
    if from < end { &file[from..end] } else { &[] }
}
