//! The names of rows, which stand in the file.
ghost use Rattle.std.specs.Prelude.{◌≡◌, ◌+◌};
ghost use Rattle.std.specs.Str.{bytes_eq};
ghost use Rattle.rows.specs.Pieces.{name, Inside};

use crate::row::{Row, RowKind};

pub fn name_of<'a>(file: &'a [u8], row: Row) -> &'a [u8]
    requires { Inside file.now row }
    ensures { result.now ≡ name file.now row }
{
    let skip = match row.kind {
        RowKind::Close => 2,
        RowKind::Open | RowKind::Done => 1,
    };
    let from = row.place as usize + skip;
    &file[from..from + row.name_len as usize]
}

pub fn same_name(file: &[u8], a: Row, b: Row) -> bool
    requires first { Inside file.now a }
    requires second { Inside file.now b }
    ensures { result ≡ bytes_eq (name file.now a) (name file.now b) }
{
    name_of(file, a) == name_of(file, b)
}
