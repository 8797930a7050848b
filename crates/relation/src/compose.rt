ghost use Rattle.std.specs.Prelude.{◌≡◌, ◌<◌};
ghost use Rattle.positions.specs.Sets.{picked};

/// The union of the rows that the bits of `row` name. It takes one turn for each bit that is set, and none for the others.
pub fn pick(row: u32, rows: &[u32; 32]) -> u32
    ensures { result ≡ picked row rows.now }
{
    let mut got = 0;
    let mut left = row;
    while left != 0 {
        let j = left.trailing_zeros();
        got |= rows[j as usize];
        left -= 1 << j;
    }
    got
}
