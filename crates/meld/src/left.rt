// What is left of two lists while they are merged.
ghost use Rattle.std.specs.Prelude.{◌≤◌};
ghost use Rattle.wire.specs.Lists.{last_count};

use image::rows::Rows;

// The rows that are left of a list, and the bytes that hold it. No `NameRows` (lookup): `put_changes` asks nothing of its bytes, and the rows of
// that one are known to be read.
#[derive(Clone, Copy)]
pub struct Left<'a> {
    pub bytes: &'a [u8],
    pub rows: Rows,
}

// The rows left of two lists: the upper's row stays, where both have a name.
#[derive(Clone, Copy)]
pub struct Both<'a> {
    pub upper: Left<'a>,
    pub lower: Left<'a>,
    ghost few: { upper.rows.count ≤ last_count × lower.rows.count ≤ last_count },
}
