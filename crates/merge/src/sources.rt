// The sources of a listing, and the lists that they are built of.
ghost use Rattle.std.specs.Prelude.{◌≤◌, take};
ghost use Rattle.merge.specs.Sources.{Rise, Rise-prop};

use crate::source::Source;

// The most lists that an inode has: two of each of its 17 records, and one of the base.
pub const MOST_LISTS: usize = 35;

// Lists, `count` of them, the topmost first. No `Vec`: the project has no heap; no `ArrayVec`, as in `InodeLayerStack` (survey).
// Not one type with that and with `Runs` (walk), over the element and the size: how far each may grow is a clause of its own.
#[derive(Clone, Copy)]
pub struct Lists {
    pub rows: [Source; MOST_LISTS],
    pub count: usize,
    ghost few: { count ≤ 35 },
}

// The sources of a listing: lists of an image. The names of each rise.
#[derive(Clone, Copy)]
pub struct Sources<'a> {
    pub img: &'a [u8],
    pub lists: Lists,
    ghost rise: { Rise img.now (take lists.count lists.rows) } by { Rise-prop img.now (take lists.count lists.rows) },
}
