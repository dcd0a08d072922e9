// A list by name of a directory delta, afterwards: as it is, or with the row of a name put, changed or taken out.
ghost use Rattle.std.specs.Prelude.{◌≡◌};
ghost use Rattle.wire.specs.Put.{Put};
ghost use Rattle.overlay.specs.NewLists.{copied_of, row_bytes, changed_bytes, list_bytes, kept_of};

use change::copy::put_between;
use change::cut::Gap;
use wire::number::put_number;
use wire::part::Part;
use wire::put::put_part;
use wire::text::put_text;

// What a new image is copied from: the old one; what was given, a record or the name of a row that is a name alone; the name of an entry,
// which is another only in a rename. Definitions take the three texts: they speak of bytes, and a `Copied` holds borrows.
#[derive(Clone, Copy)]
pub struct Copied<'a> {
    pub img: &'a [u8],
    pub given: &'a [u8],
    pub new_name: &'a [u8],
}

impl<'a> Copied<'a> {
    // With what was given as the name of an entry too.
    pub fn of(img: &'a [u8], given: &'a [u8]) -> Copied<'a>
        ensures { result ≡ copied_of img.entry given.entry }
    {
        Copied {
            img,
            given,
            new_name: given,
        }
    }
}

// The row of a name, afterwards.
#[derive(Clone, Copy)]
pub enum NewRow {
    Absent,
    // the name given, alone
    Name,
    // the new name, and an inode
    Entry(u64),
}

// `count` rows from `first` to `end`. What stands in the gap gives way to the row of a name; below it and above it are two more, to which
// nothing comes. Only a rename inside one directory has one of these that isn't empty: there a second name's row goes.
#[derive(Clone, Copy)]
pub struct NewRows {
    pub count: u64,
    pub first: usize,
    pub lower: Gap,
    pub gap: Gap,
    pub new: NewRow,
    pub upper: Gap,
    pub end: usize,
}

// A list, its count first.
#[derive(Clone, Copy)]
pub enum NewList {
    Empty,
    // as it stands in the image
    Kept(Part),
    Changed(NewRows),
}

// A list as it is.
pub fn kept(list: Option<Part>) -> NewList
    ensures { result ≡ kept_of list }
{
    match list {
        Some(part) => NewList::Kept(part),
        None => NewList::Empty,
    }
}

// The row of a name, if it has one.
fn put_row(buf: &mut [u8], at: usize, copied: Copied, new: NewRow) -> usize
    ensures { Put buf.old at (row_bytes copied.entry.given.now copied.entry.new_name.now new) result buf.new }
{
    match new {
        NewRow::Absent => at,
        NewRow::Name => put_text(buf, at, copied.given),
        NewRow::Entry(inode) => {
            let next = put_text(buf, at, copied.new_name);
            put_number(buf, next, inode)
        }
    }
}

// The rows of a list in which one row changes, their count first.
fn put_rows(buf: &mut [u8], at: usize, copied: Copied, rows: NewRows) -> usize
    ensures { Put buf.old at (changed_bytes copied.entry.img.now copied.entry.given.now copied.entry.new_name.now rows) result buf.new }
{
    let img = copied.img;
    let first = put_number(buf, at, rows.count);
    let below = put_between(buf, first, img, rows.first, rows.lower.start);
    let row = put_between(buf, below, img, rows.lower.end, rows.gap.start);
    let after = put_row(buf, row, copied, rows.new);
    let above = put_between(buf, after, img, rows.gap.end, rows.upper.start);
    put_between(buf, above, img, rows.upper.end, rows.end)
}

// A list, its count first.
pub fn put_list(buf: &mut [u8], at: usize, copied: Copied, list: NewList) -> usize
    ensures { Put buf.old at (list_bytes copied.entry.img.now copied.entry.given.now copied.entry.new_name.now list) result buf.new }
{
    match list {
        NewList::Empty => put_number(buf, at, 0),
        NewList::Kept(part) => put_part(buf, at, copied.img, part),
        NewList::Changed(rows) => put_rows(buf, at, copied, rows),
    }
}
