// The attributes and entries that fold makes of a stack: its lists merged by name, and written with their count first.
ghost use Rattle.std.specs.Prelude.{◌≤◌, ◌+◌, min, ◌≡◌, length};
ghost use Rattle.wire.specs.Number.{edge};
ghost use Rattle.wire.specs.Put.{Put};
ghost use Rattle.merge.specs.Merges.{given_in, given_of_row};
ghost use Rattle.fold.specs.Lists.{row_given, list_given, PutsRows, merged_bytes};

use gather::gather::{Listing, gather_sources};
use image::kind::FileType;
use merge::merge::Row;
use merge::sources::Sources;
use stack::stack::Stack;
use wire::number::put_number;
use wire::put::{Written, advance};
use writers::write::{put_entry, put_text_part};

// Writes a name that is given, and what it is given. A `match`, as in `gather`.
fn put_row(buf: &mut [u8], at: usize, img: &[u8], row: Row, listing: Listing) -> usize
    ensures { Put buf.old at (row_given listing (given_of_row img.now row)) result buf.new }
{
    match listing {
        Listing::Entries => put_entry(buf, at, img, row.name, row.given.inode),
        Listing::Attributes => {
            let next = put_text_part(buf, at, img, row.name);
            put_text_part(buf, next, img, row.given.value)
        }
    }
}

// Writes the rows that the sources give, and counts them. Not one with meld's `put_rows`: its contract would have to say any iterator's items.
// That a number holds their count is a clause of this and the next two alone: a type for it
// would be made in one place and taken apart in three.
fn put_rows(buf: &mut [u8], at: usize, all: Sources, listing: Listing) -> Written
    requires { length (given_in all) ≤ edge }
    ensures { PutsRows all.entry listing buf.old at result buf.new }
{
    let mut end = at;
    let mut count: u64 = 0;
    for row in all {
        end = put_row(buf, end, all.img, row, listing);
        count += 1;
    }
    Written { end, count }
}

// The place after the rows that the sources give, with their count first.
fn measure_list(at: usize, all: Sources, listing: Listing) -> usize
    requires { length (given_in all) ≤ edge }
    ensures { result ≡ min (at + length (list_given listing (given_in all.entry))) edge }
{
    let rows = put_rows(&mut [], 0, all, listing);
    let first = put_number(&mut [], at, rows.count);
    advance(first, rows.end)
}

// Writes the rows that the sources give, their count first. The rows come first, after one byte for the count; if it takes more, they are
// written again. Not by `put_counted`: that goes over the sources twice, this once while the count takes one byte.
fn put_list(buf: &mut [u8], at: usize, all: Sources, listing: Listing) -> usize
    requires { length (given_in all) ≤ edge }
    ensures { Put buf.old at (list_given listing (given_in all.entry)) result buf.new }
{
    if buf.is_empty() {
        return measure_list(at, all, listing);
    }
    let rows = put_rows(buf, advance(at, 1), all, listing);
    let first = put_number(buf, at, rows.count);
    if rows.count < 128 {
        return rows.end;
    }
    let again = put_rows(buf, first, all, listing);
    again.end
}

// Writes the list that fold makes of a stack whose node is of the type.
pub fn put_merged(
    buf: &mut [u8],
    at: usize,
    stack: Stack,
    listing: Listing,
    file_type: FileType,
) -> usize
    ensures { Put buf.old at (merged_bytes listing stack.entry file_type) result buf.new }
{
    let all = gather_sources(stack, listing, Some(file_type));
    put_list(buf, at, all, listing)
}
