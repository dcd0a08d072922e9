// Rows of a list of attribute changes.
ghost use Rattle.meld.specs.Merged.{RowsFrom, RowIs};

use crate::left::Left;
use image::field::LAST_WORD;
use image::name::{Under, read_row};
use image::rows::{Rows, rows_at};
use wire::part::Part;

// The first of the rows that are left: its name, all its bytes, and the rows after it.
#[derive(Clone, Copy)]
pub struct Row<'a> {
    pub name: &'a [u8],
    pub bytes: &'a [u8],
    pub rest: Left<'a>,
}

// All rows of the list at `at`, its count first.
pub fn all_rows(bytes: &[u8], at: usize) -> Left
    ensures { RowsFrom bytes.now at result }
{
    let rows = rows_at(bytes, at, LAST_WORD);
    Left { bytes, rows }
}

// The first row, if there is one.
pub fn first_row(left: Left) -> Option<Row>
    ensures { RowIs left.entry result }
{
    let count = left.rows.count.checked_sub(1)?;
    let row = read_row(left.bytes, left.rows.first, Under::Change).ok()?;
    let rows = Rows {
        first: row.next,
        count,
    };
    Some(Row {
        name: row.name.of(left.bytes),
        bytes: Part::between(left.rows.first, row.next).of(left.bytes),
        rest: Left {
            bytes: left.bytes,
            rows,
        },
    })
}
