// Two lists of attribute changes merged: that of the delta given, and that of the image. Of equal names the one given stays.
ghost use Rattle.std.specs.Prelude.{◌≡◌};
ghost use Rattle.std.specs.Iterator.{at_most};
ghost use Rattle.wire.specs.Put.{Put};
ghost use Rattle.meld.specs.Merged.{Leads, Goes, Gives, left_in, PutsRows, changes_anew};

use crate::left::{Both, Left};
use crate::row::{Row, all_rows, first_row};
use records::write_node::put_list_if;
use std::cmp::Ordering;
use wire::order::compare_part;
use wire::part::Part;
use wire::put::{Written, put_bytes, put_counted, put_part};

impl<'a> Both<'a> {
    // Where both have a row: the one whose name is less; of equal names the upper.
    fn least(&mut self, upper: Row<'a>, lower: Row<'a>) -> &'a [u8]
        requires { Leads self.old.upper upper × Leads self.old.lower lower }
        ensures { Goes self.old result.now self.new }
    {
        let whole = Part {
            start: 0,
            length: upper.name.len(),
        };
        match compare_part(upper.name, whole, lower.name) {
            Ordering::Less => take(&mut self.upper, upper),
            Ordering::Equal => {
                self.lower = lower.rest;
                take(&mut self.upper, upper)
            }
            Ordering::Greater => take(&mut self.lower, lower),
        }
    }
}

// Takes the first row: answers its bytes, and moves the list past it.
fn take<'a>(left: &mut Left<'a>, row: Row<'a>) -> &'a [u8]
    ensures { (result.now ≡ row.entry.bytes.now) × (left.new ≡ row.entry.rest) }
{
    *left = row.rest;
    row.bytes
}

// The bytes of each row, one after the other.
impl<'a> Iterator for Both<'a> {
    type Item = &'a [u8];

    ghost next_gives = { Gives };

    ghost remaining = { λ s. at_most (left_in s) };

    fn next(&mut self) -> Option<&'a [u8]> {
        let first = first_row(self.upper);
        let second = first_row(self.lower);
        match (first, second) {
            (Some(upper), Some(lower)) => Some(self.least(upper, lower)),
            (Some(upper), None) => Some(take(&mut self.upper, upper)),
            (None, Some(lower)) => Some(take(&mut self.lower, lower)),
            (None, None) => None,
        }
    }
}

// Writes the rows of both lists, without their count. Not one with fold's `put_rows`: its contract would have to say any iterator's items.
fn put_rows(buf: &mut [u8], at: usize, both: Both) -> Written
    ensures { PutsRows both.entry buf.old at result buf.new }
{
    let mut end = at;
    let mut count: u64 = 0;
    for row in both {
        end = put_bytes(buf, end, row);
        count += 1;
    }
    Written { end, count }
}

// Writes the attribute changes of both, if one has any: `new` stands in `given`, `old` in `img`. No two pairs of list and bytes: the bytes come
// in a `Copied` (overlay), the lists in an `Updated`.
pub fn put_changes(
    buf: &mut [u8],
    at: usize,
    img: &[u8],
    given: &[u8],
    new: Option<Part>,
    old: Option<Part>,
) -> usize
    ensures { Put buf.old at (changes_anew img.now given.now new old) result buf.new }
{
    let Some(above) = new else {
        return put_list_if(buf, at, img, old);
    };
    let Some(below) = old else {
        return put_part(buf, at, given, above);
    };
    let both = Both {
        upper: all_rows(given, above.start),
        lower: all_rows(img, below.start),
    };
    put_counted(buf, at, |buf, at| put_rows(buf, at, both))
}
