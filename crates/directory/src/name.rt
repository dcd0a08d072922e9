// A list by name, cut to change the row of one name.
ghost use Rattle.std.specs.Prelude.{◌≤◌, ◌≡◌};
ghost use Rattle.wire.specs.Lists.{last_count};
ghost use Rattle.wire.specs.Orders.{by_bytes};
ghost use Rattle.image.specs.FieldLayout.{name as nameText};
ghost use Rattle.image.specs.Meaning.{Text};
ghost use Rattle.image.specs.Under.{UnderName, under};
ghost use Rattle.change.specs.Cuts.{compared};
ghost use Rattle.directory.specs.Entries.{has_row, stays_absent, changed_rows, cut_list, RowChanged};

use change::cut::{Cut, Gap, Sought, cut_at};
use image::name::{Under, pass_under, read_name};
use overlay::list::{NewList, NewRow, NewRows, kept};
use std::cmp::Ordering;
use wire::fault::Fault;
use wire::order::compare_part;
use wire::part::Part;
use wire::put::advance;

// The row of a name, in a list of this sort.
#[derive(Clone, Copy)]
pub struct RowOf<'a> {
    pub what: Under,
    pub name: &'a [u8],
}

impl Sought for RowOf<'_> {
    ghost Key = { Text };

    ghost Value = { λ row. UnderName row.what };

    ghost order = { by_bytes };

    ghost key = { nameText };

    ghost value = { λ row. under row.what };

    ghost wanted = { λ row. row.name.now };

    fn compare(&self, img: &[u8], at: usize) -> Result<(Ordering, usize), Fault> {
        let (name, next) = read_name(img, at)?;
        Ok((compare_part(img, name, self.name), next))
    }

    fn pass(&self, img: &[u8], at: usize) -> Result<usize, Fault> {
        pass_under(img, at, self.what)
    }
}

// The list with the row of a name as it is to be.
pub fn with_row(img: &[u8], list: Option<Part>, what: Under, name: &[u8], new: NewRow) -> NewList
    ensures { RowChanged img.now what list name.now new result }
{
    match list {
        Some(rows) => {
            let cut = cut_at(img, rows.start, &RowOf { what, name });
            with_cut(list, cut, advance(rows.start, rows.length), new)
        }
        None => with_cut(list, Cut::NOWHERE, 0, new),
    }
}

// The list that ends at `end` with another row where it is cut. If the name has none before and after, the list stays. A clause on the count,
// here and in `changed_rows`, as in `replaced`.
fn with_cut(list: Option<Part>, cut: Cut, end: usize, new: NewRow) -> NewList
    requires { cut.rows.count ≤ last_count }
    ensures { result ≡ cut_list list cut end new }
{
    if stays_absent(cut.place, new) {
        return kept(list);
    }
    NewList::Changed(changed_rows(cut, end, new))
}

fn changed_rows(cut: Cut, end: usize, new: NewRow) -> NewRows
    requires { cut.rows.count ≤ last_count }
    ensures { result ≡ changed_rows cut end new }
{
    NewRows {
        count: cut.count_after(has_row(new)),
        first: cut.rows.first,
        lower: Gap {
            start: cut.rows.first,
            end: cut.rows.first,
        },
        gap: cut.gap,
        new,
        upper: Gap { start: end, end },
        end,
    }
}

// Whether a name has no row where the list is cut, and none afterwards.
fn stays_absent(place: Option<usize>, new: NewRow) -> bool
    ensures { result ≡ stays_absent place new }
{
    place.is_none() && !has_row(new)
}

fn has_row(new: NewRow) -> bool
    ensures { result ≡ has_row new }
{
    !matches!(new, NewRow::Absent)
}
