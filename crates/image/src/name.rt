// Lists by name: entries, removed names, attributes, attribute changes.
ghost use Rattle.std.specs.Prelude.{◌≤◌, refl, length};
ghost use Rattle.wire.specs.Combinators.{only};
ghost use Rattle.wire.specs.Orders.{by_bytes};
ghost use Rattle.wire.specs.Lists.{after, rising, last_count};
ghost use Rattle.wire.specs.Reading.{ReadsPart};
ghost use Rattle.image.specs.FieldLayout.{name as nameText};
ghost use Rattle.image.specs.Meaning.{Changes as ChangesMeant};
ghost use Rattle.image.specs.RecordLayout.{changes};
ghost use Rattle.image.specs.Under.{under};
ghost use Rattle.image.specs.Places.{Ends, name_before, rows_from};
ghost use Rattle.image.specs.Rows.{ReadsRow};

use crate::field::{Field, Inode, LAST_NAME, LAST_WORD, XattrValue, pass_maybe};
use crate::rows::{Rows, read_rows};
use wire::fault::Fault;
use wire::order::compare_part;
use wire::part::Part;
use wire::text::read_text;

// What stands under each name of a list.
#[derive(Clone, Copy)]
pub enum Under {
    Nothing,
    Inode,
    Value,
    Change,
}

// A name at `at`: 1 to 255 bytes; and the place after it.
pub fn read_name(img: &[u8], at: usize) -> Result<(Part, usize), Fault>
    ensures { ReadsPart img.now nameText.read at result }
{
    read_text(img, at, 1, LAST_NAME)
}

// The name at `at`, which is after the one before it, if there is one, and the place after it. Beside `inode_after` (passes): the two share
// no more than that there may be none before; how a key is read, compared and promised differs.
pub fn name_after(img: &[u8], at: usize, before: Option<Part>) -> Result<(Part, usize), Fault>
    ensures { ReadsPart img.now (only (after by_bytes (name_before img.now before)) nameText).read at result }
{
    let (name, next) = read_name(img, at)?;
    if before.is_some_and(|last| compare_part(img, last, name.of(img)).is_ge()) {
        return Err(Fault::Malformed);
    }
    Ok((name, next))
}

// Passes what stands under a name. A `match`, no type parameter: a merge has lists of all four sorts in one array, so the sort is a value.
// That the place is in the image is a clause, here and in the other readers that may read nothing: a type for places would be made and taken apart
// at each `?`.
pub fn pass_under(img: &[u8], at: usize, what: Under) -> Result<usize, Fault>
    requires { at ≤ length img.now }
    ensures { Ends img.now (under what).read at result }
{
    match what {
        Under::Nothing => Ok(at),
        Under::Inode => Inode::pass(img, at),
        Under::Value => XattrValue::pass(img, at),
        Under::Change => pass_maybe::<XattrValue>(img, at),
    }
}

// A row of a list by name: its name, the place of what stands under the name, and the place after that.
#[derive(Clone, Copy)]
pub struct RowRead {
    pub name: Part,
    pub under: usize,
    pub next: usize,
}

// The row at a place.
pub fn read_row(img: &[u8], at: usize, what: Under) -> Result<RowRead, Fault>
    ensures { ReadsRow img.now what at result }
{
    let (name, under) = read_name(img, at)?;
    let next = pass_under(img, under, what)?;
    Ok(RowRead { name, under, next })
}

// Changes of attributes, as a delta has them.
pub struct Changes;

impl Field for Changes {
    ghost Said = { ChangesMeant };

    ghost layout = { changes };

    fn pass(img: &[u8], at: usize) -> Result<usize, Fault> {
        pass_names(img, at, Under::Change)
    }
}

// Passes a list by name.
pub fn pass_names(img: &[u8], at: usize, what: Under) -> Result<usize, Fault>
    ensures { Ends img.now (rising by_bytes nameText (under what) last_count refl).read at result }
{
    let rows = read_rows(img, at, LAST_WORD)?;
    pass_rows(img, rows, what)
}

// Passes rows of a list by name. Not `find_in` (passes), which compares each key with the one that it looks for.
#[tactic(auto, using(crate::proofs::Passing::passes_rows))]
fn pass_rows(img: &[u8], rows: Rows, what: Under) -> Result<usize, Fault>
    requires { rows.first ≤ length img.now }
    ensures { Ends img.now (rows_from by_bytes nameText (under what) rows.count None) rows.first result }
{
    let mut here = rows.first;
    let mut before: Option<Part> = None;
    for _row in 0..rows.count {
        let (name, named) = name_after(img, here, before)?;
        here = pass_under(img, named, what)?;
        before = Some(name);
    }
    Ok(here)
}
