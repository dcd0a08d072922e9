// Listings: the rows that the sources of a stack decide.
ghost use Rattle.std.specs.Prelude.{◌≡◌, length};
ghost use Rattle.rows.specs.Listings.{rows_in};
ghost use Rattle.rows.specs.Plans.{PlansRows, Plans, Fits, Fills, Filled, is_listed, list_call, plan_entries};
ghost use Rattle.rules.specs.Initial.{usual};
ghost use Rattle.rules.specs.ReadCalls.{list_directory, list_xattrs};
ghost use Rattle.layers.specs.Attrs.{attr_if};

use crate::plan::Plan;
use attrs::node::FileAttr;
use gather::gather::{Listing, gather_sources};
use image::kind::FileType;
use layers::attr::shown_attr;
use merge::merge::count_rows;
use stack::open::open_image;
use stack::stack::Stack;
use survey::refusal::Refusal;

// A row of a listing: where the name starts in the image, its length, and the inode; 0 for an attribute. Its fields are laid out for C.
#[repr(C)]
#[derive(Clone, Copy)]
pub struct Entry {
    pub start: usize,
    pub length: usize,
    pub inode: u64,
}

// The rows of a stack, if there is room for them.
fn plan_rows(stack: Stack, listing: Listing, room: usize) -> Result<Plan, Refusal>
    ensures { PlansRows (rows_in listing stack.entry) room result }
{
    let all = gather_sources(stack, listing, None);
    let count = count_rows(all, room).ok_or(Refusal::NoRoom)?;
    Ok(Plan { all, count })
}

// The one function over the rows lent: fills the first of them, and answers how many. No `zip`: its loop's invariant would speak of the rows as
// single borrows, and the promise of the slice. No `From` for an `Entry`: it is made in this one place.
fn fill_rows(plan: Plan, rows: &mut [Entry]) -> usize
    requires { Fits (length rows.old) plan }
    ensures { Fills (plan_entries plan.entry) rows.old result rows.new }
{
    let mut all = plan.all;
    for row in rows[..plan.count].iter_mut() {
        let next = all.next().unwrap();
        *row = Entry {
            start: next.name.start,
            length: next.name.length,
            inode: next.given.inode,
        };
    }
    plan.count
}

// Whether there is a listing: entries are a directory's, attribute names those of any inode with attributes. A `match`, as in `gather`.
fn is_listed(listing: Listing, attr: Option<FileAttr>) -> bool
    ensures { result ≡ is_listed listing (attr_if attr) }
{
    attr.is_some_and(|shown| match listing {
        Listing::Entries => shown.file_type == FileType::Directory,
        Listing::Attributes => true,
    })
}

// What a listing answers, and its rows.
fn plan_listing(
    img: &[u8],
    ino: u64,
    listing: Listing,
    room: usize,
) -> Result<Option<Plan>, Refusal>
    ensures { Plans (list_call listing img.now ino room) room result }
{
    let stack = open_image(img, ino)?;
    if is_listed(listing, shown_attr(stack, ino)) {
        let plan = plan_rows(stack, listing, room)?;
        return Ok(Some(plan));
    }
    Ok(None)
}

// The rows lent, filled with those of the listing. No `map`: tried; a closure that holds the lent rows isn't proved alone.
#[tactic(auto, using(crate::proofs::Listed::fills))]
fn list(
    img: &[u8],
    ino: u64,
    listing: Listing,
    rows: &mut [Entry],
) -> Result<Option<usize>, Refusal>
    ensures { Filled (list_call listing img.now ino (length rows.old)) rows.old rows.new result }
{
    let planned = plan_listing(img, ino, listing, rows.len())?;
    match planned {
        Some(plan) => Ok(Some(fill_rows(plan, rows))),
        None => Ok(None),
    }
}

// The names of a directory, rising by bytes.
pub fn list_directory(img: &[u8], ino: u64, rows: &mut [Entry]) -> Result<Option<usize>, Refusal>
    ensures { Filled (list_directory usual img.now ino (length rows.old)) rows.old rows.new result }
{
    list(img, ino, Listing::Entries, rows)
}

// The names of the extended attributes, rising by bytes.
pub fn list_xattrs(img: &[u8], ino: u64, rows: &mut [Entry]) -> Result<Option<usize>, Refusal>
    ensures { Filled (list_xattrs usual img.now ino (length rows.old)) rows.old rows.new result }
{
    list(img, ino, Listing::Attributes, rows)
}
