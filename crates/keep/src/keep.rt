// The rows of a list that stay, held against what their names lead to below.
ghost use Rattle.std.specs.Prelude.{◌++◌, ◌<◌, ◌≡◌};
ghost use Rattle.image.specs.declared.name.Under.TheVariants as U;
ghost use Rattle.wire.specs.Number.{edge};
ghost use Rattle.wire.specs.Orders.{by_bytes};
ghost use Rattle.wire.specs.Rows.{Rising};
ghost use Rattle.wire.specs.Put.{Put};
ghost use Rattle.change.specs.Sections.{between};
ghost use Rattle.merge.specs.Merges.{gives_from};
ghost use Rattle.keep.specs.Keeps.{InStep, Sought, leads_in, leads_from, Keeps, KeepsBy, PutsKept, kept_bytes};

use change::copy::put_between;
use image::name::Under;
use lookup::list::NameList;
use merge::merge::Row;
use merge::sources::Sources;
use std::cmp::Ordering;
use wire::number::read_number;
use wire::order::compare_part;
use wire::put::{Written, put_counted};

// The names that are left of sources: the first of them, which is read already, and the sources past it. No `Peekable`: it can't be copied, so each
// pass over a list would read all the names again that are removed before the first one.
#[derive(Clone, Copy)]
pub struct Names<'a> {
    pub first: Option<Row>,
    pub rest: Sources<'a>,
}

// The inode that a name leads to, if it leads anywhere. The names that are less are passed.
fn leads_to(img: &[u8], names: &mut Names, name: &[u8]) -> Option<u64>
    requires { InStep img.now names.old }
    ensures { Sought img.now names.old name.now result names.new }
{
    while let Some(row) = names.first {
        match compare_part(img, row.name, name) {
            Ordering::Less => {}
            Ordering::Equal => return Some(row.given.inode),
            Ordering::Greater => return None,
        }
        names.first = names.rest.next();
    }
    None
}

// An entry stays, unless its name leads to the same inode below.
fn is_entry_kept(img: &[u8], below: Option<u64>, under: usize) -> bool
    ensures { Keeps img.now U.Inode below under result }
{
    let (inode, _) = read_number(img, under, u64::MAX).unwrap_or((0, 0));
    below != Some(inode)
}

// Writes the rows that stay, and counts them.
fn put_kept<F: Fn(Option<u64>, usize) -> bool>(
    buf: &mut [u8],
    at: usize,
    list: NameList,
    first: Option<Row>,
    sources: &Sources,
    stays: &F,
) -> Written
    requires callable { F.IsAlwaysCallable stays.now }
    requires keeps { KeepsBy list.img.now list.what (F.post stays.now) }
    requires rises { Rising by_bytes (gives_from first sources.now) }
    ensures { PutsKept list.entry (leads_from first sources.entry.now) buf.old at result buf.new }
{
    let mut names = Names {
        first,
        rest: *sources,
    };
    let mut kept = Written { end: at, count: 0 };
    for (start, row) in list.rows() {
        let below = leads_to(sources.img, &mut names, row.name.of(list.img));
        if stays(below, row.under) {
            let end = put_between(buf, kept.end, list.img, start, row.next);
            kept = kept.more(end);
        }
    }
    kept
}

// Writes the list of the rows that stay, their count first. Whether a row stays is asked of what its name leads to, and of the place of what
// stands under the name.
fn put_list_by<F: Fn(Option<u64>, usize) -> bool>(
    buf: &mut [u8],
    at: usize,
    list: NameList,
    first: Option<Row>,
    sources: &Sources,
    stays: F,
) -> usize
    requires callable { F.IsAlwaysCallable stays }
    requires keeps { KeepsBy list.img.now list.what (F.post stays) }
    requires rises { Rising by_bytes (gives_from first sources.now) }
    ensures { Put buf.old at (kept_bytes list.entry (leads_from first sources.entry.now)) result buf.new }
{
    put_counted(
        buf,
        at,
        |buf, at| put_kept(buf, at, list, first, sources, &stays),
    )
}

// The same, where an entry stays unless its name leads to the same inode below, and any other name if it leads anywhere. A `match` on the sort, which
// is a value of the list (`pass_under`, image), once for all its rows.
fn put_led_list(
    buf: &mut [u8],
    at: usize,
    list: NameList,
    first: Option<Row>,
    sources: &Sources,
) -> usize
    requires { Rising by_bytes (gives_from first sources.now) }
    ensures { Put buf.old at (kept_bytes list.entry (leads_from first sources.entry.now)) result buf.new }
{
    match list.what {
        Under::Inode => put_list_by(buf, at, list, first, sources, |below, under| {
            is_entry_kept(list.img, below, under)
        }),
        _ => put_list_by(buf, at, list, first, sources, |below, _| below.is_some()),
    }
}

// Writes the list of the rows that stay, held against the names of sources.
pub fn put_kept_list(buf: &mut [u8], at: usize, list: NameList, sources: &Sources) -> usize
    ensures { Put buf.old at (kept_bytes list.entry (leads_in sources.entry.now)) result buf.new }
{
    let mut rest = *sources;
    let first = rest.next();
    put_led_list(buf, at, list, first, &rest)
}

// The same of the two lists of a delta, one after the other. The sources are moved past their first name, once for both lists: the names that are
// removed before it are read no more than that once.
pub fn put_kept_lists(
    buf: &mut [u8],
    at: usize,
    added: NameList,
    removed: NameList,
    sources: &mut Sources,
) -> usize
    ensures { Put buf.old at (kept_bytes added.entry (leads_in sources.old) ++ kept_bytes removed.entry (leads_in sources.old)) result buf.new }
{
    let first = sources.next();
    let next = put_led_list(buf, at, added, first, sources);
    put_led_list(buf, next, removed, first, sources)
}
