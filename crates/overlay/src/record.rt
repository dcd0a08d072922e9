// A live record, afterwards.
ghost use Rattle.wire.specs.Put.{Put};
ghost use Rattle.overlay.specs.NewRecords.{directory_bytes, bare_bytes, change_bytes, updated_bytes, lead_bytes, record_row, edit_bytes};

use crate::list::{Copied, NewList, put_list};
use change::copy::put_between;
use change::cut::Gap;
use image::field::Inode;
use image::kind::FileType;
use meld::merged::put_changes;
use nodes::attr::AttrDelta;
use records::write_node::put_list_if;
use wire::number::put_number;
use wire::part::Part;
use wire::put::put_bytes;
use writers::field::put_maybe;
use writers::write_attr::put_attr_delta;

// A directory delta. Its attribute changes stand in the image.
#[derive(Clone, Copy)]
pub struct NewDirectory {
    pub attr_delta: AttrDelta,
    pub parent: Option<u64>,
    pub added: NewList,
    pub removed: NewList,
}

// What a delta changes by its kind, afterwards. No `Option`: the names say what is written, which `Some` and `None` would not.
#[derive(Clone, Copy)]
pub enum NewChange {
    // as it stands in the image, from this place to the end of the record
    Kept(usize),
    // that of a delta which changes nothing
    Bare,
}

// A delta of this code, of any number. Its attribute changes are those of the delta given, merged with those in the image.
#[derive(Clone, Copy)]
pub struct Updated {
    pub code: u64,
    pub attr_delta: AttrDelta,
    pub new: Option<Part>,
    pub old: Option<Part>,
    pub change: NewChange,
}

#[derive(Clone, Copy)]
pub enum NewRecord {
    // as it is
    Same,
    Tombstone,
    // what was given, from its code on
    Given,
    Directory(NewDirectory),
    Updated(Updated),
}

// The live record of an inode. What stands in the gap gives way to it.
#[derive(Clone, Copy)]
pub struct Edit {
    pub inode: u64,
    pub gap: Gap,
    pub new: NewRecord,
}

// What is copied before a record that changes.
#[derive(Clone, Copy)]
pub enum Lead {
    // the image up to its live records, and these up to the record
    Head(Head),
    // the records behind another that changes: from this place up to the record
    Behind(usize),
}

// The live records' count stands at `live` in the old image; in the new one there are `count`. The first of the old ones is at `first`.
#[derive(Clone, Copy)]
pub struct Head {
    pub live: usize,
    pub count: u64,
    pub first: usize,
}

// A directory delta, from its code on.
fn put_directory(buf: &mut [u8], at: usize, copied: Copied, directory: NewDirectory) -> usize
    ensures { Put buf.old at (directory_bytes copied.entry.img.now copied.entry.given.now copied.entry.new_name.now directory) result buf.new }
{
    let img = copied.img;
    let fields = put_number(buf, at, FileType::Directory.code());
    let list = put_attr_delta(buf, fields, directory.attr_delta);
    let change = put_list_if(buf, list, img, directory.attr_delta.xattrs);
    let entries = put_maybe::<Inode>(buf, change, img, directory.parent);
    let names = put_list(buf, entries, copied, directory.added);
    put_list(buf, names, copied, directory.removed)
}

// A change by kind that changes nothing: of a directory no parent and two empty lists, else one 0.
fn put_bare(buf: &mut [u8], at: usize, code: u64) -> usize
    ensures { Put buf.old at (bare_bytes code) result buf.new }
{
    match code {
        1 => {
            let added = put_number(buf, at, 0);
            let removed = put_number(buf, added, 0);
            put_number(buf, removed, 0)
        }
        _ => put_number(buf, at, 0),
    }
}

fn put_new_change(
    buf: &mut [u8],
    at: usize,
    img: &[u8],
    code: u64,
    change: NewChange,
    after: usize,
) -> usize
    ensures { Put buf.old at (change_bytes img.now code change after) result buf.new }
{
    match change {
        NewChange::Kept(start) => put_between(buf, at, img, start, after),
        NewChange::Bare => put_bare(buf, at, code),
    }
}

// A delta with other fields, from its code on, in place of a record that ends at `after`.
fn put_updated(buf: &mut [u8], at: usize, copied: Copied, updated: Updated, after: usize) -> usize
    ensures { Put buf.old at (updated_bytes copied.entry.img.now copied.entry.given.now updated after) result buf.new }
{
    let img = copied.img;
    let fields = put_number(buf, at, updated.code);
    let list = put_attr_delta(buf, fields, updated.attr_delta);
    let rest = put_changes(buf, list, img, copied.given, updated.new, updated.old);
    put_new_change(buf, rest, img, updated.code, updated.change, after)
}

// What comes before the row of a record.
fn put_lead(buf: &mut [u8], at: usize, img: &[u8], lead: Lead, row: usize) -> usize
    ensures { Put buf.old at (lead_bytes img.now lead row) result buf.new }
{
    match lead {
        Lead::Head(head) => {
            let counted = put_between(buf, at, img, 0, head.live);
            let first = put_number(buf, counted, head.count);
            put_between(buf, first, img, head.first, row)
        }
        Lead::Behind(first) => put_between(buf, at, img, first, row),
    }
}

// What comes before a record, and the record.
pub fn put_edit(buf: &mut [u8], at: usize, copied: Copied, lead: Lead, edit: &Edit) -> usize
    ensures { Put buf.old at (edit_bytes copied.entry.img.now copied.entry.given.now copied.entry.new_name.now lead edit.now) result buf.new }
{
    let row = put_lead(buf, at, copied.img, lead, edit.gap.start);
    put_record(buf, row, copied, edit)
}

// A record, its inode first. Matched before anything is written, so that the whole record isn't copied. Records are values, no closures that
// write: others come as one slice.
fn put_record(buf: &mut [u8], at: usize, copied: Copied, edit: &Edit) -> usize
    ensures { Put buf.old at (record_row copied.entry.img.now copied.entry.given.now copied.entry.new_name.now edit.now) result buf.new }
{
    let inode = edit.inode;
    let gap = edit.gap;
    match edit.new {
        NewRecord::Same => put_between(buf, at, copied.img, gap.start, gap.end),
        NewRecord::Tombstone => {
            let code = put_number(buf, at, inode);
            put_number(buf, code, 0)
        }
        NewRecord::Given => {
            let code = put_number(buf, at, inode);
            put_bytes(buf, code, copied.given)
        }
        NewRecord::Directory(directory) => {
            let code = put_number(buf, at, inode);
            put_directory(buf, code, copied, directory)
        }
        NewRecord::Updated(updated) => {
            let code = put_number(buf, at, inode);
            put_updated(buf, code, copied, updated, gap.end)
        }
    }
}
