// Changes of one inode's live directory delta: its parent, its entries.
ghost use Rattle.std.specs.Prelude.{◌≡◌, length};
ghost use Rattle.rules.specs.Initial.{usual};
ghost use Rattle.rules.specs.ChangeCalls.{add_dir_entry, remove_dir_entry, update_dir_parent};
ghost use Rattle.change.specs.Changed.{Changes};
ghost use Rattle.directory.specs.Entries.{stamped_of, parent_of, Renamed, OnDirectory, ChangesName};

use crate::name::with_row;
use change::cut::{RecordOf, cut_at};
use change::section::open_sections;
use image::name::Under;
use nodes::attr::AttrDelta;
use overlay::delta::{LiveDelta, live_directory};
use overlay::list::{Copied, NewRow, kept};
use overlay::record::{NewDirectory, NewRecord};
use overlay::write::{NewLive, replaced, unchanged, write_record};
use stack::name::bad_name;
use survey::refusal::Refusal;
use survey::store::Sections;
use wire::time::{LAST_NANO, Time};

// Adds an entry to the live directory delta, and takes its name out of removed.
pub fn add_dir_entry(
    img: &[u8],
    ino: u64,
    name: &[u8],
    inode: u64,
    time: Time,
    target: &mut [u8],
) -> Result<usize, Refusal>
    ensures { Changes (add_dir_entry usual img.now ino name.now inode time (length target.old)) target.old result target.new }
{
    change_name(
        img,
        ino,
        name,
        time,
        NewRow::Entry(inode),
        NewRow::Absent,
        target,
    )
}

// Adds a name to those removed, and takes its entry out of added.
pub fn remove_dir_entry(
    img: &[u8],
    ino: u64,
    name: &[u8],
    time: Time,
    target: &mut [u8],
) -> Result<usize, Refusal>
    ensures { Changes (remove_dir_entry usual img.now ino name.now time (length target.old)) target.old result target.new }
{
    change_name(img, ino, name, time, NewRow::Absent, NewRow::Name, target)
}

// Changes what stands under a name in added, and in removed: two rows, and no enum of the two calls, since a rename has other pairs. Name, time
// and rows come one by one, here and in `with_name`: as a struct they would be made and opened in these two alone.
fn change_name(
    img: &[u8],
    ino: u64,
    name: &[u8],
    time: Time,
    added: NewRow,
    removed: NewRow,
    target: &mut [u8],
) -> Result<usize, Refusal>
    ensures { ChangesName img.now ino name.now time added removed target.old result target.new }
{
    let sections = open_sections(img)?;
    if bad_name(name) {
        return Err(Refusal::BadName);
    }
    if LAST_NANO < time.nanos as u64 {
        return Err(Refusal::BadArgument);
    }
    let new = on_directory(img, sections, ino, |delta| {
        with_name(img, delta, name, time, added, removed)
    });
    write_record(Copied::of(img, name), sections, new, target)
}

// The live records, with what a change makes of the live directory delta. On a live record of another sort it does nothing.
fn on_directory<C: Fn(LiveDelta) -> NewDirectory>(
    img: &[u8],
    sections: Sections,
    ino: u64,
    change: C,
) -> NewLive
    requires { C.IsAlwaysCallable change }
    ensures { OnDirectory (C.post change) img.now sections ino result }
{
    let cut = cut_at(img, sections.live, &RecordOf { ino });
    match live_directory(img, cut.place) {
        Some(delta) => replaced(cut, ino, NewRecord::Directory(change(delta))),
        None => unchanged(cut, ino),
    }
}

// A directory delta whose two lists have these rows for the name.
fn with_name(
    img: &[u8],
    delta: LiveDelta,
    name: &[u8],
    time: Time,
    added: NewRow,
    removed: NewRow,
) -> NewDirectory
    ensures { Renamed img.now delta name.now time added removed result }
{
    NewDirectory {
        attr_delta: stamped(delta.attr_delta, time),
        parent: delta.parent,
        added: with_row(img, delta.added, Under::Inode, name, added),
        removed: with_row(img, delta.removed, Under::Nothing, name, removed),
    }
}

// The fields with mtime and ctime set.
fn stamped(attr_delta: AttrDelta, time: Time) -> AttrDelta
    ensures { result ≡ stamped_of attr_delta time }
{
    AttrDelta {
        mtime: Some(time),
        ctime: Some(time),
        ..attr_delta
    }
}

// Sets the parent of the live directory delta. Nothing is given: `img` only fills the place.
pub fn update_dir_parent(
    img: &[u8],
    ino: u64,
    parent: u64,
    target: &mut [u8],
) -> Result<usize, Refusal>
    ensures { Changes (update_dir_parent usual img.now ino parent (length target.old)) target.old result target.new }
{
    let sections = open_sections(img)?;
    let new = on_directory(img, sections, ino, |delta| with_parent(delta, parent));
    write_record(Copied::of(img, img), sections, new, target)
}

// A directory delta with another parent.
fn with_parent(delta: LiveDelta, parent: u64) -> NewDirectory
    ensures { result ≡ parent_of delta parent }
{
    NewDirectory {
        attr_delta: delta.attr_delta,
        parent: Some(parent),
        added: kept(delta.added),
        removed: kept(delta.removed),
    }
}
