// Update of one inode's attributes.
ghost use Rattle.std.specs.Prelude.{◌≡◌, length};
ghost use Rattle.rules.specs.Initial.{usual};
ghost use Rattle.rules.specs.ChangeCalls.{update_attr_delta};
ghost use Rattle.change.specs.Changed.{Changes};
ghost use Rattle.update.specs.Updates.{WholeFields, Onto, Updates, new_delta};

use change::cut::{RecordOf, cut_at};
use change::section::open_inode;
use fields::fields::attr_over;
use image::kind::{FileType, read_code};
use nodes::attr::{AttrDelta, read_attr_delta};
use overlay::list::Copied;
use overlay::record::{NewChange, NewRecord, Updated};
use overlay::write::{NewLive, replaced, unchanged, write_record};
use stack::file_type::Type;
use stack::question::decided;
use stack::stack::Stack;
use survey::refusal::Refusal;
use survey::store::Sections;

// Merges the fields given, a mask and what it says is there, into the live delta.
pub fn update_attr_delta(
    img: &[u8],
    ino: u64,
    delta: &[u8],
    target: &mut [u8],
) -> Result<usize, Refusal>
    ensures { Changes (update_attr_delta usual img.now ino delta.now (length target.old)) target.old result target.new }
{
    let (sections, stack) = open_inode(img, ino)?;
    let fields = whole_fields(delta).ok_or(Refusal::BadArgument)?;
    let new = with_fields(stack, sections, ino, fields);
    write_record(Copied::of(img, delta), sections, new, target)
}

// The fields that these bytes are, if no bytes are left over.
fn whole_fields(bytes: &[u8]) -> Option<AttrDelta>
    ensures { WholeFields bytes.now result }
{
    let (fields, end) = read_attr_delta(bytes, 0).ok()?;
    (end == bytes.len()).then_some(fields)
}

// The live records, with the fields merged into the live delta; with no live record, with a delta of the type below.
fn with_fields(stack: Stack, sections: Sections, ino: u64, fields: AttrDelta) -> NewLive
    ensures { Updates stack.entry sections ino fields result }
{
    let cut = cut_at(stack.img, sections.live, &RecordOf { ino });
    match cut.place {
        Some(at) => replaced(cut, ino, onto_live(stack.img, at, fields)),
        None => match decided(stack, &Type) {
            Some(kind) => replaced(cut, ino, NewRecord::Updated(new_delta(kind, fields))),
            None => unchanged(cut, ino),
        },
    }
}

// The live record at a place, with the fields merged into it. A tombstone stays.
fn onto_live(img: &[u8], at: usize, fields: AttrDelta) -> NewRecord
    ensures { Onto img.now at fields result }
{
    let Ok((Some(kind), start)) = read_code(img, at) else {
        return NewRecord::Tombstone;
    };
    let Ok((below, end)) = read_attr_delta(img, start) else {
        return NewRecord::Tombstone;
    };
    NewRecord::Updated(Updated {
        code: kind.code(),
        attr_delta: attr_over(fields, below),
        new: fields.xattrs,
        old: below.xattrs,
        change: NewChange::Kept(end),
    })
}

// A delta of this kind that has the fields, and changes nothing else.
fn new_delta(kind: FileType, fields: AttrDelta) -> Updated
    ensures { result ≡ new_delta kind fields }
{
    Updated {
        code: kind.code(),
        attr_delta: fields,
        new: fields.xattrs,
        old: None,
        change: NewChange::Bare,
    }
}
