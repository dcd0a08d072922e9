// Changes of one inode's live record.
ghost use Rattle.std.specs.Prelude.{◌≡◌, length};
ghost use Rattle.rules.specs.Initial.{usual};
ghost use Rattle.rules.specs.Refusals.{no_delta};
ghost use Rattle.rules.specs.ChangeCalls.{given_record, insert_new_node, tombstone as tombstoned};
ghost use Rattle.change.specs.Changed.{Changes};

use crate::list::Copied;
use crate::record::NewRecord;
use crate::write::{replaced, write_record};
use change::cut::{RecordOf, cut_at};
use change::section::open_sections;
use deltas::delta::{EntryDelta, read_entry_delta};
use survey::refusal::Refusal;

// Replaces the live record by the delta given, a record from its code on.
pub fn insert_new_node(
    img: &[u8],
    ino: u64,
    delta: &[u8],
    target: &mut [u8],
) -> Result<usize, Refusal>
    ensures { Changes (insert_new_node usual img.now ino delta.now (length target.old)) target.old result target.new }
{
    let sections = open_sections(img)?;
    if no_delta(delta) {
        return Err(Refusal::BadArgument);
    }
    let cut = cut_at(img, sections.live, &RecordOf { ino });
    let new = replaced(cut, ino, NewRecord::Given);
    write_record(Copied::of(img, delta), sections, new, target)
}

// Replaces the live record by a tombstone. Nothing is given: `img` only fills the place.
pub fn tombstone(img: &[u8], ino: u64, target: &mut [u8]) -> Result<usize, Refusal>
    ensures { Changes (tombstoned usual img.now ino (length target.old)) target.old result target.new }
{
    let sections = open_sections(img)?;
    let cut = cut_at(img, sections.live, &RecordOf { ino });
    let new = replaced(cut, ino, NewRecord::Tombstone);
    write_record(Copied::of(img, img), sections, new, target)
}

// Whether these are not the bytes of one delta, and no more. Beside `whole_fields` (update): what is read is a record here, and there a mask and its
// fields.
fn no_delta(given: &[u8]) -> bool
    ensures { result ≡ no_delta (given_record given.now) }
{
    let Ok((delta, end)) = read_entry_delta(given, 0) else {
        return true;
    };
    match delta {
        EntryDelta::Node(_) => end != given.len(),
        EntryDelta::Tombstone => true,
    }
}
