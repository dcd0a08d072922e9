// The one writer of images with other live records: one that changes, or several. Everything else is copied from the old image.
ghost use Rattle.std.specs.Prelude.{◌≤◌, ◌∷◌, ◌≡◌};
ghost use Rattle.wire.specs.Lists.{last_count};
ghost use Rattle.wire.specs.Put.{Put};
ghost use Rattle.overlay.specs.NewRecords.{lead_in, new_image, Puts, WritesOne, WritesAll, replaced_of, unchanged_of, edit_at};

use crate::list::Copied;
use crate::record::{Edit, Head, Lead, NewRecord, put_edit};
use change::copy::put_between;
use change::cut::Cut;
use change::room::write_if_room;
use survey::refusal::Refusal;
use survey::store::Sections;

// The live records afterwards: `count` of them, and those from `first` on with one changed.
#[derive(Clone, Copy)]
pub struct NewLive {
    pub count: u64,
    pub first: usize,
    pub edit: Edit,
}

// Another record of the inode where the records are cut. A clause on the count, and no fact of `Cut`: a `Cut` is a plain value, and `unchanged`
// takes any.
pub fn replaced(cut: Cut, ino: u64, new: NewRecord) -> NewLive
    requires { cut.rows.count ≤ last_count }
    ensures { result ≡ replaced_of cut ino new }
{
    NewLive {
        count: cut.count_after(true),
        first: cut.rows.first,
        edit: edit_at(cut, ino, new),
    }
}

// The records as they are.
pub fn unchanged(cut: Cut, ino: u64) -> NewLive
    ensures { result ≡ unchanged_of cut ino }
{
    NewLive {
        count: cut.rows.count,
        first: cut.rows.first,
        edit: edit_at(cut, ino, NewRecord::Same),
    }
}

// The record where the records are cut.
fn edit_at(cut: Cut, ino: u64, new: NewRecord) -> Edit
    ensures { result ≡ edit_at cut ino new }
{
    Edit {
        inode: ino,
        gap: cut.gap,
        new,
    }
}

// Measures the image with one record changed, and writes it to the target if there is room.
pub fn write_record(
    copied: Copied,
    sections: Sections,
    new: NewLive,
    target: &mut [u8],
) -> Result<usize, Refusal>
    ensures { WritesOne copied.entry sections new target.old result target.new }
{
    write_records(copied, sections, new, &[], target)
}

// The same with others changed behind it, the least inode first. For rename, which is to come: no call has others yet.
pub fn write_records(
    copied: Copied,
    sections: Sections,
    new: NewLive,
    others: &[Edit],
    target: &mut [u8],
) -> Result<usize, Refusal>
    ensures { WritesAll copied.entry sections new others.now target.old result target.new }
{
    write_if_room(target, |buf| {
        put_changed(buf, copied, sections, &new, others)
    })
}

// The image with these records changed.
fn put_changed(
    buf: &mut [u8],
    copied: Copied,
    sections: Sections,
    new: &NewLive,
    others: &[Edit],
) -> usize
    ensures { Put buf.old 0 (new_image copied.entry.img.now copied.entry.given.now copied.entry.new_name.now sections new.now others.now) result buf.new }
{
    let lead = lead_in(sections, new.count, new.first);
    put_image(buf, copied, lead, &new.edit, others)
}

fn lead_in(sections: Sections, count: u64, first: usize) -> Lead
    ensures { result ≡ lead_in sections count first }
{
    Lead::Head(Head {
        live: sections.live,
        count,
        first,
    })
}

// What comes before the first record that changes, that record, the others with what is between, and the rest of the image.
fn put_image(buf: &mut [u8], copied: Copied, lead: Lead, one: &Edit, others: &[Edit]) -> usize
    ensures { Puts buf.old 0 copied.entry lead (one.now ∷ others.now) result buf.new }
{
    let mut next = put_edit(buf, 0, copied, lead, one);
    let mut after = one.gap.end;
    for other in others {
        next = put_edit(buf, next, copied, Lead::Behind(after), other);
        after = other.gap.end;
    }
    put_between(buf, next, copied.img, after, copied.img.len())
}
