// Passing over a record of a layer. Beside `read_entry_delta` (deltas), as `pass_node` beside `read_node`.
ghost use Rattle.std.specs.Prelude.{◌≤◌, length};
ghost use Rattle.image.specs.Meaning.{directory};
ghost use Rattle.image.specs.FileTypes.{kind_meant};
ghost use Rattle.image.specs.RecordLayout.{later_flags, fields, change_part, layer_record};
ghost use Rattle.image.specs.Places.{Ends};

use image::field::{Field, Inode, LAST_MASK, Moment, Size, Target, Word, pass_if, pass_maybe};
use image::kind::{FileType, read_code};
use image::name::{Changes, Under, pass_names};
use wire::fault::Fault;
use wire::number::read_number;

// Passes a record, from its code on. A tombstone ends there.
#[tactic(auto, using(image::proofs::Passing::passes), unfolding(image::specs::RecordLayout::layer_record))]
pub fn pass_record(img: &[u8], at: usize) -> Result<usize, Fault>
    ensures { Ends img.now layer_record.read at result }
{
    let (code, start) = read_code(img, at)?;
    let Some(kind) = code else {
        return Ok(start);
    };
    let change = pass_fields(img, start)?;
    pass_change(img, change, kind)
}

// Passes the mask and the fields that it says are there.
#[tactic(auto, using(image::proofs::Passing::passes), unfolding(image::specs::RecordLayout::fields))]
fn pass_fields(img: &[u8], at: usize) -> Result<usize, Fault>
    ensures { Ends img.now fields.read at result }
{
    let (bits, mode) = read_number(img, at, LAST_MASK)?;
    let owner = pass_if::<Word>(img, mode, bits % 2)?;
    let group = pass_if::<Word>(img, owner, bits / 2 % 2)?;
    let links = pass_if::<Word>(img, group, bits / 2 / 2 % 2)?;
    let times = pass_if::<Word>(img, links, bits / 2 / 2 / 2 % 2)?;
    pass_later_fields(img, times, bits / 2 / 2 / 2 / 2)
}

// Passes the times and the attribute changes that the upper bits of a mask say are there. The place in the image, as in `pass_if`.
#[tactic(auto, using(image::proofs::Passing::passes))]
fn pass_later_fields(img: &[u8], at: usize, bits: u64) -> Result<usize, Fault>
    requires { (bits ≤ 31) × (at ≤ length img.now) }
    ensures { Ends img.now (later_flags.at bits).read at result }
{
    let mtime = pass_if::<Moment>(img, at, bits % 2)?;
    let ctime = pass_if::<Moment>(img, mtime, bits / 2 % 2)?;
    let created = pass_if::<Moment>(img, ctime, bits / 2 / 2 % 2)?;
    let attributes = pass_if::<Moment>(img, created, bits / 2 / 2 / 2 % 2)?;
    pass_if::<Changes>(img, attributes, bits / 2 / 2 / 2 / 2)
}

// Passes what a delta of this kind changes.
fn pass_change(img: &[u8], at: usize, kind: FileType) -> Result<usize, Fault>
    ensures { Ends img.now (change_part (kind_meant kind)).read at result }
{
    match kind {
        FileType::Directory => pass_directory(img, at),
        FileType::RegularFile => pass_maybe::<Size>(img, at),
        FileType::Symlink => pass_maybe::<Target>(img, at),
        FileType::NamedPipe | FileType::CharDevice | FileType::BlockDevice | FileType::Socket => {
            Word::pass(img, at)
        }
    }
}

// Passes a parent that may be there, added entries and removed names.
#[tactic(auto, using(image::proofs::Passing::passes))]
fn pass_directory(img: &[u8], at: usize) -> Result<usize, Fault>
    ensures { Ends img.now (change_part directory).read at result }
{
    let added = pass_maybe::<Inode>(img, at)?;
    let removed = pass_names(img, added, Under::Inode)?;
    pass_names(img, removed, Under::Nothing)
}
