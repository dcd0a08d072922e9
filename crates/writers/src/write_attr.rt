// Writers of attributes: the changes that a delta carries, and those of a base node. Each list of extended attributes comes next, and is
// written by itself.
ghost use Rattle.std.specs.Prelude.{◌≤◌, ◌≡◌};
ghost use Rattle.wire.specs.Combinators.{count};
ghost use Rattle.wire.specs.Put.{Put};
ghost use Rattle.writers.specs.Writes.{later_mask, mask_of, times_bytes, attr_bytes, meta_bytes};

use crate::field::put_if;
use image::field::{Moment, Word};
use nodes::attr::AttrDelta;
use nodes::node::InodeMeta;
use wire::number::put_number;
use wire::time::put_time;

// The bit that says whether a value is there.
fn bit<T: Copy>(option: Option<T>) -> u64
    ensures { (result ≡ count option) × (result ≤ 1) }
{
    option.is_some() as u64
}

// The upper five bits of the mask: the times, and the attribute changes.
fn later_mask(attr: AttrDelta) -> u64
    ensures { (result ≡ later_mask attr) × (result ≤ 31) }
{
    let upper = bit(attr.created_at) + 2 * bit(attr.xattrs);
    bit(attr.atime) + 2 * (bit(attr.mtime) + 2 * (bit(attr.ctime) + 2 * upper))
}

// The mask that says which fields are there.
pub fn mask_of(attr: AttrDelta) -> u64
    ensures { result ≡ mask_of attr }
{
    let upper = bit(attr.nlink) + 2 * later_mask(attr);
    bit(attr.mode) + 2 * (bit(attr.uid) + 2 * (bit(attr.gid) + 2 * upper))
}

// Writes the times that are there. None of them stands in an image.
fn put_times(buf: &mut [u8], at: usize, attr: AttrDelta) -> usize
    ensures { Put buf.old at (times_bytes attr) result buf.new }
{
    let modified = put_if::<Moment>(buf, at, &[], attr.atime);
    let changed = put_if::<Moment>(buf, modified, &[], attr.mtime);
    let created = put_if::<Moment>(buf, changed, &[], attr.ctime);
    put_if::<Moment>(buf, created, &[], attr.created_at)
}

// Writes the mask and the fields that are there, but for the attribute changes, which come next. None of these stands in an image.
pub fn put_attr_delta(buf: &mut [u8], at: usize, attr: AttrDelta) -> usize
    ensures { Put buf.old at (attr_bytes attr) result buf.new }
{
    let start = put_number(buf, at, mask_of(attr));
    let owner = put_if::<Word>(buf, start, &[], attr.mode);
    let group = put_if::<Word>(buf, owner, &[], attr.uid);
    let links = put_if::<Word>(buf, group, &[], attr.gid);
    let times = put_if::<Word>(buf, links, &[], attr.nlink);
    put_times(buf, times, attr)
}

// Writes permission, links, owner, group and three times. The attributes come next.
pub fn put_inode_meta(buf: &mut [u8], at: usize, meta: InodeMeta) -> usize
    ensures { Put buf.old at (meta_bytes meta) result buf.new }
{
    let links = put_number(buf, at, meta.perm as u64);
    let owner = put_number(buf, links, meta.nlink as u64);
    let group = put_number(buf, owner, meta.uid as u64);
    let times = put_number(buf, group, meta.gid as u64);
    let modified = put_time(buf, times, meta.atime);
    let changed = put_time(buf, modified, meta.mtime);
    put_time(buf, changed, meta.ctime)
}
