// The changes of attributes that a delta carries.
ghost use Rattle.std.specs.Prelude.{◌≤◌, ◌≡◌, length};
ghost use Rattle.nodes.specs.Attrs.{no_changes, ReadsAttr, ReadsLater};

use crate::field::read_if;
use image::field::{LAST_MASK, Moment, Word};
use image::name::Changes;
use wire::fault::Fault;
use wire::number::read_number;
use wire::part::Part;
use wire::time::Time;

// Each field is there, or not. The attribute changes are a list in the image.
#[derive(Clone, Copy)]
pub struct AttrDelta {
    pub mode: Option<u32>,
    pub uid: Option<u32>,
    pub gid: Option<u32>,
    pub nlink: Option<u32>,
    pub atime: Option<Time>,
    pub mtime: Option<Time>,
    pub ctime: Option<Time>,
    pub created_at: Option<Time>,
    pub xattrs: Option<Part>,
}

// The mask at `at` and the fields that it says are there, and the place after them.
#[tactic(auto, unfolding(image::specs::RecordLayout::fields))]
pub fn read_attr_delta(img: &[u8], at: usize) -> Result<(AttrDelta, usize), Fault>
    ensures { ReadsAttr img.now at result }
{
    let (bits, start) = read_number(img, at, LAST_MASK)?;
    let (mode, owner) = read_if::<Word>(img, start, bits % 2)?;
    let (uid, group) = read_if::<Word>(img, owner, bits / 2 % 2)?;
    let (gid, links) = read_if::<Word>(img, group, bits / 2 / 2 % 2)?;
    let (nlink, times) = read_if::<Word>(img, links, bits / 2 / 2 / 2 % 2)?;
    let words = AttrDelta {
        mode,
        uid,
        gid,
        nlink,
        ..no_changes()
    };
    read_later(img, times, bits / 2 / 2 / 2 / 2, words)
}

// No changes: no field is there. No `Default`: the name says that nothing changes.
pub fn no_changes() -> AttrDelta
    ensures { result ≡ no_changes }
{
    AttrDelta {
        mode: None,
        uid: None,
        gid: None,
        nlink: None,
        atime: None,
        mtime: None,
        ctime: None,
        created_at: None,
        xattrs: None,
    }
}

// The times and the attribute changes that the upper bits of a mask say are there, after the first four fields. The place in the image, as in
// `pass_if`.
fn read_later(
    img: &[u8],
    at: usize,
    bits: u64,
    words: AttrDelta,
) -> Result<(AttrDelta, usize), Fault>
    requires { (bits ≤ 31) × (at ≤ length img.now) }
    ensures { ReadsLater img.now at bits words result }
{
    let (atime, modified) = read_if::<Moment>(img, at, bits % 2)?;
    let (mtime, changed) = read_if::<Moment>(img, modified, bits / 2 % 2)?;
    let (ctime, created) = read_if::<Moment>(img, changed, bits / 2 / 2 % 2)?;
    let (created_at, attributes) = read_if::<Moment>(img, created, bits / 2 / 2 / 2 % 2)?;
    let (xattrs, next) = read_if::<Changes>(img, attributes, bits / 2 / 2 / 2 / 2)?;
    let fields = AttrDelta {
        atime,
        mtime,
        ctime,
        created_at,
        xattrs,
        ..words
    };
    Ok((fields, next))
}
