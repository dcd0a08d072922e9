// The attributes of a node, and what a delta makes of attributes.
ghost use Rattle.std.specs.Prelude.{ℕ, ◌≡◌, List};
ghost use Rattle.rules.specs.Initial.{usual};
ghost use Rattle.rules.specs.Fold.{given, cut};
ghost use Rattle.rules.specs.FileAttrs.{base_attr, base_device, base_perm, base_size, change_device, first_attr};
ghost use Rattle.nodes.specs.Nodes.{body_meant, node_meant};
ghost use Rattle.deltas.specs.Deltas.{change_meant};
ghost use Rattle.image.specs.FileTypes.{kind_meant};
ghost use Rattle.attrs.specs.Meant.{attr_meant};
ghost use Rattle.attrs.specs.Attrs.{Sized, Applies, LinkIn};

use crate::node::FileAttr;
use deltas::delta::NodeDelta;
use image::kind::FileType;
use nodes::node::{Node, NodeKind};
use wire::time::Time;

// Initial permission and links of each type, by its number: directory, file, symlink, pipe, character, block, socket. The project fixes this form, an
// array of arrays (docs/DECISIONS.md).
const INITIAL: [[u32; 2]; 7] = [
    [0o755, 2],
    [0o644, 1],
    [0o777, 1],
    [0o644, 1],
    [0o660, 1],
    [0o660, 1],
    [0o777, 1],
];

// The initial permission and links of a type.
pub fn initial(file_type: FileType) -> (u32, u32)
    ensures { (result.0 ≡ (usual (kind_meant file_type)).perm) × (result.1 ≡ (usual (kind_meant file_type)).links) }
{
    let [perm, links] = INITIAL[file_type.number() as usize];
    (perm, links)
}

// The device number that a delta on nothing starts with. Beside `node_rdev`: a trait for both would have the same arms in two impls.
fn delta_rdev(delta: NodeDelta) -> u32
    ensures { (img : List ℕ) → result ≡ change_device (change_meant img delta) }
{
    match delta {
        NodeDelta::CharDevice(special) | NodeDelta::BlockDevice(special) => special.rdev,
        _ => 0,
    }
}

// What a delta on nothing starts from. Beside `initial_meta` (apply), as `applied` beside `apply_to_meta`.
pub fn initial_attr(delta: NodeDelta, ino: u64) -> FileAttr
    ensures { (img : List ℕ) → attr_meant result ≡ first_attr usual ino (change_meant img delta) }
{
    let file_type = delta.file_type();
    let (perm, nlink) = initial(file_type);
    FileAttr {
        ino,
        file_type,
        perm,
        nlink,
        uid: 0,
        gid: 0,
        rdev: delta_rdev(delta),
        size: 0,
        atime: Time::EPOCH,
        mtime: Time::EPOCH,
        ctime: Time::EPOCH,
    }
}

// Of a mode only the low twelve bits count.
pub fn mode_or(option: Option<u32>, old: u32) -> u32
    ensures { result ≡ given (cut option) old }
{
    option.map_or(old, |new| new % 4096)
}

// A file's size or the length of a link's target; other deltas keep the old size.
fn size_or(delta: NodeDelta, old: u64) -> u64
    ensures { Sized delta old result }
{
    match delta {
        NodeDelta::File(file) => file.size.unwrap_or(old),
        NodeDelta::Symlink(symlink) => symlink.target.map_or(old, |text| text.length as u64),
        _ => old,
    }
}

// The attributes with the fields that a delta has; type and device stay.
#[tactic(auto, using(crate::proofs::Others::over_old))]
pub fn applied(delta: NodeDelta, attr: FileAttr) -> FileAttr
    ensures { Applies delta attr result }
{
    let change = delta.attr_delta();
    FileAttr {
        perm: mode_or(change.mode, attr.perm),
        nlink: change.nlink.unwrap_or(attr.nlink),
        uid: change.uid.unwrap_or(attr.uid),
        gid: change.gid.unwrap_or(attr.gid),
        size: size_or(delta, attr.size),
        atime: change.atime.unwrap_or(attr.atime),
        mtime: change.mtime.unwrap_or(attr.mtime),
        ctime: change.ctime.unwrap_or(attr.ctime),
        ..attr
    }
}

// The same, in place. The project fixes this form, for a caller of its own (docs/DECISIONS.md).
pub fn apply_to_attr(delta: NodeDelta, attr: &mut FileAttr)
    ensures { Applies delta attr.old attr.new }
{
    *attr = applied(delta, *attr);
}

// A base link's permission is 777, whatever is stored.
fn node_perm(kind: NodeKind, perm: u32) -> u32
    ensures { (img : List ℕ) → result ≡ base_perm (body_meant img kind) perm }
{
    match kind {
        NodeKind::Symlink { .. } => 0o777,
        _ => perm,
    }
}

fn node_rdev(kind: NodeKind) -> u32
    ensures { (img : List ℕ) → result ≡ base_device (body_meant img kind) }
{
    match kind {
        NodeKind::CharDevice { rdev } | NodeKind::BlockDevice { rdev } => rdev,
        _ => 0,
    }
}

// A file's size, or the length of a link's target.
fn node_size(kind: NodeKind) -> u64
    ensures { (img : List ℕ) → LinkIn img kind → result ≡ base_size (body_meant img kind) }
{
    match kind {
        NodeKind::File { size } => size,
        NodeKind::Symlink { target } => target.length as u64,
        _ => 0,
    }
}

// The attributes of a base node.
pub fn node_attr(node: Node, ino: u64) -> FileAttr
    ensures { (img : List ℕ) → LinkIn img node.kind → Some (attr_meant result) ≡ base_attr ino (Some (node_meant img node)) }
{
    let meta = node.meta;
    let kind = node.kind;
    FileAttr {
        ino,
        file_type: kind.file_type(),
        perm: node_perm(kind, meta.perm),
        nlink: meta.nlink,
        uid: meta.uid,
        gid: meta.gid,
        rdev: node_rdev(kind),
        size: node_size(kind),
        atime: meta.atime,
        mtime: meta.mtime,
        ctime: meta.ctime,
    }
}
