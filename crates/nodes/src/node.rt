// A node of the base by value.
ghost use Rattle.std.specs.Prelude.{◌≤◌, ◌≡◌, ℕ, List, length};
ghost use Rattle.image.specs.Meaning.{directory, kind_of};
ghost use Rattle.image.specs.FileTypes.{kind_meant};
ghost use Rattle.nodes.specs.Nodes.{body_meant, entries_in, ReadsMeta, ReadsKind, ReadsNode};

use crate::field::ReadField;
use crate::part::read_names;
use image::field::{Inode, Moment, Size, Target, Word};
use image::kind::{FileType, read_file_type};
use image::name::Under;
use wire::fault::Fault;
use wire::part::Part;
use wire::time::Time;

// The extended attributes are a list in the image.
#[derive(Clone, Copy)]
pub struct InodeMeta {
    pub perm: u32,
    pub nlink: u32,
    pub uid: u32,
    pub gid: u32,
    pub atime: Time,
    pub mtime: Time,
    pub ctime: Time,
    pub xattrs: Part,
}

// What a node has by its kind. Entries are a list in the image, a target is a text there.
#[derive(Clone, Copy)]
pub enum NodeKind {
    Directory { parent: u64, entries: Part },
    File { size: u64 },
    Symlink { target: Part },
    Fifo,
    CharDevice { rdev: u32 },
    BlockDevice { rdev: u32 },
    Socket,
}

impl NodeKind {
    // Which of the seven kinds it is.
    pub fn file_type(self) -> FileType
        ensures { (img : List ℕ) → kind_meant result ≡ kind_of (body_meant img self) }
    {
        match self {
            NodeKind::Directory { .. } => FileType::Directory,
            NodeKind::File { .. } => FileType::RegularFile,
            NodeKind::Symlink { .. } => FileType::Symlink,
            NodeKind::Fifo => FileType::NamedPipe,
            NodeKind::CharDevice { .. } => FileType::CharDevice,
            NodeKind::BlockDevice { .. } => FileType::BlockDevice,
            NodeKind::Socket => FileType::Socket,
        }
    }

    // The entries; only a directory has any.
    pub fn entries(self) -> Option<Part>
        ensures { result ≡ entries_in self }
    {
        match self {
            NodeKind::Directory { parent: _, entries } => Some(entries),
            _ => None,
        }
    }
}

#[derive(Clone, Copy)]
pub struct Node {
    pub meta: InodeMeta,
    pub kind: NodeKind,
}

// The node at `at`, from its kind on, and the place after it.
#[tactic(auto, using(crate::proofs::Nodes::nodes))]
pub fn read_node(img: &[u8], at: usize) -> Result<(Node, usize), Fault>
    ensures { ReadsNode img.now at result }
{
    let (file_type, start) = read_file_type(img, at)?;
    let (meta, middle) = read_meta(img, start)?;
    let (kind, next) = read_kind(img, middle, file_type)?;
    Ok((Node { meta, kind }, next))
}

// Permission, links, owner, group, three times and the attributes.
#[tactic(auto, unfolding(image::specs::NodeLayout::meta))]
fn read_meta(img: &[u8], at: usize) -> Result<(InodeMeta, usize), Fault>
    ensures { ReadsMeta img.now at result }
{
    let (perm, links) = Word::read(img, at)?;
    let (nlink, owner) = Word::read(img, links)?;
    let (uid, group) = Word::read(img, owner)?;
    let (gid, accessed) = Word::read(img, group)?;
    let (atime, modified) = Moment::read(img, accessed)?;
    let (mtime, changed) = Moment::read(img, modified)?;
    let (ctime, attributes) = Moment::read(img, changed)?;
    let (xattrs, next) = read_names(img, attributes, Under::Value)?;
    let meta = InodeMeta {
        perm,
        nlink,
        uid,
        gid,
        atime,
        mtime,
        ctime,
        xattrs,
    };
    Ok((meta, next))
}

// What a node of this kind has of its own. The place is in the image, as in `pass_under`. Two arms of two lines for the devices: a reader that took
// the constructor would be longer.
fn read_kind(img: &[u8], at: usize, kind: FileType) -> Result<(NodeKind, usize), Fault>
    requires { at ≤ length img.now }
    ensures { ReadsKind img.now (kind_meant kind) at result }
{
    match kind {
        FileType::Directory => read_directory(img, at),
        FileType::RegularFile => {
            let (size, next) = Size::read(img, at)?;
            Ok((NodeKind::File { size }, next))
        }
        FileType::Symlink => {
            let (target, next) = Target::read(img, at)?;
            Ok((NodeKind::Symlink { target }, next))
        }
        FileType::NamedPipe => Ok((NodeKind::Fifo, at)),
        FileType::CharDevice => {
            let (rdev, next) = Word::read(img, at)?;
            Ok((NodeKind::CharDevice { rdev }, next))
        }
        FileType::BlockDevice => {
            let (rdev, next) = Word::read(img, at)?;
            Ok((NodeKind::BlockDevice { rdev }, next))
        }
        FileType::Socket => Ok((NodeKind::Socket, at)),
    }
}

// Parent and entries.
fn read_directory(img: &[u8], at: usize) -> Result<(NodeKind, usize), Fault>
    ensures { ReadsKind img.now directory at result }
{
    let (parent, here) = Inode::read(img, at)?;
    let (entries, next) = read_names(img, here, Under::Inode)?;
    Ok((NodeKind::Directory { parent, entries }, next))
}
