// The record of a layer, from its code on.
ghost use Rattle.std.specs.Prelude.{◌≡◌, List, ℕ};
ghost use Rattle.image.specs.Meaning.{Special, directory, special, changed_kind};
ghost use Rattle.image.specs.FileTypes.{kind_meant};
ghost use Rattle.deltas.specs.Deltas.{attr_of, change_meant, Makes, ReadsDelta, ReadsEntry};

use image::field::{Inode, Size, Target, Word};
use image::kind::{FileType, read_code};
use image::name::Under;
use nodes::attr::{AttrDelta, read_attr_delta};
use nodes::field::{ReadField, read_maybe};
use nodes::part::read_names;
use wire::fault::Fault;
use wire::part::Part;

// Added entries and removed names are lists in the image.
#[derive(Clone, Copy)]
pub struct DirectoryDelta {
    pub parent: Option<u64>,
    pub added: Part,
    pub removed: Part,
    pub attr_delta: AttrDelta,
}

#[derive(Clone, Copy)]
pub struct FileDelta {
    pub size: Option<u64>,
    pub attr_delta: AttrDelta,
}

// The target is a text in the image.
#[derive(Clone, Copy)]
pub struct SymlinkDelta {
    pub target: Option<Part>,
    pub attr_delta: AttrDelta,
}

#[derive(Clone, Copy)]
pub struct SpecialDelta {
    pub rdev: u32,
    pub attr_delta: AttrDelta,
}

#[derive(Clone, Copy)]
pub enum NodeDelta {
    Directory(DirectoryDelta),
    File(FileDelta),
    Symlink(SymlinkDelta),
    Fifo(SpecialDelta),
    CharDevice(SpecialDelta),
    BlockDevice(SpecialDelta),
    Socket(SpecialDelta),
}

// No `Option<NodeDelta>`: the project fixes this enum (document 01).
#[derive(Clone, Copy)]
pub enum EntryDelta {
    Node(NodeDelta),
    Tombstone,
}

impl NodeDelta {
    // Which of the seven kinds it is of.
    pub fn file_type(self) -> FileType
        ensures { (img : List ℕ) → kind_meant result ≡ changed_kind (change_meant img self) }
    {
        match self {
            NodeDelta::Directory(_) => FileType::Directory,
            NodeDelta::File(_) => FileType::RegularFile,
            NodeDelta::Symlink(_) => FileType::Symlink,
            NodeDelta::Fifo(_) => FileType::NamedPipe,
            NodeDelta::CharDevice(_) => FileType::CharDevice,
            NodeDelta::BlockDevice(_) => FileType::BlockDevice,
            NodeDelta::Socket(_) => FileType::Socket,
        }
    }

    // The attribute changes of a delta, whatever its kind.
    pub fn attr_delta(self) -> AttrDelta
        ensures { result ≡ attr_of self }
    {
        match self {
            NodeDelta::Directory(directory) => directory.attr_delta,
            NodeDelta::File(file) => file.attr_delta,
            NodeDelta::Symlink(symlink) => symlink.attr_delta,
            NodeDelta::Fifo(special)
            | NodeDelta::CharDevice(special)
            | NodeDelta::BlockDevice(special)
            | NodeDelta::Socket(special) => special.attr_delta,
        }
    }
}

// The record at `at`, from its code on, and the place after it.
pub fn read_entry_delta(img: &[u8], at: usize) -> Result<(EntryDelta, usize), Fault>
    ensures { ReadsEntry img.now at result }
{
    let (code, start) = read_code(img, at)?;
    let Some(kind) = code else {
        return Ok((EntryDelta::Tombstone, start));
    };
    let (attr_delta, change) = read_attr_delta(img, start)?;
    let (delta, next) = read_node_delta(img, change, kind, attr_delta)?;
    Ok((EntryDelta::Node(delta), next))
}

// Reads a delta of this kind, whose attributes are read already.
fn read_node_delta(
    img: &[u8],
    at: usize,
    kind: FileType,
    attr_delta: AttrDelta,
) -> Result<(NodeDelta, usize), Fault>
    ensures { ReadsDelta img.now (kind_meant kind) attr_delta at result }
{
    match kind {
        FileType::Directory => read_directory_delta(img, at, attr_delta),
        FileType::RegularFile => {
            let (size, next) = read_maybe::<Size>(img, at)?;
            Ok((NodeDelta::File(FileDelta { size, attr_delta }), next))
        }
        FileType::Symlink => {
            let (target, next) = read_maybe::<Target>(img, at)?;
            let delta = SymlinkDelta { target, attr_delta };
            Ok((NodeDelta::Symlink(delta), next))
        }
        FileType::NamedPipe => read_special(img, at, attr_delta, NodeDelta::Fifo),
        FileType::CharDevice => read_special(img, at, attr_delta, NodeDelta::CharDevice),
        FileType::BlockDevice => read_special(img, at, attr_delta, NodeDelta::BlockDevice),
        FileType::Socket => read_special(img, at, attr_delta, NodeDelta::Socket),
    }
}

// Reads a device number; `make` makes a delta of one of the special kinds of it.
fn read_special<M: FnOnce(SpecialDelta) -> NodeDelta>(
    img: &[u8],
    at: usize,
    attr_delta: AttrDelta,
    make: M,
) -> Result<(NodeDelta, usize), Fault>
    requires { M.IsAlwaysCallable make }
    ensures { (s : Special) → Makes s (M.post make) → ReadsDelta img.now (special s) attr_delta at result }
{
    let (rdev, next) = Word::read(img, at)?;
    Ok((make(SpecialDelta { rdev, attr_delta }), next))
}

fn read_directory_delta(
    img: &[u8],
    at: usize,
    attr_delta: AttrDelta,
) -> Result<(NodeDelta, usize), Fault>
    ensures { ReadsDelta img.now directory attr_delta at result }
{
    let (parent, entries) = read_maybe::<Inode>(img, at)?;
    let (added, names) = read_names(img, entries, Under::Inode)?;
    let (removed, next) = read_names(img, names, Under::Nothing)?;
    let delta = DirectoryDelta {
        parent,
        added,
        removed,
        attr_delta,
    };
    Ok((NodeDelta::Directory(delta), next))
}
