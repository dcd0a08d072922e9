// What deltas make of the fields of a node. Its lists, the entries and the extended attributes, are merged elsewhere (merge).
ghost use Rattle.std.specs.Prelude.{◌≡◌};
ghost use Rattle.apply.specs.Folded.{FirstMeta, AppliesMeta, FirstKind, AppliesKind, FirstNode, AppliesNode};

use attrs::attr::{initial, mode_or};
use deltas::delta::NodeDelta;
use nodes::attr::AttrDelta;
use nodes::node::{InodeMeta, Node, NodeKind};
use wire::part::Part;
use wire::time::Time;

// The initial permission and links of a delta's kind; owner, group and times are 0.
fn initial_meta(delta: NodeDelta) -> InodeMeta
    ensures { FirstMeta delta result }
{
    let (perm, nlink) = initial(delta.file_type());
    InodeMeta {
        perm,
        nlink,
        uid: 0,
        gid: 0,
        atime: Time::EPOCH,
        mtime: Time::EPOCH,
        ctime: Time::EPOCH,
        xattrs: Part::EMPTY,
    }
}

// The old fields, but those that the delta sets are as it says. A node has no created time, so that of the delta is dropped. `applied` (attrs)
// does the same to a `FileAttr`. There are two functions since there are two structs: an `InodeMeta` is what the image has of a node, and a
// `FileAttr` is what a caller is shown; the project fixes the fields of both.
#[tactic(auto, using(attrs::proofs::Others::over_old))]
fn apply_to_meta(change: AttrDelta, meta: InodeMeta) -> InodeMeta
    ensures { AppliesMeta change meta result }
{
    InodeMeta {
        perm: mode_or(change.mode, meta.perm),
        nlink: change.nlink.unwrap_or(meta.nlink),
        uid: change.uid.unwrap_or(meta.uid),
        gid: change.gid.unwrap_or(meta.gid),
        atime: change.atime.unwrap_or(meta.atime),
        mtime: change.mtime.unwrap_or(meta.mtime),
        ctime: change.ctime.unwrap_or(meta.ctime),
        ..meta
    }
}

// A new node of a delta's kind: parent 1, size 0, an empty target, the delta's device number.
fn initial_kind(delta: NodeDelta) -> NodeKind
    ensures { FirstKind delta result }
{
    match delta {
        NodeDelta::Directory(_) => NodeKind::Directory {
            parent: 1,
            entries: Part::EMPTY,
        },
        NodeDelta::File(_) => NodeKind::File { size: 0 },
        NodeDelta::Symlink(_) => NodeKind::Symlink {
            target: Part::EMPTY,
        },
        NodeDelta::Fifo(_) => NodeKind::Fifo,
        NodeDelta::CharDevice(special) => NodeKind::CharDevice { rdev: special.rdev },
        NodeDelta::BlockDevice(special) => NodeKind::BlockDevice { rdev: special.rdev },
        NodeDelta::Socket(_) => NodeKind::Socket,
    }
}

// The fields that only one kind has, as a delta of that kind changes them; a delta of another kind changes nothing. A device number stays.
fn apply_to_kind(delta: NodeDelta, kind: NodeKind) -> NodeKind
    ensures { AppliesKind delta kind result }
{
    match (delta, kind) {
        (NodeDelta::Directory(directory), NodeKind::Directory { parent, entries }) => {
            NodeKind::Directory {
                parent: directory.parent.unwrap_or(parent),
                entries,
            }
        }
        (NodeDelta::File(file), NodeKind::File { size }) => NodeKind::File {
            size: file.size.unwrap_or(size),
        },
        (NodeDelta::Symlink(symlink), NodeKind::Symlink { target }) => NodeKind::Symlink {
            target: symlink.target.unwrap_or(target),
        },
        _ => kind,
    }
}

// A node of initial values, which a delta on nothing starts from.
pub fn initial_node(delta: NodeDelta) -> Node
    ensures { FirstNode delta result }
{
    Node {
        meta: initial_meta(delta),
        kind: initial_kind(delta),
    }
}

// The node with what a delta sets.
pub fn apply_to_node(delta: NodeDelta, node: Node) -> Node
    ensures { AppliesNode delta node result }
{
    let change = delta.attr_delta();
    Node {
        meta: apply_to_meta(change, node.meta),
        kind: apply_to_kind(delta, node.kind),
    }
}
