// Writers of whole records and nodes. Their lists and texts are copied from the image that they stand in.
ghost use Rattle.wire.specs.Put.{Put};
ghost use Rattle.records.specs.Records.{list_bytes, directory_bytes, change_bytes, entry_bytes, body_bytes, node_bytes};

use deltas::delta::{DirectoryDelta, EntryDelta, NodeDelta};
use image::field::{Inode, Size, Target};
use nodes::node::{Node, NodeKind};
use wire::number::put_number;
use wire::part::Part;
use wire::put::put_part;
use writers::field::{PutField, put_maybe};
use writers::write_attr::{put_attr_delta, put_inode_meta};

// Writes a record, from its code on. For a caller of this crate: the calls write what changes, and copy the rest.
pub fn put_entry_delta(buf: &mut [u8], at: usize, img: &[u8], delta: EntryDelta) -> usize
    ensures { Put buf.old at (entry_bytes img.now delta) result buf.new }
{
    match delta {
        EntryDelta::Node(node) => {
            let start = put_number(buf, at, node.file_type().code());
            let attr = node.attr_delta();
            let list = put_attr_delta(buf, start, attr);
            let change = put_list_if(buf, list, img, attr.xattrs);
            put_change(buf, change, img, node)
        }
        EntryDelta::Tombstone => put_number(buf, at, 0),
    }
}

// Copies the bytes of a list, if it is there. No `PutField`: its clause says that a list is written, and nothing
// here says that these bytes are one.
pub fn put_list_if(buf: &mut [u8], at: usize, img: &[u8], option: Option<Part>) -> usize
    ensures { Put buf.old at (list_bytes img.now option) result buf.new }
{
    match option {
        Some(list) => put_part(buf, at, img, list),
        None => at,
    }
}

// Writes what a delta changes by its kind.
fn put_change(buf: &mut [u8], at: usize, img: &[u8], delta: NodeDelta) -> usize
    ensures { Put buf.old at (change_bytes img.now delta) result buf.new }
{
    match delta {
        NodeDelta::Directory(directory) => put_directory(buf, at, img, directory),
        NodeDelta::File(file) => put_maybe::<Size>(buf, at, img, file.size),
        NodeDelta::Symlink(symlink) => put_maybe::<Target>(buf, at, img, symlink.target),
        NodeDelta::Fifo(special)
        | NodeDelta::CharDevice(special)
        | NodeDelta::BlockDevice(special)
        | NodeDelta::Socket(special) => put_number(buf, at, special.rdev as u64),
    }
}

// Writes a parent that may be there, added entries and removed names.
fn put_directory(buf: &mut [u8], at: usize, img: &[u8], directory: DirectoryDelta) -> usize
    ensures { Put buf.old at (directory_bytes img.now directory) result buf.new }
{
    let entries = put_maybe::<Inode>(buf, at, img, directory.parent);
    let names = put_part(buf, entries, img, directory.added);
    put_part(buf, names, img, directory.removed)
}

// Writes a node of the base, from its kind on. For a caller of this crate, as `put_entry_delta`.
pub fn put_node(buf: &mut [u8], at: usize, img: &[u8], node: Node) -> usize
    ensures { Put buf.old at (node_bytes img.now node) result buf.new }
{
    let start = put_number(buf, at, node.kind.file_type().number());
    let list = put_inode_meta(buf, start, node.meta);
    let body = put_part(buf, list, img, node.meta.xattrs);
    put_body(buf, body, img, node.kind)
}

// Writes what a node has by its kind.
pub fn put_body(buf: &mut [u8], at: usize, img: &[u8], kind: NodeKind) -> usize
    ensures { Put buf.old at (body_bytes img.now kind) result buf.new }
{
    match kind {
        NodeKind::Directory { parent, entries } => {
            let list = put_number(buf, at, parent);
            put_part(buf, list, img, entries)
        }
        NodeKind::File { size } => put_number(buf, at, size),
        NodeKind::Symlink { target } => Target::put(buf, at, img, target),
        NodeKind::CharDevice { rdev } | NodeKind::BlockDevice { rdev } => {
            put_number(buf, at, rdev as u64)
        }
        NodeKind::Fifo | NodeKind::Socket => at,
    }
}
