// The node of a stack with its records folded in, and how it is written.
ghost use Rattle.std.specs.Prelude.{◌≡◌};
ghost use Rattle.wire.specs.Put.{Put};
ghost use Rattle.fold.specs.Lists.{merged_bytes};
ghost use Rattle.fold.specs.FoldedNodes.{AttributesAfter, EntriesAfter, WithDelta, FoldsDelta, StartsNode, FoldsRecord, entries_from, FoldsBase};
ghost use Rattle.fold.specs.FoldedNodes.{ShowsIf, folded_in, FoldsTo, origin_bytes, PutsBody, bytes_if};

use crate::list::put_merged;
use apply::node::{apply_to_node, initial_node};
use deltas::delta::{EntryDelta, NodeDelta};
use gather::gather::{Listing, of_type};
use image::kind::FileType;
use nodes::node::{Node, NodeKind};
use records::write_node::put_body;
use stack::stack::Stack;
use wire::number::put_number;
use wire::part::Part;
use wire::put::put_part;
use writers::write_attr::put_inode_meta;

// Where a list of a folded node comes from. Not overlay's `NewList`: there rows of one list change, here a stack's lists are merged.
#[derive(Clone, Copy)]
pub enum Origin {
    // it is that of the base node, as it stands in the image
    Base(Part),
    // it is empty
    Nothing,
    // the lists of the stack make it
    Merged,
}

// A node of a stack. Its lists are beside it.
#[derive(Clone, Copy)]
pub struct Folded {
    pub node: Node,
    pub attributes: Origin,
    pub entries: Origin,
}

// Attribute changes make the attributes; without any they stay.
fn attributes_after(delta: NodeDelta, origin: Origin) -> Origin
    ensures { AttributesAfter delta origin result }
{
    match delta.attr_delta().xattrs {
        Some(_) => Origin::Merged,
        None => origin,
    }
}

// A directory's delta makes the entries; after another they stay.
fn entries_after(delta: NodeDelta, origin: Origin) -> Origin
    ensures { EntriesAfter delta origin result }
{
    match delta {
        NodeDelta::Directory(_) => Origin::Merged,
        _ => origin,
    }
}

// A delta applied, whatever its kind.
fn with_delta(delta: NodeDelta, below: Folded) -> Folded
    ensures { WithDelta delta below result }
{
    Folded {
        node: apply_to_node(delta, below.node),
        attributes: attributes_after(delta, below.attributes),
        entries: entries_after(delta, below.entries),
    }
}

// A delta of the node's kind is applied; one of another kind does nothing.
fn fold_delta(delta: NodeDelta, below: Folded) -> Folded
    ensures { FoldsDelta delta below result }
{
    if of_type(delta, below.node.kind.file_type()) {
        return with_delta(delta, below);
    }
    below
}

// A delta on nothing starts a node of initial values without lists, and is applied.
fn start_node(delta: NodeDelta) -> Folded
    ensures { StartsNode delta result }
{
    let first = Folded {
        node: initial_node(delta),
        attributes: Origin::Nothing,
        entries: Origin::Nothing,
    };
    with_delta(delta, first)
}

// A tombstone clears.
fn fold_record(entry: EntryDelta, below: Option<Folded>) -> Option<Folded>
    ensures { FoldsRecord entry below result }
{
    match entry {
        EntryDelta::Node(delta) => match below {
            Some(node) => Some(fold_delta(delta, node)),
            None => Some(start_node(delta)),
        },
        EntryDelta::Tombstone => None,
    }
}

// Where the entries of a base node stand; only a directory has any.
fn entries_in(kind: NodeKind) -> Origin
    ensures { result ≡ entries_from kind }
{
    kind.entries().map_or(Origin::Nothing, Origin::Base)
}

// The base node, if there is one, with its lists as they stand.
fn fold_base(base: Option<Node>) -> Option<Folded>
    ensures { FoldsBase base result }
{
    base.map(|node| Folded {
        node,
        attributes: Origin::Base(node.meta.xattrs),
        entries: entries_in(node.kind),
    })
}

// From the bottom: the base node, and what each record makes of it. `shown_attr` of crate `layers` is the other fold from the bottom. No trait
// for the two: each has one use.
pub fn folded_node(stack: Stack) -> Option<Folded>
    ensures { ShowsIf stack.entry.img.now result (folded_in stack.entry) }
{
    let mut node = fold_base(stack.base());
    for i in 0..stack.places.count {
        node = fold_record(stack.record(i), node);
    }
    node
}

// Writes a list of a node of the type.
fn put_folded_list(
    buf: &mut [u8],
    at: usize,
    stack: Stack,
    listing: Listing,
    file_type: FileType,
    origin: Origin,
) -> usize
    ensures { Put buf.old at (origin_bytes stack.entry.img.now origin (merged_bytes listing stack.entry file_type)) result buf.new }
{
    match origin {
        Origin::Base(part) => put_part(buf, at, stack.img, part),
        Origin::Nothing => put_number(buf, at, 0),
        Origin::Merged => put_merged(buf, at, stack, listing, file_type),
    }
}

// Writes what a node has by its kind.
fn put_folded_body(
    buf: &mut [u8],
    at: usize,
    stack: Stack,
    kind: NodeKind,
    entries: Origin,
) -> usize
    ensures { PutsBody stack.entry kind entries buf.old at result buf.new }
{
    match kind {
        NodeKind::Directory { parent, entries: _ } => {
            let list = put_number(buf, at, parent);
            put_folded_list(
                buf,
                list,
                stack,
                Listing::Entries,
                FileType::Directory,
                entries,
            )
        }
        _ => put_body(buf, at, stack.img, kind),
    }
}

// Writes the node that fold makes of the stack, from its kind on.
pub fn put_folded(buf: &mut [u8], at: usize, stack: Stack, folded: Folded) -> usize
    requires { FoldsTo stack folded }
    ensures { Put buf.old at (bytes_if (folded_in stack.entry)) result buf.new }
{
    let kind = folded.node.kind;
    let file_type = kind.file_type();
    let start = put_number(buf, at, file_type.number());
    let list = put_inode_meta(buf, start, folded.node.meta);
    let attributes = folded.attributes;
    let body = put_folded_list(buf, list, stack, Listing::Attributes, file_type, attributes);
    put_folded_body(buf, body, stack, kind, folded.entries)
}
