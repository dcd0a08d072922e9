// A record of the layer, held against its stack below.
ghost use Rattle.std.specs.Prelude.{◌<◌, ◌≡◌};
ghost use Rattle.wire.specs.Put.{Put};
ghost use Rattle.image.specs.RecordLayout.{layer_record};
ghost use Rattle.deltas.specs.Deltas.{entry_meant};
ghost use Rattle.deltas.specs.declared.delta.EntryDelta.TheVariants as E;
ghost use Rattle.deltas.specs.declared.delta.NodeDelta.TheVariants as D;
ghost use Rattle.stack.specs.Stacks.{RecordIs};
ghost use Rattle.walk.specs.Walks.{pieces_in};
ghost use Rattle.normalize.specs.Records.{normal_in, normal_pieces, Copies};

use change::copy::put_between;
use deltas::delta::{DirectoryDelta, EntryDelta, NodeDelta};
use image::kind::FileType;
use keep::below::names_in;
use keep::keep::put_kept_lists;
use lookup::child::lists_of;
use passes::record::pass_record;
use stack::file_type::Type;
use stack::question::decided;
use stack::stack::Stack;
use survey::batch::InodeLayerStack;
use wire::number::put_number;

// Writes a directory delta: as it stands up to its lists, and then what stays of them.
fn put_normal_directory(
    buf: &mut [u8],
    at: usize,
    place: usize,
    directory: DirectoryDelta,
    below: Stack,
) -> usize
    requires { RecordIs below.img.now place (E.Node (D.Directory directory)) }
    ensures { Put buf.old at (layer_record.write (normal_in below.entry (entry_meant below.entry.img.now (E.Node (D.Directory directory))))) result buf.new }
{
    let img = below.img;
    let added = directory.added.start;
    let head = put_between(buf, at, img, place, added);
    let is_directory = decided(below, &Type) == Some(FileType::Directory);
    if is_directory {
        let mut leading = names_in(below);
        let (entries, names) = lists_of(img, directory);
        return put_kept_lists(buf, head, entries, names, &mut leading);
    }
    let next = put_between(buf, head, img, added, directory.removed.start);
    put_number(buf, next, 0)
}

// Writes a record as it stands.
fn put_record(buf: &mut [u8], at: usize, img: &[u8], place: usize) -> usize
    ensures { Copies img.now place buf.old at result buf.new }
{
    let end = pass_record(img, place).unwrap_or(0);
    put_between(buf, at, img, place, end)
}

// Writes the topmost record of a stack: as it stands, unless it is a directory delta.
pub fn put_normal_record(buf: &mut [u8], at: usize, stack: Stack) -> usize
    requires { 0 < stack.places.count }
    ensures { Put buf.old at (layer_record.write (normal_pieces (pieces_in stack.entry))) result buf.new }
{
    let top = stack.places.count - 1;
    let place = stack.places.deltas[top];
    let EntryDelta::Node(NodeDelta::Directory(directory)) = stack.record(top) else {
        return put_record(buf, at, stack.img, place);
    };
    let below = Stack {
        img: stack.img,
        places: InodeLayerStack {
            count: top,
            ..stack.places
        },
    };
    put_normal_directory(buf, at, place, directory, below)
}
