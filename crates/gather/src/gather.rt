// The sources of a stack, from the top: of each record the lists that say something of names, down to a tombstone or the base.
ghost use Rattle.std.specs.Prelude.{ℕ, ◌≡◌, List};
ghost use Rattle.image.specs.Meaning.{changed_kind};
ghost use Rattle.deltas.specs.Deltas.{change_meant};
ghost use Rattle.rules.specs.Fold.{same_kind};
ghost use Rattle.image.specs.FileTypes.{kind_meant};
ghost use Rattle.merge.specs.Merges.{rows_in};
ghost use Rattle.gather.specs.Lists.{is_of, change_lists, alter_lists, delta_lists, node_lists, base_lists};
ghost use Rattle.gather.specs.Gathers.{GathersLists, Gathers};

use deltas::delta::{EntryDelta, NodeDelta};
use image::kind::FileType;
use image::name::Under;
use merge::merge::{AtMostTwo, list_if};
use merge::read::source_at;
use merge::sources::{Lists, Sources};
use nodes::node::Node;
use stack::stack::Stack;

// The names of a directory's entries, or those of the attributes. The type (`of`) is a parameter beside it: crate `rows` lists without
// one; in `Attributes`, three functions there would have to require that there is none.
#[derive(Clone, Copy)]
pub enum Listing {
    Entries,
    Attributes,
}

// Whether a delta is of the type.
pub fn of_type(delta: NodeDelta, file_type: FileType) -> bool
    ensures { (img : List ℕ) → result ≡ same_kind (changed_kind (change_meant img delta)) (kind_meant file_type) }
{
    delta.file_type() == file_type
}

// The same, if a type is given.
fn is_of(delta: NodeDelta, of: Option<FileType>) -> bool
    ensures { (img : List ℕ) → result ≡ is_of of (change_meant img delta) }
{
    of.is_none_or(|file_type| of_type(delta, file_type))
}

// What a directory delta adds is over what it removes.
fn change_lists(img: &[u8], delta: NodeDelta) -> AtMostTwo
    ensures { rows_in img.now result ≡ change_lists img.now delta }
{
    let NodeDelta::Directory(directory) = delta else {
        return AtMostTwo::None;
    };
    let over = source_at(img, directory.added.start, Under::Inode);
    let under = source_at(img, directory.removed.start, Under::Nothing);
    AtMostTwo::Two { over, under }
}

// The attribute changes of a delta, if it is of the type.
fn attribute_lists(img: &[u8], delta: NodeDelta, of: Option<FileType>) -> AtMostTwo
    ensures { rows_in img.now result ≡ alter_lists img.now of delta }
{
    if is_of(delta, of) {
        return list_if(img, delta.attr_delta().xattrs, Under::Change);
    }
    AtMostTwo::None
}

// A `match`: a trait for the two listings would have the same arms in two impls, here and in `node_lists`.
fn delta_lists(img: &[u8], delta: NodeDelta, listing: Listing, of: Option<FileType>) -> AtMostTwo
    ensures { rows_in img.now result ≡ delta_lists img.now listing of delta }
{
    match listing {
        Listing::Entries => change_lists(img, delta),
        Listing::Attributes => attribute_lists(img, delta, of),
    }
}

fn node_lists(img: &[u8], node: Node, listing: Listing) -> AtMostTwo
    ensures { rows_in img.now result ≡ node_lists img.now listing node }
{
    match listing {
        Listing::Entries => list_if(img, node.kind.entries(), Under::Inode),
        Listing::Attributes => {
            AtMostTwo::One(source_at(img, node.meta.xattrs.start, Under::Value))
        }
    }
}

fn base_lists(img: &[u8], base: Option<Node>, listing: Listing) -> AtMostTwo
    ensures { rows_in img.now result ≡ base_lists img.now listing base }
{
    base.map_or(AtMostTwo::None, |node| node_lists(img, node, listing))
}

// The lists of a stack; where a type is given, without the attribute changes of deltas of another. A tombstone clears: nothing below it is
// listed.
#[tactic(auto, using(crate::proofs::Gathering::gathers))]
fn gather_lists(stack: Stack, listing: Listing, of: Option<FileType>) -> Lists
    ensures { GathersLists stack.entry listing of result }
{
    let mut all = Lists::new();
    for i in (0..stack.places.count).rev() {
        let EntryDelta::Node(delta) = stack.record(i) else {
            return all;
        };
        all.push(delta_lists(stack.img, delta, listing, of));
    }
    all.push(base_lists(stack.img, stack.base(), listing));
    all
}

// The same lists as sources: the names of each rise.
pub fn gather_sources(stack: Stack, listing: Listing, of: Option<FileType>) -> Sources
    ensures { Gathers stack.entry listing of result }
{
    Sources {
        img: stack.img,
        lists: gather_lists(stack, listing, of),
    }
}
