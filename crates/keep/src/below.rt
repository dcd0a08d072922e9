// What names lead to in a stack, all at once: its lists as sources, the topmost first.
ghost use Rattle.std.specs.Prelude.{◌≡◌, [], ◌∷◌};
ghost use Rattle.image.specs.declared.name.Under.TheVariants as U;
ghost use Rattle.merge.specs.Sources.{list_rows};
ghost use Rattle.merge.specs.Merges.{rows_in};
ghost use Rattle.keep.specs.Below.{LeadsBy, Leads};

use deltas::delta::{DirectoryDelta, EntryDelta, NodeDelta};
use image::name::Under;
use lookup::child::base_entries;
use merge::merge::AtMostTwo;
use merge::read::source_at;
use merge::sources::{Lists, Sources};
use stack::stack::Stack;

// A child lookup asks what a delta removes before what it adds. So this is no `change_lists` (gather), which has the two the other way round:
// there what is added is over what is removed, and only here is it asked in this order.
fn directory_lists(img: &[u8], directory: DirectoryDelta) -> AtMostTwo
    ensures { rows_in img.now result ≡ list_rows img.now U.Nothing directory.removed.start ∷ (list_rows img.now U.Inode directory.added.start ∷ []) }
{
    let over = source_at(img, directory.removed.start, Under::Nothing);
    let under = source_at(img, directory.added.start, Under::Inode);
    AtMostTwo::Two { over, under }
}

// The lists of the names that lead somewhere: down to a tombstone, another kind or the base.
// Not `gather_lists`: a child lookup ends at a delta of another kind, and a removed name is over an added one.
fn lists_down(stack: Stack) -> Lists
    ensures { LeadsBy stack.entry result }
{
    let mut all = Lists::new();
    for i in (0..stack.places.count).rev() {
        let EntryDelta::Node(NodeDelta::Directory(directory)) = stack.record(i) else {
            return all;
        };
        all.push(directory_lists(stack.img, directory));
    }
    let Some(entries) = base_entries(stack) else {
        return all;
    };
    let lowest = source_at(stack.img, entries.place.start, Under::Inode);
    all.push(AtMostTwo::One(lowest));
    all
}

// The same lists as sources: the names of each rise.
pub fn names_in(stack: Stack) -> Sources
    ensures { Leads stack.entry result }
{
    Sources {
        img: stack.img,
        lists: lists_down(stack),
    }
}
