// The child of a directory by its name.
ghost use Rattle.std.specs.Prelude.{◌≤◌, ◌≡◌};
ghost use Rattle.rules.specs.Initial.{usual};
ghost use Rattle.rules.specs.Reads.{child};
ghost use Rattle.rules.specs.ReadCalls.{lookup_child};
ghost use Rattle.stack.specs.InStack.{shown_in};
ghost use Rattle.layers.specs.Answered.{answered};
ghost use Rattle.image.specs.declared.name.Under.TheVariants as U;
ghost use Rattle.lookup.specs.Lists.{IsList};
ghost use Rattle.lookup.specs.Search.{IsListOf};
ghost use Rattle.lookup.specs.Children.{EntriesAt, BaseEntries};

use crate::list::NameList;
use deltas::delta::{DirectoryDelta, EntryDelta, NodeDelta};
use image::field::Inode;
use image::name::Under;
use nodes::field::ReadField;
use stack::name::open_named;
use stack::stack::Stack;
use std::cmp::Ordering;
use survey::refusal::Refusal;
use wire::order::compare_part;

// The inode that a name leads to in a directory.
pub fn lookup_child(img: &[u8], ino: u64, name: &[u8]) -> Result<Option<u64>, Refusal>
    ensures { answered (λ inode. inode) result ≡ lookup_child usual img.now ino name.now }
{
    let stack = open_named(img, ino, name)?;
    let child = child_in(stack, name);
    Ok(child)
}

// From the top: the first layer that names the child, or removes it, decides. The base is layer 0.
// Not a `Question`: the project fixes this form, a loop over the layers from the top and one over names in it, left by a label.
fn child_in(stack: Stack, name: &[u8]) -> Option<u64>
    ensures { result ≡ shown_in (child name.now) stack.entry }
{
    let mut found = None;
    'layers: for layer in (0..=stack.places.count).rev() {
        let Some(list) = entries_at(stack, layer, name) else {
            break 'layers;
        };
        for (_, row) in list.rows() {
            match compare_part(stack.img, row.name, name) {
                Ordering::Less => {}
                Ordering::Equal => {
                    let (inode, _) = Inode::read(stack.img, row.under).unwrap();
                    found = Some(inode);
                    break 'layers;
                }
                Ordering::Greater => break,
            }
        }
    }
    found
}

// The entries that a layer adds, or those of the base. None, where the layer decides that there is no such child.
#[tactic(auto, using(crate::proofs::Children::layers))]
pub fn entries_at<'a>(stack: Stack<'a>, layer: usize, name: &[u8]) -> Option<NameList<'a>>
    requires { layer ≤ stack.places.count }
    ensures { EntriesAt stack.entry name.now layer result }
{
    if layer == 0 {
        return base_entries(stack);
    }
    let EntryDelta::Node(NodeDelta::Directory(directory)) = stack.record(layer - 1) else {
        return None;
    };
    let (added, removed) = lists_of(stack.img, directory);
    match removed.find(name) {
        Some(_) => None,
        None => Some(added),
    }
}

// The entries that a directory delta adds, and the names that it removes.
pub fn lists_of(img: &[u8], directory: DirectoryDelta) -> (NameList, NameList)
    requires { IsList img.now U.Inode directory.added × IsList img.now U.Nothing directory.removed }
    ensures { IsListOf img.now U.Inode directory.added result.0 × IsListOf img.now U.Nothing directory.removed result.1 }
{
    let added = NameList {
        img,
        place: directory.added,
        what: Under::Inode,
    };
    let removed = NameList {
        img,
        place: directory.removed,
        what: Under::Nothing,
    };
    (added, removed)
}

// The entries of a base directory.
pub fn base_entries(stack: Stack) -> Option<NameList>
    ensures { BaseEntries stack.entry result }
{
    let place = stack.base()?.kind.entries()?;
    Some(NameList {
        img: stack.img,
        place,
        what: Under::Inode,
    })
}
