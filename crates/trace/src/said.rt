// What one layer of a stack says of a name in a directory, and the layer that decides a lookup.
ghost use Rattle.std.specs.Prelude.{◌≡◌, ◌<◌, IfSome};
ghost use Rattle.image.specs.declared.name.Under.TheVariants as U;
ghost use Rattle.trace.specs.Said.{SaysList, SaysRecord, SaysBase, Decides};

use image::field::Inode;
use lookup::child::{base_entries, entries_at};
use lookup::list::NameList;
use nodes::field::ReadField;
use stack::stack::Stack;

// Nothing, so that the layers below are asked; that there is no such child; or its inode. No `ControlFlow<Option<u64>>`: the program shows each
// of the three in words.
#[derive(Clone, Copy)]
pub enum Said {
    Nothing,
    NoChild,
    Child(u64),
}

// What the entries of a layer say; without any it decides that there is no such child.
#[tactic(auto, using(crate::proofs::Saying::entry_found))]
fn said_in(entries: Option<NameList>, name: &[u8]) -> Said
    requires { IfSome entries (λ list. list.what ≡ U.Inode) }
    ensures { SaysList entries.entry name.now result }
{
    let Some(list) = entries else {
        return Said::NoChild;
    };
    match list.find(name) {
        Some(at) => {
            let (inode, _) = Inode::read(list.img, at).unwrap();
            Said::Child(inode)
        }
        None => Said::Nothing,
    }
}

// What one record of a stack says. Records are counted from the lowest.
#[tactic(auto, using(crate::proofs::Saying::says))]
pub fn says_at(stack: Stack, i: usize, name: &[u8]) -> Said
    requires { i < stack.places.count }
    ensures { SaysRecord stack.entry.img.now stack.entry.places name.now i result }
{
    said_in(entries_at(stack, i + 1, name), name)
}

// What the base says. Not one function with `says_at`: below the base there is nothing to ask, which its contract says.
pub fn base_says(stack: Stack, name: &[u8]) -> Said
    ensures { SaysBase stack.entry.img.now stack.entry.places name.now result }
{
    said_in(base_entries(stack), name)
}

// The layer that decides: the topmost that says something. Layers are numbered as in `child_in`: record i is i + 1, the base 0.
pub fn deciding(stack: Stack, name: &[u8]) -> usize
    ensures { Decides stack.entry.img.now stack.entry.places name.now result }
{
    for i in (0..stack.places.count).rev() {
        if !matches!(says_at(stack, i, name), Said::Nothing) {
            return i + 1;
        }
    }
    0
}
