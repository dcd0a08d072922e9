// The attributes that a stack shows.
ghost use Rattle.std.specs.Prelude.{◌≡◌, List, ℕ};
ghost use Rattle.rules.specs.Initial.{usual};
ghost use Rattle.rules.specs.FileAttrs.{attributes, base_attr, step_attr};
ghost use Rattle.rules.specs.ReadCalls.{attr};
ghost use Rattle.deltas.specs.Deltas.{entry_meant};
ghost use Rattle.layers.specs.Attrs.{EntryTargetIn, BaseLinkIn, attr_if};
ghost use Rattle.layers.specs.Answered.{answered};
ghost use Rattle.stack.specs.Stacks.{node_meant_if};
ghost use Rattle.stack.specs.InStack.{shown_in};

use attrs::attr::{applied, initial_attr, node_attr};
use attrs::node::FileAttr;
use deltas::delta::EntryDelta;
use nodes::node::Node;
use stack::open::open_image;
use stack::stack::Stack;
use survey::refusal::Refusal;

// The attributes of the inode.
pub fn attr(img: &[u8], ino: u64) -> Result<Option<FileAttr>, Refusal>
    ensures { answered attr_if result ≡ attr usual img.now ino }
{
    let stack = open_image(img, ino)?;
    Ok(shown_attr(stack, ino))
}

// What a record makes of the attributes below it. Two arms, as the definition has them: they need no proof, `unwrap_or` (tried) needs one.
fn step_attr(entry: EntryDelta, below: Option<FileAttr>, ino: u64) -> Option<FileAttr>
    ensures { (img : List ℕ) → EntryTargetIn img entry → attr_if result ≡ step_attr usual ino (entry_meant img entry) (attr_if below) }
{
    match entry {
        EntryDelta::Node(delta) => match below {
            Some(attr) => Some(applied(delta, attr)),
            None => Some(applied(delta, initial_attr(delta, ino))),
        },
        EntryDelta::Tombstone => None,
    }
}

fn base_attr(base: Option<Node>, ino: u64) -> Option<FileAttr>
    ensures { (img : List ℕ) → BaseLinkIn img base → attr_if result ≡ base_attr ino (node_meant_if img base) }
{
    base.map(|node| node_attr(node, ino))
}

// From the bottom: the base's, and what each record makes of them.
pub fn shown_attr(stack: Stack, ino: u64) -> Option<FileAttr>
    ensures { attr_if result ≡ shown_in (attributes usual ino) stack.entry }
{
    let base = stack.base();
    let mut attr = base_attr(base, ino);
    for i in 0..stack.places.count {
        let entry = stack.record(i);
        attr = step_attr(entry, attr, ino);
    }
    attr
}
