// The type that a node or a record shows, and a stack.
ghost use Rattle.std.specs.Prelude.{◌≡◌, List, ℕ, Option};
ghost use Rattle.image.specs.Meaning.{Kind};
ghost use Rattle.rules.specs.Reads.{type, base_type, step_type};
ghost use Rattle.deltas.specs.Deltas.{entry_meant};
ghost use Rattle.stack.specs.Stacks.{node_meant_if, type_of};

use crate::question::Question;
use deltas::delta::EntryDelta;
use image::kind::FileType;
use nodes::node::Node;
use std::ops::ControlFlow;

// The type of a base node, if there is one.
pub fn base_type(base: Option<Node>) -> Option<FileType>
    ensures { (img : List ℕ) → type_of result ≡ base_type (node_meant_if img base) }
{
    base.map(|node| node.kind.file_type())
}

// The type that a record shows, whatever is below it.
pub fn entry_type(entry: EntryDelta) -> Option<FileType>
    ensures { (img : List ℕ) (below : Option Kind) → type_of result ≡ step_type (entry_meant img entry) below }
{
    match entry {
        EntryDelta::Node(delta) => Some(delta.file_type()),
        EntryDelta::Tombstone => None,
    }
}

// Of what type the inode is: the topmost record decides; with none, the base.
pub struct Type;

impl Question for Type {
    type Answer = FileType;

    ghost Said = { Option Kind };

    ghost asked = { λ question. type };

    ghost says = { λ img answer. type_of answer };

    fn record(&self, _img: &[u8], entry: EntryDelta) -> ControlFlow<Option<FileType>> {
        ControlFlow::Break(entry_type(entry))
    }

    fn base(&self, _img: &[u8], node: Option<Node>) -> Option<FileType> {
        base_type(node)
    }
}
