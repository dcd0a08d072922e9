// The reads of one inode's stack, and the calls over an image that answer by them.
ghost use Rattle.std.specs.Prelude.{◌≡◌, ℕ, Option};
ghost use Rattle.image.specs.Meaning.{Text};
ghost use Rattle.rules.specs.Initial.{usual};
ghost use Rattle.rules.specs.Reads.{link_text, parent};
ghost use Rattle.rules.specs.ReadCalls.{exists, file_type, read_link, has_link, parent_dir_inode, text_of};
ghost use Rattle.nodes.specs.Options.{text_of as textMeant};
ghost use Rattle.stack.specs.Stacks.{type_of};
ghost use Rattle.layers.specs.Answered.{answered};

use deltas::delta::{DirectoryDelta, EntryDelta, NodeDelta, SymlinkDelta};
use image::kind::FileType;
use nodes::node::{Node, NodeKind};
use stack::file_type::Type;
use stack::open::open_image;
use stack::question::{Question, decided};
use std::ops::ControlFlow;
use survey::refusal::Refusal;
use wire::part::{Part, part_if};

// Whether the inode exists. It opens the image by itself: in the definitions it is a call of its own, and not what `file_type` answers.
pub fn exists(img: &[u8], ino: u64) -> Result<bool, Refusal>
    ensures { answered (λ yes. yes) result ≡ exists usual img.now ino }
{
    let stack = open_image(img, ino)?;
    Ok(decided(stack, &Type).is_some())
}

// The type of the inode.
pub fn file_type(img: &[u8], ino: u64) -> Result<Option<FileType>, Refusal>
    ensures { answered type_of result ≡ file_type usual img.now ino }
{
    let stack = open_image(img, ino)?;
    Ok(decided(stack, &Type))
}

// The parent of a directory. Inode 1 always has parent 1.
pub fn parent_dir_inode(img: &[u8], ino: u64) -> Result<Option<u64>, Refusal>
    ensures { answered (λ parent. parent) result ≡ parent_dir_inode usual img.now ino }
{
    let stack = open_image(img, ino)?;
    if ino == 1 {
        return Ok(Some(1));
    }
    Ok(decided(stack, &Parent))
}

// The text of a link: that very part of the image, empty if there is none. Beside `has_link`: the project fixes both (docs/DECISIONS.md).
pub fn read_link(img: &[u8], ino: u64) -> &[u8]
    ensures { result.now ≡ text_of (read_link usual img.now ino) }
{
    let found = link_of(img, ino).unwrap_or(None);
    part_if(img, found)
}

// Whether there is a link's text.
#[tactic(auto, using(crate::proofs::Calls::calls))]
pub fn has_link(img: &[u8], ino: u64) -> Result<bool, Refusal>
    ensures { answered (λ yes. yes) result ≡ has_link usual img.now ino }
{
    let found = link_of(img, ino)?;
    Ok(found.is_some())
}

// Where the text of a link stands.
pub fn link_of(img: &[u8], ino: u64) -> Result<Option<Part>, Refusal>
    ensures { answered (textMeant img.now) result ≡ read_link usual img.now ino }
{
    let stack = open_image(img, ino)?;
    Ok(decided(stack, &LinkText))
}

// The parent: from the top, the first directory delta with one; a tombstone or another kind, none; then a base directory's.
// `Parent` and `LinkText` differ in the variant that they match, which no type parameter says.
pub struct Parent;

impl Question for Parent {
    type Answer = u64;

    ghost Said = { Option ℕ };

    ghost asked = { λ question. parent };

    ghost says = { λ img answer. answer };

    fn record(&self, _img: &[u8], entry: EntryDelta) -> ControlFlow<Option<u64>> {
        match entry {
            EntryDelta::Node(
                NodeDelta::Directory(
                    DirectoryDelta {
                        parent: Some(parent),
                        ..
                    },
                ),
            ) => ControlFlow::Break(Some(parent)),
            EntryDelta::Node(NodeDelta::Directory(_)) => ControlFlow::Continue(()),
            _ => ControlFlow::Break(None),
        }
    }

    fn base(&self, _img: &[u8], node: Option<Node>) -> Option<u64> {
        match node?.kind {
            NodeKind::Directory { parent, .. } => Some(parent),
            _ => None,
        }
    }
}

// The text of a link: from the top, the first symlink delta with a target; a tombstone or another kind, none; then a base symlink's.
pub struct LinkText;

impl Question for LinkText {
    type Answer = Part;

    ghost Said = { Option Text };

    ghost asked = { λ question. link_text };

    ghost says = { λ img answer. textMeant img answer };

    fn record(&self, _img: &[u8], entry: EntryDelta) -> ControlFlow<Option<Part>> {
        match entry {
            EntryDelta::Node(
                NodeDelta::Symlink(
                    SymlinkDelta {
                        target: Some(text),
                        ..
                    },
                ),
            ) => ControlFlow::Break(Some(text)),
            EntryDelta::Node(NodeDelta::Symlink(_)) => ControlFlow::Continue(()),
            _ => ControlFlow::Break(None),
        }
    }

    fn base(&self, _img: &[u8], node: Option<Node>) -> Option<Part> {
        match node?.kind {
            NodeKind::Symlink { target } => Some(target),
            _ => None,
        }
    }
}
