// Passing over a node of the base. Beside `read_node` (nodes), which would do it too: but every call passes the whole image, and that takes up to a
// fifth more instructions by what reads it.
ghost use Rattle.std.specs.Prelude.{◌≤◌, length};
ghost use Rattle.image.specs.FileTypes.{kind_meant};
ghost use Rattle.image.specs.NodeLayout.{meta, body_part, node};
ghost use Rattle.image.specs.Places.{Ends};

use image::field::{Field, Inode, Moment, Size, Target, Word};
use image::kind::{FileType, read_file_type};
use image::name::{Under, pass_names};
use wire::fault::Fault;

// Passes a node, from its kind on.
#[tactic(auto, using(image::proofs::Passing::passes), unfolding(image::specs::NodeLayout::node))]
pub fn pass_node(img: &[u8], at: usize) -> Result<usize, Fault>
    ensures { Ends img.now node.read at result }
{
    let (kind, start) = read_file_type(img, at)?;
    let body = pass_meta(img, start)?;
    pass_body(img, body, kind)
}

// Passes permission, links, owner, group, three times and the attributes.
#[tactic(auto, using(image::proofs::Passing::passes), unfolding(image::specs::NodeLayout::meta))]
fn pass_meta(img: &[u8], at: usize) -> Result<usize, Fault>
    ensures { Ends img.now meta.read at result }
{
    let links = Word::pass(img, at)?;
    let owner = Word::pass(img, links)?;
    let group = Word::pass(img, owner)?;
    let atime = Word::pass(img, group)?;
    let mtime = Moment::pass(img, atime)?;
    let ctime = Moment::pass(img, mtime)?;
    let attributes = Moment::pass(img, ctime)?;
    pass_names(img, attributes, Under::Value)
}

// Passes what a node of this kind has of its own. The place is in the image, as in `pass_under`.
#[tactic(auto, using(image::proofs::Passing::passes))]
fn pass_body(img: &[u8], at: usize, kind: FileType) -> Result<usize, Fault>
    requires { at ≤ length img.now }
    ensures { Ends img.now (body_part (kind_meant kind)).read at result }
{
    match kind {
        FileType::Directory => {
            let entries = Inode::pass(img, at)?;
            pass_names(img, entries, Under::Inode)
        }
        FileType::RegularFile => Size::pass(img, at),
        FileType::Symlink => Target::pass(img, at),
        FileType::CharDevice | FileType::BlockDevice => Word::pass(img, at),
        FileType::NamedPipe | FileType::Socket => Ok(at),
    }
}
