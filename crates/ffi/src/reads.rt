// The calls that read one inode, but for its texts.
ghost use Rattle.std.specs.Prelude.{◌≡◌};
ghost use Rattle.rules.specs.Initial.{usual};
ghost use Rattle.rules.specs.ReadCalls.{exists, file_type, attr, parent_dir_inode, lookup_child, has_link, has_xattr};
ghost use Rattle.ffi.specs.Replies.{yes_no_reply, type_reply, inode_reply, attr_reply};

use crate::reply::{AttrReply, InodeReply, TypeReply, YesNoReply};
use layers::attr::attr;
use layers::layers::{exists, file_type, has_link, parent_dir_inode};
use lookup::child::lookup_child;
use xattrs::xattr::has_xattr;

// Whether the inode exists.
#[unsafe(no_mangle)]
pub extern "C" fn appendfs_exists(img: &[u8], ino: u64) -> YesNoReply
    ensures { result ≡ yes_no_reply (exists usual img.now ino) }
{
    YesNoReply::from(exists(img, ino))
}

// The type of the inode.
#[unsafe(no_mangle)]
pub extern "C" fn appendfs_file_type(img: &[u8], ino: u64) -> TypeReply
    ensures { result ≡ type_reply (file_type usual img.now ino) }
{
    TypeReply::from(file_type(img, ino))
}

// The attributes of the inode.
#[unsafe(no_mangle)]
pub extern "C" fn appendfs_attr(img: &[u8], ino: u64) -> AttrReply
    ensures { result ≡ attr_reply (attr usual img.now ino) }
{
    AttrReply::from(attr(img, ino))
}

// The parent of a directory.
#[unsafe(no_mangle)]
pub extern "C" fn appendfs_parent_dir_inode(img: &[u8], ino: u64) -> InodeReply
    ensures { result ≡ inode_reply (parent_dir_inode usual img.now ino) }
{
    InodeReply::from(parent_dir_inode(img, ino))
}

// The inode that a name leads to in a directory.
#[unsafe(no_mangle)]
pub extern "C" fn appendfs_lookup_child(img: &[u8], ino: u64, name: &[u8]) -> InodeReply
    ensures { result ≡ inode_reply (lookup_child usual img.now ino name.now) }
{
    InodeReply::from(lookup_child(img, ino, name))
}

// Whether there is a link's text.
#[unsafe(no_mangle)]
pub extern "C" fn appendfs_has_link(img: &[u8], ino: u64) -> YesNoReply
    ensures { result ≡ yes_no_reply (has_link usual img.now ino) }
{
    YesNoReply::from(has_link(img, ino))
}

// Whether there is such an attribute.
#[unsafe(no_mangle)]
pub extern "C" fn appendfs_has_xattr(img: &[u8], ino: u64, name: &[u8]) -> YesNoReply
    ensures { result ≡ yes_no_reply (has_xattr usual img.now ino name.now) }
{
    YesNoReply::from(has_xattr(img, ino, name))
}
