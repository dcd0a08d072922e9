// The calls that change the records of a layer. Each writes the new image to the target, or refuses and writes nothing.
ghost use Rattle.std.specs.Prelude.{length};
ghost use Rattle.rules.specs.Initial.{usual};
ghost use Rattle.rules.specs.ChangeCalls.{insert_new_node, tombstone as tombstoned, add_dir_entry, remove_dir_entry};
ghost use Rattle.rules.specs.ChangeCalls.{update_dir_parent, update_attr_delta, normalize_directory_deltas};
ghost use Rattle.ffi.specs.Replies.{ChangeReplies, time_given};

use crate::reply::ChangeReply;
use directory::directory::{add_dir_entry, remove_dir_entry, update_dir_parent};
use normalize::normalize::normalize_directory_deltas;
use overlay::live::{insert_new_node, tombstone};
use update::update::update_attr_delta;
use wire::time::Time;

// Puts a record, given from its code on, in the place of the live one.
#[unsafe(no_mangle)]
pub extern "C" fn appendfs_insert_new_node(
    img: &[u8],
    ino: u64,
    delta: &[u8],
    target: &mut [u8],
) -> ChangeReply
    ensures { ChangeReplies (insert_new_node usual img.now ino delta.now (length target.old)) target.old result target.new }
{
    ChangeReply::from(insert_new_node(img, ino, delta, target))
}

// Puts a tombstone in the place of the live record.
#[unsafe(no_mangle)]
pub extern "C" fn appendfs_tombstone(img: &[u8], ino: u64, target: &mut [u8]) -> ChangeReply
    ensures { ChangeReplies (tombstoned usual img.now ino (length target.old)) target.old result target.new }
{
    ChangeReply::from(tombstone(img, ino, target))
}

// Adds a name to the live directory delta.
#[unsafe(no_mangle)]
pub extern "C" fn appendfs_add_dir_entry(
    img: &[u8],
    ino: u64,
    name: &[u8],
    inode: u64,
    seconds: i64,
    nanos: u32,
    target: &mut [u8],
) -> ChangeReply
    ensures { ChangeReplies (add_dir_entry usual img.now ino name.now inode (time_given seconds nanos) (length target.old)) target.old result target.new }
{
    let time = Time { seconds, nanos };
    ChangeReply::from(add_dir_entry(img, ino, name, inode, time, target))
}

// Removes a name from the live directory delta.
#[unsafe(no_mangle)]
pub extern "C" fn appendfs_remove_dir_entry(
    img: &[u8],
    ino: u64,
    name: &[u8],
    seconds: i64,
    nanos: u32,
    target: &mut [u8],
) -> ChangeReply
    ensures { ChangeReplies (remove_dir_entry usual img.now ino name.now (time_given seconds nanos) (length target.old)) target.old result target.new }
{
    let time = Time { seconds, nanos };
    ChangeReply::from(remove_dir_entry(img, ino, name, time, target))
}

// Sets the parent in the live directory delta.
#[unsafe(no_mangle)]
pub extern "C" fn appendfs_update_dir_parent(
    img: &[u8],
    ino: u64,
    parent: u64,
    target: &mut [u8],
) -> ChangeReply
    ensures { ChangeReplies (update_dir_parent usual img.now ino parent (length target.old)) target.old result target.new }
{
    ChangeReply::from(update_dir_parent(img, ino, parent, target))
}

// Merges a mask and its fields into the live delta.
#[unsafe(no_mangle)]
pub extern "C" fn appendfs_update_attr_delta(
    img: &[u8],
    ino: u64,
    delta: &[u8],
    target: &mut [u8],
) -> ChangeReply
    ensures { ChangeReplies (update_attr_delta usual img.now ino delta.now (length target.old)) target.old result target.new }
{
    ChangeReply::from(update_attr_delta(img, ino, delta, target))
}

// Holds the directory deltas of the layer at a position against the layers below.
#[unsafe(no_mangle)]
pub extern "C" fn appendfs_normalize_directory_deltas(
    img: &[u8],
    position: u64,
    target: &mut [u8],
) -> ChangeReply
    ensures { ChangeReplies (normalize_directory_deltas usual img.now position (length target.old)) target.old result target.new }
{
    ChangeReply::from(normalize_directory_deltas(img, position, target))
}
