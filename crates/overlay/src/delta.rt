// The live directory delta of an inode, read.
ghost use Rattle.std.specs.Prelude.{◌≡◌};
ghost use Rattle.overlay.specs.Directories.{whole_of, bare_delta, LivesAt};

use deltas::delta::{DirectoryDelta, EntryDelta, NodeDelta, read_entry_delta};
use nodes::attr::{AttrDelta, no_changes};
use wire::part::Part;

// A directory delta. A list that isn't there is empty. No `DirectoryDelta` (deltas): the lists of that one stand in the image, and an empty
// delta for an inode with no record has none there.
#[derive(Clone, Copy)]
pub struct LiveDelta {
    pub attr_delta: AttrDelta,
    pub parent: Option<u64>,
    pub added: Option<Part>,
    pub removed: Option<Part>,
}

// The record at a place, if add entry, remove entry and set parent act on it: they do nothing on one of another sort.
// Where there is none, an empty directory delta.
pub fn live_directory(img: &[u8], place: Option<usize>) -> Option<LiveDelta>
    ensures { LivesAt img.now place result }
{
    let Some(at) = place else {
        return Some(bare_delta());
    };
    let Ok((EntryDelta::Node(NodeDelta::Directory(directory)), _)) = read_entry_delta(img, at)
    else {
        return None;
    };
    Some(directory.into())
}

// A directory delta, with its lists.
impl From<DirectoryDelta> for LiveDelta {
    ghost from_gives = { λ directory live. live ≡ whole_of directory };

    fn from(directory: DirectoryDelta) -> LiveDelta {
        LiveDelta {
            attr_delta: directory.attr_delta,
            parent: directory.parent,
            added: Some(directory.added),
            removed: Some(directory.removed),
        }
    }
}

// An empty directory delta. No `Default`: the name says that nothing changes.
fn bare_delta() -> LiveDelta
    ensures { result ≡ bare_delta }
{
    LiveDelta {
        attr_delta: no_changes(),
        parent: None,
        added: None,
        removed: None,
    }
}
