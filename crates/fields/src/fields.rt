// The fields of an update, over those of a live delta.
ghost use Rattle.std.specs.Prelude.{◌≡◌};
ghost use Rattle.fields.specs.Fields.{attr_over};

use nodes::attr::AttrDelta;

// Field by field, the new one if it is there.
pub fn attr_over(new: AttrDelta, old: AttrDelta) -> AttrDelta
    ensures { result ≡ attr_over new old }
{
    AttrDelta {
        mode: new.mode.or(old.mode),
        uid: new.uid.or(old.uid),
        gid: new.gid.or(old.gid),
        nlink: new.nlink.or(old.nlink),
        atime: new.atime.or(old.atime),
        mtime: new.mtime.or(old.mtime),
        ctime: new.ctime.or(old.ctime),
        created_at: new.created_at.or(old.created_at),
        xattrs: new.xattrs.or(old.xattrs),
    }
}
