// A text that stands in an image, written; and an entry, which begins with one.
ghost use Rattle.wire.specs.Combinators.{◌then◌};
ghost use Rattle.wire.specs.Put.{Put};
ghost use Rattle.wire.specs.Text.{text_bytes};
ghost use Rattle.image.specs.FieldLayout.{inode as inodeCodec, name as nameCodec};
ghost use Rattle.nodes.specs.Options.{text_at};

use wire::number::put_number;
use wire::part::Part;
use wire::text::put_text;

// Writes a text that is a part of the image, and answers the place after it.
pub fn put_text_part(buf: &mut [u8], at: usize, img: &[u8], text: Part) -> usize
    ensures { Put buf.old at (text_bytes (text_at img.now text)) result buf.new }
{
    put_text(buf, at, text.of(img))
}

// Writes an entry, whose name is a part of the image, and answers the place after it.
pub fn put_entry(buf: &mut [u8], at: usize, img: &[u8], name: Part, inode: u64) -> usize
    ensures { Put buf.old at ((nameCodec then inodeCodec).write (text_at img.now name, inode)) result buf.new }
{
    let next = put_text_part(buf, at, img, name);
    put_number(buf, next, inode)
}
