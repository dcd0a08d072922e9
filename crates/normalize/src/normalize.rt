// Normalising a layer's directory deltas.
ghost use Rattle.std.specs.Prelude.{length};
ghost use Rattle.rules.specs.Initial.{usual};
ghost use Rattle.rules.specs.ChangeCalls.{normalize_directory_deltas};
ghost use Rattle.change.specs.Changed.{Changes};
ghost use Rattle.normalize.specs.Images.{PutsImage};

use crate::layer::put_normal_rows;
use change::copy::put_between;
use change::room::write_if_room;
use change::section::open_sections;
use image::field::LAST_WORD;
use image::rows::rows_at;
use survey::batch::MOST_BATCHES;
use survey::refusal::Refusal;
use walk::open::{Layers, open_layers};
use walk::walk::Walk;
use wire::number::put_number;

// Holds each directory delta of the layer at a position against the layers below. Live is at the number of batches.
pub fn normalize_directory_deltas(
    img: &[u8],
    position: u64,
    target: &mut [u8],
) -> Result<usize, Refusal>
    ensures { Changes (normalize_directory_deltas usual img.now position (length target.old)) target.old result target.new }
{
    let sections = open_sections(img)?;
    let count = rows_at(img, sections.batches, MOST_BATCHES).count;
    if count < position {
        return Err(Refusal::NoLayer);
    }
    let layers = open_layers(img, sections, position + 1);
    let walk = layers.walk(img);
    write_if_room(target, |buf| put_normal(buf, &walk, &layers))
}

// The image with the walk's topmost layer normalised: everything before and after its records is copied. The layers are lent whole: they hold
// where its records stand.
fn put_normal(buf: &mut [u8], walk: &Walk, layers: &Layers) -> usize
    ensures { PutsImage walk.entry.now layers.now buf.old result buf.new }
{
    let img = walk.img;
    let rows = rows_at(img, layers.top, LAST_WORD);
    let counted = put_between(buf, 0, img, 0, layers.top);
    let first = put_number(buf, counted, rows.count);
    let next = put_normal_rows(buf, first, walk);
    put_between(buf, next, img, layers.end, img.len())
}
