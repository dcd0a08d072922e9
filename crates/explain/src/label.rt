// The layers of an image by their names, and where each has its record of an inode.
use change::section::open_sections;
use image::rows::read_rows;
use passes::inode::{Held, find_inode};
use survey::batch::{MOST_BATCHES, MOST_LAYERS};
use survey::refusal::Refusal;
use writers::batch::read_batch_head;

// The id of a batch, which live has none of, and the place of its record, if it has one.
#[derive(Clone, Copy)]
pub struct Label {
    pub id: Option<u64>,
    pub place: Option<usize>,
}

// The labels of any bytes; none of those that are no valid image.
pub fn label_layers(img: &[u8], ino: u64) -> [Option<Label>; MOST_LAYERS] {
    read_labels(img, ino).unwrap_or([None; MOST_LAYERS])
}

// The labels of a valid image: the batches, front first, as many as there are, and live last. No `Vec`: the project has no heap. No
// count: where there is no batch, there is no label.
pub fn read_labels(img: &[u8], ino: u64) -> Result<[Option<Label>; MOST_LAYERS], Refusal> {
    let sections = open_sections(img)?;
    let rows = read_rows(img, sections.batches, MOST_BATCHES)?;
    let mut labels = [None; MOST_LAYERS];
    let mut at = rows.first;
    for label in labels.iter_mut().take(rows.count as usize) {
        let (head, records) = read_batch_head(img, at)?;
        let (place, next) = find_inode(img, records, Held::Record, ino)?;
        *label = Some(Label {
            id: Some(head.id),
            place,
        });
        at = next;
    }
    let (place, _) = find_inode(img, sections.live, Held::Record, ino)?;
    labels[MOST_LAYERS - 1] = Some(Label { id: None, place });
    Ok(labels)
}
