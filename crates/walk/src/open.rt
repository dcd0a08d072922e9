// The runs of a walk over the base and the first layers of an image.
ghost use Rattle.std.specs.Prelude.{◌≤◌, ◌≡◌};
ghost use Rattle.image.specs.Places.{Ends};
ghost use Rattle.survey.specs.Gathering.{batch_head};
ghost use Rattle.walk.specs.Opens.{OpensLayers};
ghost use Rattle.walk.specs.Ready.{Ready};

use crate::run::{Runs, run_at};
use crate::walk::Walk;
use change::batch::records_end;
use image::rows::rows_at;
use passes::inode::Held;
use survey::batch::{MOST_BATCHES, MOST_LAYERS};
use survey::store::Sections;
use wire::fault::Fault;
use writers::batch::read_batch_head;

// The runs of a walk, and where the records of its topmost layer start, with their count, and end. Of an image that may be used they are those
// of a `Walk`.
#[derive(Clone, Copy)]
pub struct Layers {
    pub runs: Runs,
    pub top: usize,
    pub end: usize,
}

impl Layers {
    // The walk of these runs.
    pub fn walk<'a>(&self, img: &'a [u8]) -> Walk<'a>
        requires { Ready img.now self.now.runs }
        ensures { (result.img.now ≡ img.now) × (result.runs ≡ self.now.runs) }
    {
        let runs = self.runs;
        Walk { img, runs }
    }
}

// Where the records of the batch at `at` start: after its head.
#[tactic(auto, using(crate::proofs::Opening::heads))]
fn batch_records(img: &[u8], at: usize) -> Result<usize, Fault>
    ensures { Ends img.now batch_head.read at result }
{
    let (_, records) = read_batch_head(img, at)?;
    Ok(records)
}

// The runs of the base and the first `n` layers: the batches, front first, and then live.
pub fn open_layers(img: &[u8], sections: Sections, n: u64) -> Layers
    requires { n ≤ 17 }
    ensures { OpensLayers img.now sections n result }
{
    let batches = rows_at(img, sections.batches, MOST_BATCHES);
    let base = run_at(img, 0, Held::Node);
    let mut layers = [None; MOST_LAYERS];
    let count = n as usize;
    let mut top = batches.first;
    let mut end = batches.first;
    for (i, layer) in layers[..count].iter_mut().enumerate() {
        top = end;
        if (i as u64) < batches.count {
            top = batch_records(img, end).unwrap_or(0);
        }
        *layer = run_at(img, top, Held::Record);
        end = records_end(img, top).unwrap_or(0);
    }
    let runs = Runs {
        base,
        layers,
        count,
    };
    Layers { runs, top, end }
}
