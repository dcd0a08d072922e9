// The one pass over an image.
ghost use Rattle.std.specs.Prelude.{◌≡◌};
ghost use Rattle.image.specs.Places.{Ends};
ghost use Rattle.survey.specs.Survey.{tail_after, stop_at, SurveyOf};
ghost use Rattle.survey.specs.Verdict.{Judges};
ghost use Rattle.survey.specs.declared.refusal.Refusal.TheVariants.{ImageBroken};

use crate::batch::{InodeLayerStack, gather_queue, pushed};
use crate::reason::LAST_REASON;
use crate::refusal::Refusal;
use image::field::{Field, Word, pass_number};
use passes::inode::{Held, find_inode, inode_after};
use wire::fault::Fault;

// The most bytes of an image.
pub const MOST_BYTES: usize = 65536;

// Where the sections of an image stand: the base is from 0 to `batches`, and what follows live from `tail` to the end. They do not hold the
// image: the stack, the walk or the parts of the same call hold it already.
#[derive(Clone, Copy)]
pub struct Sections {
    pub batches: usize,
    pub live: usize,
    pub tail: usize,
}

// Where the sections stand, the records of one inode, and where the store ends.
#[derive(Clone, Copy)]
pub struct Survey {
    pub stack: InodeLayerStack,
    pub sections: Sections,
    pub end: usize,
}

// Why a store stops, and where each section before that ends: the base at `batches`, the batches at `live`, live at `tail`.
#[derive(Clone, Copy)]
pub struct Stop {
    pub fault: Fault,
    pub batches: Option<usize>,
    pub live: Option<usize>,
    pub tail: Option<usize>,
}

// The stop at a fault, after sections that end at these places.
fn stopped(fault: Fault, batches: Option<usize>, live: Option<usize>, tail: Option<usize>) -> Stop
    ensures { result ≡ stop_at fault batches live tail }
{
    Stop {
        fault,
        batches,
        live,
        tail,
    }
}

// A store that stops is broken, wherever that is.
impl From<Stop> for Refusal {
    ghost from_gives = { λ _ r. r ≡ ImageBroken };

    fn from(stop: Stop) -> Refusal {
        Refusal::from(stop.fault)
    }
}

// Judges the store at the start of the image, field by field, and gathers the places of one inode's node and records on the way. Of a store that
// stops it says where, and where the sections before that end.
#[tactic(auto, using(crate::proofs::Stores::surveys))]
pub fn survey_store(img: &[u8], sought: u64) -> Result<Survey, Stop>
    ensures { SurveyOf img.now sought result }
{
    let node = find_inode(img, 0, Held::Node, sought);
    let (node, batches) = node.map_err(|fault| stopped(fault, None, None, None))?;
    let queue = gather_queue(img, batches, sought, node);
    let (queue, live) = queue.map_err(|fault| stopped(fault, Some(batches), None, None))?;
    let record = find_inode(img, live, Held::Record, sought);
    let (record, tail) = record.map_err(|fault| stopped(fault, Some(batches), Some(live), None))?;
    let end = pass_tail(img, tail, queue.last);
    let end = end.map_err(|fault| stopped(fault, Some(batches), Some(live), Some(tail)))?;
    let stack = pushed(queue.stack, record);
    let sections = Sections {
        batches,
        live,
        tail,
    };
    Ok(Survey {
        stack,
        sections,
        end,
    })
}

// Passes next id, which is above the last id of the queue, if there is one, the staged counts and the request. Beside `read_tail` (writers), as
// `pass_node` beside `read_node`.
#[tactic(auto, using(image::proofs::Passing::passes))]
fn pass_tail(img: &[u8], at: usize, last: Option<u64>) -> Result<usize, Fault>
    ensures { Ends img.now (tail_after last).read at result }
{
    let (_, bytes) = inode_after(img, at, last)?;
    let operations = Word::pass(img, bytes)?;
    let request = Word::pass(img, operations)?;
    pass_number(img, request, LAST_REASON)
}

// The one pass that every call starts with.
pub fn read_image(img: &[u8], sought: u64) -> Result<Survey, Refusal>
    ensures { Judges img.now sought result }
{
    if MOST_BYTES < img.len() {
        return Err(Refusal::ImageTooLong);
    }
    let survey = survey_store(img, sought)?;
    let follows = survey.end < img.len();
    if follows {
        return Err(Refusal::ImageBroken);
    }
    Ok(survey)
}
