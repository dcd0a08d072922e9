// Runs: lists by inode in the image, each at a row of it.
ghost use Rattle.std.specs.Prelude.{◌≡◌};
ghost use Rattle.walk.specs.Runs.{RowsOf, ListOf, Sound, Moved, next_of};

use image::field::{Inode, LAST_WORD};
use image::rows::{Rows, rows_at};
use nodes::field::ReadField;
use passes::inode::{Held, pass_held};
use survey::batch::MOST_LAYERS;

// A list by inode, at one of its rows: its inode, the place of what stands under it, and the rows that follow.
#[derive(Clone, Copy)]
pub struct Run {
    pub inode: u64,
    pub place: usize,
    pub rest: Rows,
}

// The runs of the base and of `count` layers over it, the lowest first. No `Vec`: the project has no heap; no
// `ArrayVec`, as in `InodeLayerStack` (survey).
#[derive(Clone, Copy)]
pub struct Runs {
    pub base: Option<Run>,
    pub layers: [Option<Run>; MOST_LAYERS],
    pub count: usize,
}

// The run at the first of these rows, if there are any.
#[tactic(auto, using(crate::proofs::Running::runs))]
pub fn run_from(img: &[u8], rows: Rows, what: Held) -> Option<Run>
    ensures { RowsOf img.now what rows.count rows.first result }
{
    let count = rows.count.checked_sub(1)?;
    let (inode, place) = Inode::read(img, rows.first).ok()?;
    let first = pass_held(img, place, what).ok()?;
    let rest = Rows { first, count };
    Some(Run { inode, place, rest })
}

// The run at the first row of the list at `at`, its count first.
#[tactic(auto, using(crate::proofs::Running::runs))]
pub fn run_at(img: &[u8], at: usize, what: Held) -> Option<Run>
    ensures { ListOf img.now what at result }
{
    let rows = rows_at(img, at, LAST_WORD);
    run_from(img, rows, what)
}

// Where what stands under the inode of a run ends.
pub fn next_of(run: Option<Run>) -> Option<usize>
    ensures { result ≡ next_of run }
{
    run.map(|run| run.rest.first)
}

// The place of what stands under an inode in a run, if the run is at it; the run is moved past it.
#[tactic(auto, using(crate::proofs::Running::moves))]
pub fn take_place(img: &[u8], run: &mut Option<Run>, inode: u64, what: Held) -> Option<usize>
    requires { Sound img.now what run.old }
    ensures { Moved img.now what run.old inode result run.new }
{
    let row = (*run)?;
    if row.inode != inode {
        return None;
    }
    *run = run_from(img, row.rest, what);
    Some(row.place)
}
