// The steps of a walk: the least inode of all runs goes first, with the places of what stands under it, and then the rest.
ghost use Rattle.std.specs.Prelude.{length};
ghost use Rattle.std.specs.Iterator.{at_most};
ghost use Rattle.walk.specs.Ready.{Whole};
ghost use Rattle.walk.specs.Walks.{Lower, Least, Taken, Steps, stacks_left};

use crate::run::{Run, Runs, next_of, take_place};
use crate::walk::{Step, Walk};
use passes::inode::Held;
use stack::stack::Stack;
use survey::batch::{bare_stack, pushed};

// The lesser of the least inode so far and that of one run more.
#[tactic(auto, using(crate::proofs::Stepping::lowers))]
fn lower(best: Option<u64>, run: Option<Run>) -> Option<u64>
    ensures { Lower best run result }
{
    let Some(run) = run else {
        return best;
    };
    Some(best.map_or(run.inode, |least| least.min(run.inode)))
}

// The least inode that stands first in a run. A loop: `chain`, `flatten`, `map` and `min` each say what they give by what the one before gives, so a
// proof would carry all four.
fn least_inode(walk: &Walk) -> Option<u64>
    ensures { Least walk.now result }
{
    let mut best = lower(None, walk.runs.base);
    for run in walk.runs.layers[..walk.runs.count].iter() {
        best = lower(best, *run);
    }
    best
}

// The stack of an inode that no run is past; the runs are moved past it. It takes the runs alone, since no loop can lend
// the elements of an array in a struct with a ghost field.
fn take_stack<'a>(img: &'a [u8], runs: &mut Runs, inode: u64) -> Step<'a>
    requires { Whole img.now runs.old }
    ensures { Taken img.now runs.old inode result runs.new }
{
    let next = next_of(runs.base);
    let node = take_place(img, &mut runs.base, inode, Held::Node);
    let end = node.and(next);
    let mut top = node.is_some();
    let mut places = bare_stack(node);
    let count = runs.count;
    for run in runs.layers[..count].iter_mut() {
        let place = take_place(img, run, inode, Held::Record);
        top = place.is_some();
        // Tested, so that the stack isn't copied for a layer that has no record of the inode.
        if top {
            places = pushed(places, place);
        }
    }
    let stack = Stack { img, places };
    Step {
        inode,
        top,
        stack,
        end,
    }
}

impl<'a> Iterator for Walk<'a> {
    type Item = Step<'a>;

    ghost next_gives = { Steps };

    ghost remaining = { λ w. at_most (length (stacks_left w)) };

    // The least inode with its stack, if any is left; the runs are moved past it.
    fn next(&mut self) -> Option<Step<'a>> {
        let inode = least_inode(self)?;
        Some(take_stack(self.img, &mut self.runs, inode))
    }
}
