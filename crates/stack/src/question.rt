// Questions that are asked of a stack from the top.
ghost use Rattle.std.specs.Prelude.{◌≡◌, List, ℕ, Option};
ghost use Rattle.rules.specs.Reads.{Read};
ghost use Rattle.deltas.specs.Deltas.{entry_meant};
ghost use Rattle.stack.specs.Stacks.{node_meant_if};
ghost use Rattle.stack.specs.InStack.{shown_in};
ghost use Rattle.stack.specs.Questions.{RecordRead, BaseRead, RecordAnswers};

use crate::stack::Stack;
use deltas::delta::EntryDelta;
use nodes::node::Node;
use std::ops::ControlFlow;

// What is asked, and what a record and the base answer to it.
pub trait Question {
    type Answer: Copy;

    ghost Said: { Type 0 };

    // What it makes of a stack, and what an answer means in an image.
    ghost asked: { Self → Read Said };

    ghost says: { List ℕ → Option Self.Answer → Said };

    // What a record answers; it goes on where it leaves the matter to what is below it.
    fn record(&self, img: &[u8], entry: EntryDelta) -> ControlFlow<Option<Self::Answer>>
        requires { RecordRead img.now entry }
        ensures { RecordAnswers (asked self.now) (says img.now) (entry_meant img.now entry) result };

    // What the base answers.
    fn base(&self, img: &[u8], node: Option<Node>) -> Option<Self::Answer>
        requires { BaseRead img.now node }
        ensures { says img.now result ≡ (asked self.now).base (node_meant_if img.now node) };
}

// From the top: the first record that answers decides; with none, the base.
pub fn decided<Q: Question>(stack: Stack, question: &Q) -> Option<Q::Answer>
    ensures { Q.says stack.entry.img.now result ≡ shown_in (Q.asked question.now) stack.entry }
{
    for i in (0..stack.places.count).rev() {
        let entry = stack.record(i);
        if let ControlFlow::Break(answer) = question.record(stack.img, entry) {
            return answer;
        }
    }
    let base = stack.base();
    question.base(stack.img, base)
}
