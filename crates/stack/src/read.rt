// What stands at the places of a stack.
ghost use Rattle.std.specs.Prelude.{◌<◌};
ghost use Rattle.stack.specs.InStack.{RecordIn, BaseIn};

use crate::stack::Stack;
use deltas::delta::{EntryDelta, read_entry_delta};
use nodes::node::{Node, read_node};

impl Stack<'_> {
    // The base node.
    pub fn base(self) -> Option<Node>
        ensures { BaseIn self.entry result }
    {
        let place = self.places.base?;
        let (node, _) = read_node(self.img, place).unwrap();
        Some(node)
    }

    // One of the records, counted from the lowest. That there are so many is a clause, as at any index. No iterator of records: some loops go up,
    // others down, and some need the number, so that one would be a stack and two numbers again, with laws for both ways.
    pub fn record(self, i: usize) -> EntryDelta
        requires { i < self.places.count }
        ensures { RecordIn self.entry i result }
    {
        let place = self.places.deltas[i];
        let (entry, _) = read_entry_delta(self.img, place).unwrap();
        entry
    }
}
