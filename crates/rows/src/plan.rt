// What a listing fills.
ghost use Rattle.rows.specs.Counts.{Counts, Counts-prop};

use merge::sources::Sources;

// The rows of a listing, and how many they are.
#[derive(Clone, Copy)]
pub struct Plan<'a> {
    pub all: Sources<'a>,
    pub count: usize,
    ghost counted: { Counts all count } by { Counts-prop all count },
}
