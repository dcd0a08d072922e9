// The merge of sources: the least name goes first, as the topmost source that has it says, and then the rest.
ghost use Rattle.std.specs.Prelude.{◌+◌, ◌≤◌, ◌≡◌, [], ◌∷◌, length, take};
ghost use Rattle.std.specs.Iterator.{at_most};
ghost use Rattle.merge.specs.Sources.{Rise};
ghost use Rattle.merge.specs.Merges.{in_order, Pushes, lists_if, lists_in, rows_in, Upper, Least, Passed, PassedAll};
ghost use Rattle.merge.specs.Merges.{given_in, rows_decided, GivesFrom, Gives, count_of};

use crate::read::{Given, Head, head_of, source_at};
use crate::source::Source;
use crate::sources::{Lists, MOST_LISTS, Sources};
use image::name::Under;
use image::rows::Rows;
use std::cmp::Ordering;
use wire::order::compare_part;
use wire::part::Part;

// The lists of one record or of one node, the upper first: at most two. No `Vec`: the project has no heap. Who finds them hands them back
// as a value, and the gathering loop pushes them; so what a record has is said by itself, without the lists of the records before it.
#[derive(Clone, Copy)]
pub enum AtMostTwo {
    None,
    One(Source),
    Two { over: Source, under: Source },
}

// A name that is given.
#[derive(Clone, Copy)]
pub struct Row {
    pub name: Part,
    pub given: Given,
}

impl Lists {
    pub fn new() -> Lists
        ensures { result.count ≡ 0 }
    {
        let none = Source {
            rows: Rows { first: 0, count: 0 },
            what: Under::Nothing,
        };
        Lists {
            rows: [none; MOST_LISTS],
            count: 0,
        }
    }

    // Lists more, beneath the others.
    pub fn push(&mut self, lists: AtMostTwo)
        requires { self.old.count + length (in_order lists) ≤ 35 }
        ensures { Pushes self.old (in_order lists) self.new }
    {
        match lists {
            AtMostTwo::None => {}
            AtMostTwo::One(source) => push_source(self, source),
            AtMostTwo::Two { over, under } => {
                push_source(self, over);
                push_source(self, under);
            }
        }
    }
}

// One list more, beneath the others.
fn push_source(all: &mut Lists, source: Source)
    requires { all.old.count + 1 ≤ 35 }
    ensures { Pushes all.old (source ∷ []) all.new }
{
    all.rows[all.count] = source;
    all.count += 1;
}

// The list at a part of the image, if there is one.
pub fn list_if(img: &[u8], option: Option<Part>, what: Under) -> AtMostTwo
    ensures { rows_in img.now result ≡ lists_if img.now what option }
{
    match option {
        Some(list) => AtMostTwo::One(source_at(img, list.start, what)),
        None => AtMostTwo::None,
    }
}

// Of two rows the one whose name is less; of equal names the upper.
fn upper(img: &[u8], over: Option<Head>, under: Option<Head>) -> Option<Head>
    ensures { Upper img.now over under result }
{
    let Some(first) = over else {
        return under;
    };
    let Some(second) = under else {
        return over;
    };
    if compare_part(img, first.name, second.name.of(img)).is_le() {
        over
    } else {
        under
    }
}

// The least name that stands first, as the topmost of the sources that have it says. A loop and no `min_by`: the law of a merge goes by one source at a
// time, as this does.
fn least(img: &[u8], sources: &[Source]) -> Option<Head>
    ensures { Least img.now sources.now result }
{
    let mut best = None;
    for source in sources.iter().rev() {
        best = upper(img, head_of(img, *source), best);
    }
    best
}

// The source past its first row, if that has the name; else as it is.
#[tactic(auto, unfolding(crate::specs::Pile::pass))]
fn passed(img: &[u8], source: Source, name: Part) -> Source
    ensures { Passed img.now source name result }
{
    let Some(head) = head_of(img, source) else {
        return source;
    };
    if compare_part(img, name, head.name.of(img)).is_eq() {
        let rows = Rows {
            first: head.next,
            count: source.rows.count - 1,
        };
        return Source { rows, ..source };
    }
    source
}

// Moves each source past its first row, if that has the name.
fn pass_all(img: &[u8], sources: &mut [Source], name: Part)
    ensures { PassedAll img.now sources.old name sources.new }
{
    for source in sources.iter_mut() {
        *source = passed(img, *source, name);
    }
}

// The first name that is given, if there is one. The sources are the first `count` of the array; they are moved past the name. It takes the
// array and the count, since a slice of an array can't be lent out of a struct with a ghost field.
fn next_given(img: &[u8], rows: &mut [Source; MOST_LISTS], count: usize) -> Option<Row>
    requires { (count ≤ 35) × Rise img.now (take count rows.old) }
    ensures { GivesFrom img.now (take count rows.old) result (take count rows.new) }
{
    let sources = &mut rows[..count];
    while let Some(head) = least(img, sources) {
        pass_all(img, sources, head.name);
        if let Some(given) = head.given {
            let name = head.name;
            return Some(Row { name, given });
        }
    }
    None
}

// The same for `Lists`. `Sources` can lend its lists, but not the array in them: a field of a field can't be lent.
fn next_of(img: &[u8], all: &mut Lists) -> Option<Row>
    requires { Rise img.now (lists_in all.old) }
    ensures { GivesFrom img.now (lists_in all.old) result (lists_in all.new) }
{
    next_given(img, &mut all.rows, all.count)
}

// The names that are given, one after the other.
impl Iterator for Sources<'_> {
    type Item = Row;

    ghost next_gives = { Gives };

    ghost remaining = { λ s. at_most (length (given_in s)) };

    fn next(&mut self) -> Option<Row> {
        next_of(self.img, &mut self.lists)
    }
}

// How many rows there are; none, if they are more than `room`. Not the iterator's `count`, which reads all rows, nor `take(room).count()`, after which
// the sources would have to be asked once more whether that was all.
pub fn count_rows(all: Sources, room: usize) -> Option<usize>
    ensures { result ≡ count_of (length (rows_decided all.entry)) room }
{
    let mut count: usize = 0;
    for _row in all {
        if room <= count {
            return None;
        }
        count += 1;
    }
    Some(count)
}
