// The value of an extended attribute by its name.
ghost use Rattle.std.specs.Prelude.{◌≡◌, Option};
ghost use Rattle.image.specs.Meaning.{Text};
ghost use Rattle.rules.specs.Initial.{usual};
ghost use Rattle.rules.specs.Reads.{attribute};
ghost use Rattle.rules.specs.ReadCalls.{text_of, get_xattr, has_xattr};
ghost use Rattle.nodes.specs.Options.{text_of as textMeant};
ghost use Rattle.layers.specs.Answered.{answered};

use deltas::delta::EntryDelta;
use image::field::XattrValue;
use image::name::Under;
use lookup::list::NameList;
use nodes::field::{ReadField, read_maybe};
use nodes::node::Node;
use stack::name::open_named;
use stack::question::{Question, decided};
use std::ops::ControlFlow;
use survey::refusal::Refusal;
use wire::part::{Part, part_if};

// The value of an attribute: that very part of the image, empty if there is none. Beside `has_xattr`: the project fixes both (docs/DECISIONS.md).
pub fn get_xattr<'a>(img: &'a [u8], ino: u64, name: &[u8]) -> &'a [u8]
    ensures { result.now ≡ text_of (get_xattr usual img.now ino name.now) }
{
    let value = value_of(img, ino, name).unwrap_or(None);
    part_if(img, value)
}

// Whether there is such an attribute.
#[tactic(auto, using(layers::proofs::Calls::calls))]
pub fn has_xattr(img: &[u8], ino: u64, name: &[u8]) -> Result<bool, Refusal>
    ensures { answered (λ yes. yes) result ≡ has_xattr usual img.now ino name.now }
{
    let value = value_of(img, ino, name)?;
    Ok(value.is_some())
}

// Where the value of an attribute stands.
pub fn value_of(img: &[u8], ino: u64, name: &[u8]) -> Result<Option<Part>, Refusal>
    ensures { answered (textMeant img.now) result ≡ get_xattr usual img.now ino name.now }
{
    let stack = open_named(img, ino, name)?;
    Ok(decided(stack, &Attribute { name }))
}

// The value of an attribute: from the top, the first record that names it; a tombstone, none; then the base.
#[derive(Clone, Copy)]
pub struct Attribute<'a> {
    pub name: &'a [u8],
}

impl Question for Attribute<'_> {
    type Answer = Part;

    ghost Said = { Option Text };

    ghost asked = { λ question. attribute question.name.now };

    ghost says = { λ img answer. textMeant img answer };

    fn record(&self, img: &[u8], entry: EntryDelta) -> ControlFlow<Option<Part>> {
        let EntryDelta::Node(delta) = entry else {
            return ControlFlow::Break(None);
        };
        let Some(list) = delta.attr_delta().xattrs else {
            return ControlFlow::Continue(());
        };
        let changes = NameList {
            img,
            place: list,
            what: Under::Change,
        };
        match changes.find(self.name) {
            Some(at) => {
                let (change, _) = read_maybe::<XattrValue>(img, at).unwrap();
                ControlFlow::Break(change)
            }
            None => ControlFlow::Continue(()),
        }
    }

    fn base(&self, img: &[u8], node: Option<Node>) -> Option<Part> {
        let values = NameList {
            img,
            place: node?.meta.xattrs,
            what: Under::Value,
        };
        let at = values.find(self.name)?;
        let (value, _) = XattrValue::read(img, at).unwrap();
        Some(value)
    }
}
