// What the creation of an instance says, and whether it keeps its rules.
ghost use Rattle.std.specs.Prelude.{◌≡◌, ◌↔◌, length, map, All, IsTrue};
ghost use Rattle.bid_rules.specs.Facts.{member_count};
ghost use Rattle.body_fields.specs.Creations.{IsCheckedCreation, creation_view, item_count, text};
ghost use Rattle.body_fields.specs.Rules.{IsName, IsTag};

use crate::limits::{LAST_DEADLINE, LONGEST_TAG};
use crate::rules::{is_name, is_tag, member_count};
use arrayvec::{ArrayString, ArrayVec};
use bid_rules::limits::{ITEM_ROOM, LONGEST_NAME, MEMBER_ROOM};
use bid_rules::{Facts, check_facts};

/// The title of an instance, or the name of a member, room, good or place: 1 to 40 bytes of UTF-8 without ASCII control characters
/// (U+0000 to U+001F and U+007F).
pub type Name = ArrayString<LONGEST_NAME>;

/// The text by which a repeated creation is recognised: 16 to 64 digits, lower-case letters and hyphens.
pub type Tag = ArrayString<LONGEST_TAG>;

/// What the creation of an instance says.
#[derive(Debug, Drop, PartialEq, Eq)]
pub struct Creation {
    /// What the instance is called.
    pub title: Name,
    /// The members' names, by member.
    pub members: ArrayVec<Name, MEMBER_ROOM>,
    /// The names of the rooms, goods or places, in order.
    pub items: ArrayVec<Name, ITEM_ROOM>,
    /// What is to be divided.
    pub facts: Facts,
    /// The second, since 1970, at which bidding ends.
    pub deadline: u64,
    /// The organiser's text by which a repeated creation is recognised.
    pub tag: Tag,
}

impl Creation {
    /// Whether the creation keeps its rules: its facts are checked, its lists of names are as long as they say, the title and the
    /// names are names, the tag is a tag, and the deadline is at most `LAST_DEADLINE`.
    pub fn is_checked(&self) -> bool
        ensures { IsTrue result ↔ IsCheckedCreation (creation_view self.now) }
    {
        check_facts(&self.facts).is_ok()
            && has_counts(self)
            && has_texts(self)
            && self.deadline <= LAST_DEADLINE
    }
}

// Whether each name in a list keeps the rule for names.
fn each_is_name(names: &[Name]) -> bool
    ensures { IsTrue result ↔ All (λ name. IsName (text name)) names.now }
{
    names.iter().all(|name| is_name(name.as_str()))
}

// The same, stated in terms of the names' texts, as the rule of a creation does.
fn are_names(names: &[Name]) -> bool
    ensures { IsTrue result ↔ All IsName (map text names.now) }
{
    each_is_name(names)
}

// How many names the facts ask for: of rooms, goods or places.
fn item_count(facts: &Facts) -> usize
    ensures { result ≡ item_count facts.now }
{
    match facts {
        Facts::Rent(rent) => usize::from(rent.members),
        Facts::Goods(goods) => usize::from(goods.goods),
        Facts::Fares(fares) => usize::from(fares.places),
    }
}

// The facts count members and items, and the lists of names must agree with them.
fn has_counts(creation: &Creation) -> bool
    ensures { IsTrue result
        ↔ (length creation.now.members.items ≡ member_count creation.now.facts)
        × (length creation.now.items.items ≡ item_count creation.now.facts) }
{
    creation.members.len() == member_count(&creation.facts)
        && creation.items.len() == item_count(&creation.facts)
}

// Whether everything that people read or type keeps the rules for names and tags.
fn has_texts(creation: &Creation) -> bool
    ensures { IsTrue result
        ↔ IsName (text creation.now.title) × All IsName (map text creation.now.members.items)
        × All IsName (map text creation.now.items.items) × IsTag (text creation.now.tag) }
{
    is_name(creation.title.as_str())
        && are_names(creation.members.as_slice())
        && are_names(creation.items.as_slice())
        && is_tag(creation.tag.as_str())
}
