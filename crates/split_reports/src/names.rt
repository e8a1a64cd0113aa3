// What reports call by name: the case, its members, and what is divided.
ghost use Rattle.std.specs.Prelude.{◌≡◌, ◌≤◌, map, length};
ghost use Rattle.split_reports.specs.Parts.{text_at};

use arrayvec::ArrayVec;
use bid_rules::limits::{ITEM_ROOM, MEMBER_ROOM};
use body_fields::Name;
use split_frac::Named;

/// What a text on a case calls by name.
#[derive(Drop)]
pub struct Names<'a> {
    /// What the case is called.
    pub title: &'a Name,
    /// The names of the members, by number.
    pub members: &'a ArrayVec<Name, MEMBER_ROOM>,
    /// The names of what is divided, by number: the rooms, the goods or the places.
    pub items: &'a ArrayVec<Name, ITEM_ROOM>,
}

impl<'a> Names<'a> {
    /// What a text calls by these names.
    pub fn new(
        title: &'a Name,
        members: &'a ArrayVec<Name, MEMBER_ROOM>,
        items: &'a ArrayVec<Name, ITEM_ROOM>,
    ) -> Names<'a>
        ensures title { result.title.now ≡ title.now }
        ensures members { result.members.now ≡ members.now }
        ensures items { result.items.now ≡ items.now }
    {
        Names {
            title,
            members,
            items,
        }
    }
}

/// The number and the name that goes with it.
pub fn named(names: &[Name], number: u8) -> Named<'_>
    requires low { 1 ≤ number }
    requires high { number ≤ length names.now }
    ensures number { result.number ≡ number }
    ensures name { result.name.now ≡ text_at (map (λ name. name.bytes) names.now) number }
{
    Named {
        number,
        name: names[number as usize - 1].as_str(),
    }
}
