// Reads the printed case and the printed rooms.
ghost use Rattle.std.specs.Prelude.{◌≡◌};
ghost use Rattle.std.specs.Option.{MatchOption};
ghost use Rattle.cert_reader.specs.Views.{rent_view};
ghost use Rattle.rent_rules.specs.Printed.{printed_case, printed_rooms};
ghost use Rattle.rent_rules.specs.Rules.{HasCase, HasRooms};

use bid_rules::limits::{MOST_RENT, MemberList};
use bid_rules::{Rent, RentCase};
use cert_reader::RentText;
use rule_verdicts::{has_each, members_between, rows_of_amounts};

// The printed case, if it is a valid one.
pub(crate) fn case_of(text: &RentText) -> Option<RentCase>
    ensures { MatchOption result (HasCase (rent_view text.now) → ⊥) (λ case.
        HasCase (rent_view text.now) × (case ≡ printed_case (rent_view text.now))) }
{
    if text.rent < 0 || text.rent > i128::from(MOST_RENT) {
        return None;
    }
    let Some(values) = rows_of_amounts(text.values.as_slice(), MOST_RENT) else {
        return None;
    };
    let case = RentCase {
        facts: Rent {
            members: text.rooms.len() as u8,
            rent: text.rent as u32,
        },
        values,
    };
    if case.is_valid() { Some(case) } else { None }
}

// The printed rooms, if they are the rooms of the case in some order.
pub(crate) fn rooms_of(text: &RentText) -> Option<MemberList>
    ensures { MatchOption result (HasRooms (rent_view text.now) → ⊥) (λ rooms.
        HasRooms (rent_view text.now) × (rooms.items ≡ printed_rooms (rent_view text.now))) }
{
    let count = text.rooms.len() as u8;
    let Some(rooms) = members_between(text.rooms.as_slice(), 1, count) else {
        return None;
    };
    if has_each(rooms.as_slice(), count) {
        Some(rooms)
    } else {
        None
    }
}
