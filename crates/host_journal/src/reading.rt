// Reading an event from its spelling.
ghost use Rattle.std.specs.Prelude.{◌≡◌, ◌≤◌, ◌+◌, ℕ, length, map, IfSome, IfNone, IsSomeAnd, Some};
ghost use Rattle.std.specs.Option.{option_map};
ghost use Rattle.std.specs.Int.{w32, w64};
ghost use Rattle.bid_rules.specs.declared.limits.TheConstants.{PLACE_ROOM};
ghost use Rattle.sealed_core.specs.Host.{EventView, creation_view, event_view, text};
ghost use Rattle.host_journal.specs.Spelling.{Spells};
ghost use Rattle.host_journal.specs.Reading.{KeepsRules, bid_at, bid_kept_at, byte_at, closed_at, created_at, creation_at, event_at, facts_at, fares_at, many_at, names_at, number_at, row_at, text_at, values_at, whole_at, withdrawn_at};

use arrayvec::{ArrayString, ArrayVec};
use bid_rules::limits::{ITEM_ROOM, LONGEST_NAME, LegRow, Legs, MEMBER_ROOM, PLACE_ROOM};
use bid_rules::{Bid, Facts, Fares, Goods, Rent};
use sealed_core::{Creation, Event, Name, Tag};

// Each reader here takes what it reads off the front, and gives the rest; None means that the spelling is broken.
fn byte_of(bytes: &[u8]) -> Option<(u8, &[u8])>
    ensures { option_map (λ x. (x.0, x.1.now)) result ≡ byte_at bytes.now }
{
    match bytes {
        [] => None,
        [byte, rest @ ..] => Some((*byte, rest)),
    }
}

// Numbers are spelled with the lowest byte first.
fn u32_of(bytes: &[u8]) -> Option<(u32, &[u8])>
    ensures { option_map (λ x. (x.0, x.1.now)) result ≡ number_at w32 bytes.now }
{
    if bytes.len() < 4 {
        return None;
    }
    let (front, rest) = bytes.split_at(4);
    let number = u32::from_le_bytes([front[0], front[1], front[2], front[3]]);
    Some((number, rest))
}

// Moments are spelled with the lowest byte first.
fn u64_of(bytes: &[u8]) -> Option<(u64, &[u8])>
    ensures { option_map (λ x. (x.0, x.1.now)) result ≡ number_at w64 bytes.now }
{
    if bytes.len() < 8 {
        return None;
    }
    let (front, rest) = bytes.split_at(8);
    let number = u64::from_le_bytes([
        front[0], front[1], front[2], front[3], front[4], front[5], front[6], front[7],
    ]);
    Some((number, rest))
}

// A text is spelled with its length in front; one that isn't UTF-8 or is too long breaks the spelling.
#[tactic(auto, unfolding(crate::specs::Reading::text_at))]
fn text_of<const ROOM: usize>(bytes: &[u8]) -> Option<(ArrayString<ROOM>, &[u8])>
    ensures { option_map (λ x. (text x.0, x.1.now)) result ≡ text_at ROOM bytes.now }
{
    let (length, rest) = byte_of(bytes)?;
    let length = usize::from(length);
    if rest.len() < length {
        return None;
    }
    let (front, rest) = rest.split_at(length);
    let Ok(front) = str::from_utf8(front) else {
        return None;
    };
    let Ok(text) = ArrayString::from(front) else {
        return None;
    };
    Some((text, rest))
}

// As many names as the room has or fewer.
fn many_names<const ROOM: usize>(count: u8, bytes: &[u8]) -> Option<(ArrayVec<Name, ROOM>, &[u8])>
    requires { count ≤ ROOM }
    ensures { option_map (λ x. (map text x.0.items, x.1.now)) result
        ≡ many_at (text_at LONGEST_NAME) count bytes.now }
{
    let mut names = ArrayVec::new();
    let mut rest = bytes;
    for _ in 0..count {
        let Some(read) = text_of(rest) else {
            return None;
        };
        names.push(read.0);
        rest = read.1;
    }
    Some((names, rest))
}

// Names are spelled with their count in front.
#[tactic(auto, unfolding(crate::specs::Reading::names_at))]
fn names_of<const ROOM: usize>(bytes: &[u8]) -> Option<(ArrayVec<Name, ROOM>, &[u8])>
    ensures { option_map (λ x. (map text x.0.items, x.1.now)) result ≡ names_at ROOM bytes.now }
{
    let (count, rest) = byte_of(bytes)?;
    if usize::from(count) > ROOM {
        return None;
    }
    many_names(count, rest)
}

// As many numbers as the caller knows of: the spelling doesn't repeat their count.
fn numbers_of<const ROOM: usize>(count: u8, bytes: &[u8]) -> Option<(ArrayVec<u32, ROOM>, &[u8])>
    requires { count ≤ ROOM }
    ensures { option_map (λ x. (x.0.items, x.1.now)) result
        ≡ many_at (number_at w32) count bytes.now }
{
    let mut numbers = ArrayVec::new();
    let mut rest = bytes;
    for _ in 0..count {
        let (number, after) = u32_of(rest)?;
        numbers.push(number);
        rest = after;
    }
    Some((numbers, rest))
}

// One row of a table of costs, by the number of places.
#[tactic(auto, unfolding(crate::specs::Reading::row_at))]
fn row_of(places: u8, bytes: &[u8]) -> Option<(LegRow, &[u8])>
    requires { places ≤ PLACE_ROOM }
    ensures { option_map (λ x. (x.0, x.1.now)) result ≡ row_at places bytes.now }
{
    numbers_of(places, bytes)
}

// A table of costs has a row for each place and one for the start.
fn rows_of(places: u8, bytes: &[u8]) -> Option<(Legs, &[u8])>
    requires { places ≤ PLACE_ROOM }
    ensures { option_map (λ x. (x.0.items, x.1.now)) result
        ≡ many_at (row_at places) (places + 1) bytes.now }
{
    let mut rows = Legs::new();
    let mut rest = bytes;
    for _ in 0..places + 1 {
        let (row, after) = row_of(places, rest)?;
        rows.push(row);
        rest = after;
    }
    Some((rows, rest))
}

// The members and places were counted by the names, so only the costs are spelled.
#[tactic(auto, unfolding(crate::specs::Reading::fares_at))]
fn fares_of(members: u8, places: u8, bytes: &[u8]) -> Option<(Facts, &[u8])>
    requires { places ≤ PLACE_ROOM }
    ensures { option_map (λ x. (x.0, x.1.now)) result ≡ fares_at members places bytes.now }
{
    let (flag, rest) = u32_of(bytes)?;
    let (legs, rest) = rows_of(places, rest)?;
    let fares = Fares {
        members,
        places,
        flag,
        legs,
    };
    Some((Facts::Fares(fares), rest))
}

// Each kind spells only what the names don't tell.
#[tactic(auto, unfolding(crate::specs::Reading::facts_at))]
fn facts_of(kind: u8, members: u8, items: u8, bytes: &[u8]) -> Option<(Facts, &[u8])>
    ensures { option_map (λ x. (x.0, x.1.now)) result ≡ facts_at kind members items bytes.now }
{
    match kind {
        1 => {
            let (rent, rest) = u32_of(bytes)?;
            Some((Facts::Rent(Rent { members, rent }), rest))
        }
        2 => {
            let (limit, rest) = u32_of(bytes)?;
            let goods = Goods {
                members,
                goods: items,
                limit,
            };
            Some((Facts::Goods(goods), rest))
        }
        3 if usize::from(items) <= PLACE_ROOM => fares_of(members, items, bytes),
        _ => None,
    }
}

// The deadline was read before, since it stands beside the moment.
#[tactic(auto, unfolding(crate::specs::Reading::creation_at))]
fn creation_of(deadline: u64, bytes: &[u8]) -> Option<(Creation, &[u8])>
    ensures { option_map (λ x. (creation_view x.0, x.1.now)) result
        ≡ creation_at deadline bytes.now }
{
    let (kind, rest) = byte_of(bytes)?;
    let Some((tag, rest)): Option<(Tag, &[u8])> = text_of(rest) else {
        return None;
    };
    let Some((title, rest)): Option<(Name, &[u8])> = text_of(rest) else {
        return None;
    };
    let Some((members, rest)): Option<(ArrayVec<Name, MEMBER_ROOM>, &[u8])> = names_of(rest) else {
        return None;
    };
    let Some((items, rest)): Option<(ArrayVec<Name, ITEM_ROOM>, &[u8])> = names_of(rest) else {
        return None;
    };
    let (facts, rest) = facts_of(kind, members.len() as u8, items.len() as u8, rest)?;
    let creation = Creation {
        title,
        members,
        items,
        facts,
        deadline,
        tag,
    };
    Some((creation, rest))
}

// The values of a bid for a rent or for goods, with their count in front.
#[tactic(auto, unfolding(crate::specs::Reading::values_at))]
fn values_of(bytes: &[u8]) -> Option<(Bid, &[u8])>
    ensures { option_map (λ x. (x.0, x.1.now)) result ≡ values_at bytes.now }
{
    let (count, rest) = byte_of(bytes)?;
    if usize::from(count) > ITEM_ROOM {
        return None;
    }
    let (values, rest) = numbers_of(count, rest)?;
    Some((Bid::Values(values), rest))
}

// A byte in front tells values from a place.
#[tactic(auto, unfolding(crate::specs::Reading::bid_at))]
fn bid_of(bytes: &[u8]) -> Option<(Bid, &[u8])>
    ensures { option_map (λ x. (x.0, x.1.now)) result ≡ bid_at bytes.now }
{
    let (form, rest) = byte_of(bytes)?;
    match form {
        1 => values_of(rest),
        2 => {
            let (place, rest) = byte_of(rest)?;
            Some((Bid::Place(place), rest))
        }
        _ => None,
    }
}

// An event that creates an instance.
#[tactic(auto, unfolding(crate::specs::Reading::created_at))]
fn created_of(bytes: &[u8]) -> Option<(Event, &[u8])>
    ensures { option_map (λ x. (event_view x.0, x.1.now)) result ≡ created_at bytes.now }
{
    let (moment, rest) = u64_of(bytes)?;
    let (deadline, rest) = u64_of(rest)?;
    let Some((creation, rest)) = creation_of(deadline, rest) else {
        return None;
    };
    Some((Event::Create { moment, creation }, rest))
}

// An event that keeps a bid.
#[tactic(auto, unfolding(crate::specs::Reading::bid_kept_at))]
fn bid_kept_of(bytes: &[u8]) -> Option<(Event, &[u8])>
    ensures { option_map (λ x. (event_view x.0, x.1.now)) result ≡ bid_kept_at bytes.now }
{
    let (moment, rest) = u64_of(bytes)?;
    let (id, rest) = u32_of(rest)?;
    let (member, rest) = byte_of(rest)?;
    let (turn, rest) = byte_of(rest)?;
    let (bid, rest) = bid_of(rest)?;
    let event = Event::Bid {
        moment,
        id,
        member,
        turn,
        bid,
    };
    Some((event, rest))
}

// An event that closes an instance.
#[tactic(auto, unfolding(crate::specs::Reading::closed_at))]
fn closed_of(bytes: &[u8]) -> Option<(Event, &[u8])>
    ensures { option_map (λ x. (event_view x.0, x.1.now)) result ≡ closed_at bytes.now }
{
    let (moment, rest) = u64_of(bytes)?;
    let (id, rest) = u32_of(rest)?;
    Some((Event::Close { moment, id }, rest))
}

// An event that takes a bid back.
#[tactic(auto, unfolding(crate::specs::Reading::withdrawn_at))]
fn withdrawn_of(bytes: &[u8]) -> Option<(Event, &[u8])>
    ensures { option_map (λ x. (event_view x.0, x.1.now)) result ≡ withdrawn_at bytes.now }
{
    let (moment, rest) = u64_of(bytes)?;
    let (id, rest) = u32_of(rest)?;
    let (member, rest) = byte_of(rest)?;
    let (turn, rest) = byte_of(rest)?;
    let event = Event::Withdraw {
        moment,
        id,
        member,
        turn,
    };
    Some((event, rest))
}

// The first byte tells the kind of an event.
#[tactic(auto, unfolding(crate::specs::Reading::event_at))]
fn event_of(bytes: &[u8]) -> Option<(Event, &[u8])>
    ensures { option_map (λ x. (event_view x.0, x.1.now)) result ≡ event_at bytes.now }
{
    let (kind, rest) = byte_of(bytes)?;
    match kind {
        1 => created_of(rest),
        2 => bid_kept_of(rest),
        3 => closed_of(rest),
        4 => withdrawn_of(rest),
        _ => None,
    }
}

// A body holds one event and nothing after it.
#[tactic(auto, unfolding(crate::specs::Reading::whole_at))]
fn whole_of(bytes: &[u8]) -> Option<Event>
    ensures { option_map event_view result ≡ whole_at bytes.now }
{
    let Some((event, rest)) = event_of(bytes) else {
        return None;
    };
    if rest.is_empty() { Some(event) } else { None }
}

// The event, if a creation in it keeps its rules. A deadline past the last isn't a matter for spelling: such an
// event can't be applied.
fn with_rules(event: Event) -> Option<Event>
    ensures same { IfSome result (λ kept. kept ≡ event) }
    ensures kept { IfSome result (λ _. KeepsRules (event_view event)) }
    ensures broken { IfNone result (KeepsRules (event_view event) → ⊥) }
{
    match event {
        Event::Create {
            moment,
            mut creation,
        } => {
            let deadline = creation.deadline;
            creation.deadline = 0;
            if !creation.is_checked() {
                return None;
            }
            creation.deadline = deadline;
            Some(Event::Create { moment, creation })
        }
        other => Some(other),
    }
}

/// The event that a body spells, or `None` exactly when it spells none: if it isn't the bytes of an event and
/// nothing more, or a creation in it breaks its rules. It takes no memory.
///
/// A creation's texts are UTF-8 within their limits, its lists fit, its facts are checked and have
/// the counts of its lists. Its deadline may be any.
pub fn read_event(body: &[u8]) -> Option<Event>
    ensures found { IfSome result (λ event. Spells (event_view event) body.now) }
    ensures none { IfNone result ((e : EventView) → Spells e body.now → ⊥) }
    ensures again { (e : EventView) → Spells e body.now
        → IsSomeAnd result (λ event. event_view event ≡ e) }
{
    with_rules(whole_of(body)?)
}
