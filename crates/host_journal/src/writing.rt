// The spelling of an event. It takes no memory: each event fits the room of a body.
ghost use Rattle.std.specs.Prelude.{◌≡◌, ◌≤◌, ◌+◌, ◌*◌, ◌++◌, ◌∷◌, [], ◌<◌, ◌^◌, length, map, flat_map, IfOk, OnOk, All};
ghost use Rattle.std.specs.Str.{IsUtf8};
ghost use Rattle.std.specs.Int.{to_le_bytes, w32, w64};
ghost use Rattle.sealed_core.specs.Host.{CanApply, Created, HostView, creation_view, event_view, text};
ghost use Rattle.gate_log.specs.Records.{IsBody};
ghost use Rattle.gate_log.specs.declared.limits.TheConstants.{BODY_ROOM};
ghost use Rattle.host_journal.specs.Reading.{KeepsRules};
ghost use Rattle.host_journal.specs.Spelling.{FitsBid, FitsTypes, IsEvent, text_bytes, texts_bytes, numbers_bytes, kind_of, facts_bytes, bid_bytes, creation_bytes, spelling};

use bid_rules::limits::LegRow;
use bid_rules::{Bid, Facts};
use gate_log::Body;
use sealed_core::{Creation, Event, Name};
use split_base::NoMemory;
use std::alloc::Global;

// The caller has shown that there is room, so the bytes always fit.
fn put(body: &mut Body, bytes: &[u8])
    requires { length body.old.items + length bytes.now ≤ BODY_ROOM }
    ensures bytes { body.new.items ≡ body.old.items ++ bytes.now }
    ensures size { length body.new.items ≡ length body.old.items + length bytes.now }
{
    let _ = body.try_extend_from_slice(bytes);
}

// A text comes with its length in front, so that a reader knows where it ends.
fn put_text(body: &mut Body, text: &str)
    requires short { length text.now < 2 ^ 8 }
    requires room { length body.old.items + 1 + length text.now ≤ BODY_ROOM }
    ensures spelled { body.new.items ≡ body.old.items ++ text_bytes text.now }
    ensures size { length body.new.items ≡ length body.old.items + 1 + length text.now }
    ensures fits { IsUtf8 text.now }
{
    put(body, &[text.len() as u8]);
    put(body, text.as_bytes());
}

// A name is at most 40 bytes long, so that its room is known without looking.
fn put_name(body: &mut Body, name: &Name)
    requires { length body.old.items + 41 ≤ BODY_ROOM }
    ensures spelled { body.new.items ≡ body.old.items ++ text_bytes (text name.now) }
    ensures size { length body.new.items ≤ length body.old.items + 41 }
    ensures fits { IsUtf8 (text name.now) }
{
    put_text(body, name.as_str());
}

// Names come with their count in front, which also tells a reader how many members or items there are.
fn put_names(body: &mut Body, names: &[Name])
    requires few { length names.now < 2 ^ 8 }
    requires room { length body.old.items + 1 + 41 * length names.now ≤ BODY_ROOM }
    ensures spelled { body.new.items ≡ body.old.items ++ texts_bytes (map text names.now) }
    ensures size { length body.new.items ≤ length body.old.items + 1 + 41 * length names.now }
    ensures fit { All (λ name. IsUtf8 (text name)) names.now }
{
    put(body, &[names.len() as u8]);
    for name in names {
        put_name(body, name);
    }
}

// Numbers are spelled with the lowest byte first, and without their count.
fn put_numbers(body: &mut Body, numbers: &[u32])
    requires { length body.old.items + 4 * length numbers.now ≤ BODY_ROOM }
    ensures spelled { body.new.items ≡ body.old.items ++ numbers_bytes numbers.now }
    ensures size { length body.new.items ≡ length body.old.items + 4 * length numbers.now }
    ensures fit { All (λ n. n < 2 ^ 32) numbers.now }
{
    for number in numbers {
        put(body, &number.to_le_bytes());
    }
}

// A row has as many numbers as there are places, so no count is spelled.
fn put_rows(body: &mut Body, rows: &[LegRow])
    requires { length body.old.items + 48 * length rows.now ≤ BODY_ROOM }
    ensures rows { body.new.items
        ≡ body.old.items ++ numbers_bytes (flat_map (λ row. row.items) rows.now) }
    ensures size { length body.new.items ≤ length body.old.items + 48 * length rows.now }
{
    for row in rows {
        put_numbers(body, row.as_slice());
    }
}

// Only what the names don't tell already: members, rooms, goods and places are counted there.
fn put_facts(body: &mut Body, facts: &Facts)
    requires { length body.old.items + 628 ≤ BODY_ROOM }
    ensures { body.new.items ≡ body.old.items ++ facts_bytes facts.now }
{
    match facts {
        Facts::Rent(rent) => put(body, &rent.rent.to_le_bytes()),
        Facts::Goods(goods) => put(body, &goods.limit.to_le_bytes()),
        Facts::Fares(fares) => {
            put(body, &fares.flag.to_le_bytes());
            put_rows(body, fares.legs.as_slice());
        }
    }
}

// The byte by which a reader tells the kinds apart. Old journals have it, so it never changes.
fn kind_of(facts: &Facts) -> u8
    ensures { result ≡ kind_of facts.now }
{
    match facts {
        Facts::Rent(_) => 1,
        Facts::Goods(_) => 2,
        Facts::Fares(_) => 3,
    }
}

// The names come before the facts, because a reader counts them to know the size of the table.
fn put_creation(body: &mut Body, creation: &Creation)
    requires { length body.old.items ≤ 100 }
    ensures spelled { body.new.items
        ≡ body.old.items ++ creation_bytes (creation_view creation.now) }
    ensures title { IsUtf8 (text creation.now.title) }
    ensures members { All (λ name. IsUtf8 (text name)) creation.now.members.items }
    ensures items { All (λ name. IsUtf8 (text name)) creation.now.items.items }
{
    put(body, &[kind_of(&creation.facts)]);
    put_text(body, creation.tag.as_str());
    put_name(body, &creation.title);
    put_names(body, creation.members.as_slice());
    put_names(body, creation.items.as_slice());
    put_facts(body, &creation.facts);
}

// A byte in front tells values from a place.
fn put_bid(body: &mut Body, bid: &Bid)
    requires { length body.old.items ≤ 100 }
    ensures spelled { body.new.items ≡ body.old.items ++ bid_bytes bid.now }
    ensures fits { FitsBid bid.now }
{
    match bid {
        Bid::Values(values) => {
            put(body, &[1, values.len() as u8]);
            put_numbers(body, values.as_slice());
        }
        Bid::Place(place) => put(body, &[2, *place]),
    }
}

// The kind of an event, its moment, and its instance's id.
fn put_start(body: &mut Body, kind: u8, moment: u64, id: u32)
    requires { length body.old.items ≤ 50 }
    ensures bytes { body.new.items
        ≡ body.old.items ++ (kind ∷ to_le_bytes w64 moment ++ to_le_bytes w32 id) }
    ensures size { length body.new.items ≡ length body.old.items + 13 }
{
    put(body, &[kind]);
    put(body, &moment.to_le_bytes());
    put(body, &id.to_le_bytes());
}

// A creation's kind of event, its moment, its deadline, and what it says.
fn put_created(body: &mut Body, moment: u64, creation: &Creation)
    requires { length body.old.items ≤ 50 }
    ensures spelled { body.new.items
        ≡ body.old.items ++ spelling (Created moment (creation_view creation.now)) }
    ensures fits { FitsTypes (Created moment (creation_view creation.now)) }
{
    put_moments(body, moment, creation.deadline);
    put_creation(body, creation);
}

// Both moments stand in front, where a reader finds the deadline before it reads the creation.
fn put_moments(body: &mut Body, moment: u64, deadline: u64)
    requires { length body.old.items ≤ 50 }
    ensures spelled { body.new.items
        ≡ body.old.items ++ (1 ∷ to_le_bytes w64 moment ++ to_le_bytes w64 deadline) }
    ensures size { length body.new.items ≡ length body.old.items + 17 }
    ensures fits { deadline < 2 ^ 64 }
{
    put(body, &[1]);
    put(body, &moment.to_le_bytes());
    put(body, &deadline.to_le_bytes());
}

// The first byte tells the kind of an event. Old journals have these numbers, so they never change.
fn put_event(body: &mut Body, event: &Event)
    requires { length body.old.items ≤ 50 }
    ensures spelled { body.new.items ≡ body.old.items ++ spelling (event_view event.now) }
    ensures fits { FitsTypes (event_view event.now) }
{
    match event {
        Event::Create { moment, creation } => put_created(body, *moment, creation),
        Event::Bid {
            moment,
            id,
            member,
            turn,
            bid,
        } => {
            put_start(body, 2, *moment, *id);
            put(body, &[*member, *turn]);
            put_bid(body, bid);
        }
        Event::Close { moment, id } => put_start(body, 3, *moment, *id),
        Event::Withdraw {
            moment,
            id,
            member,
            turn,
        } => {
            put_start(body, 4, *moment, *id);
            put(body, &[*member, *turn]);
        }
    }
}

/// The one spelling of an event, as the body of a record. An event fits its types, and so one that
/// keeps its rules has a spelling, of a length that a body may have; what may be applied does. It
/// takes no memory.
pub fn spell_event(event: &Event) -> Body
    ensures spelled { result.items ≡ spelling (event_view event.now) }
    ensures fits { FitsTypes (event_view event.now) }
    ensures rules { KeepsRules (event_view event.now) → IsEvent (event_view event.now) }
    ensures size { KeepsRules (event_view event.now) → IsBody result.items }
    ensures event { (h : HostView) → CanApply h (event_view event.now)
        → IsEvent (event_view event.now) }
{
    let mut body = Body::new();
    put_event(&mut body, event);
    body
}

/// The spelling of an event, as `spell_event` gives it, in memory of its own. The host writes by `spell_event`, which
/// takes none; this is for a caller who wants a `Vec`.
pub fn write_event(alloc: Global, event: &Event) -> Result<Vec<u8>, NoMemory>
    ensures spelled { IfOk result (λ body. body.items ≡ spelling (event_view event.now)) }
    ensures fits { OnOk result (FitsTypes (event_view event.now)) }
    ensures rules { KeepsRules (event_view event.now)
        → OnOk result (IsEvent (event_view event.now)) }
    ensures size { KeepsRules (event_view event.now) → IfOk result (λ body. IsBody body.items) }
    ensures event { (h : HostView) → CanApply h (event_view event.now)
        → OnOk result (IsEvent (event_view event.now)) }
{
    let spelled = spell_event(event);
    let mut body = Vec::new(alloc);
    match body.extend_from_slice(&spelled) {
        Ok(()) => Ok(body),
        Err(_) => Err(NoMemory),
    }
}
