// Twins of a prefix: other owners of the same goods with whom everybody does as well, so that the prefix is not needed. The judge finds out
// whether they are; here they are only looked for.
ghost use Rattle.std.specs.Prelude.{◌<◌, ◌≤◌, length};

use crate::drafts::points_in;
use crate::players::{OwnerList, copied};
use crate::words::word_at;
use arrayvec::ArrayVec;
use bid_rules::limits::{ITEM_ROOM, MEMBER_ROOM};
use nash_bounds::LaneRow;
use nash_bounds::limits::LANES;

// How many bytes a kept prefix takes: its slot, its key and its owners.
const ENTRY: usize = SLOT + KEY_ROOM + ITEM_ROOM;
// How many bytes name a slot, or stand in one.
const SLOT: usize = 4;

const KEY_ROOM: usize = 1 + 2 * MEMBER_ROOM;
// How many slots there are for each prefix that can be kept.
const SLOTS_EACH: usize = 2;
// How many slots are tried, from the first one of a key on.
const TRIES: u32 = 16;

/// What the players have under a prefix, in falling order among alike players: how many goods it gives, and their sums.
pub(crate) type Key = [u8; KEY_ROOM];

/// The prefixes that were walked, by what the players have, in lent memory: entries from its front on, in the order in which they came, and behind all of them a
/// table of slots, each of which has the number of an entry. What a slot says counts only if that entry was kept in this slot, so no memory has to be cleared.
/// Where there is no more room, fewer twins are found.
#[derive(Drop)]
pub(crate) struct Twins<'a> {
    entries: &'a mut [u8],
    slots: &'a mut [u8],
    kept: u32,
}

/// The key of a prefix of so many goods.
pub(crate) fn key_of(goods: usize, ranked: &[u16; LANES]) -> Key {
    let mut key = [0; KEY_ROOM];
    key[0] = goods.min(ITEM_ROOM) as u8;
    for k in 0..MEMBER_ROOM {
        let [low, high] = ranked[k].to_le_bytes();
        key[1 + 2 * k] = low;
        key[2 + 2 * k] = high;
    }
    key
}

// Scatters keys over the slots.
fn hash_of(key: &Key) -> u64 {
    let mut hash: u64 = 0xcbf2_9ce4_8422_2325;
    for byte in key {
        hash = (hash ^ u64::from(*byte)).wrapping_mul(0x0000_0100_0000_01b3);
    }
    hash ^ (hash >> 32)
}

// Puts bytes into a table, if there is room.
fn set_at(table: &mut [u8], at: usize, bytes: &[u8]) {
    let end = at.saturating_add(bytes.len());
    if at <= end && end <= table.len() {
        table[at..end].copy_from_slice(bytes);
    }
}

impl<'a> Twins<'a> {
    /// So many prefixes were kept in this memory already.
    pub(crate) fn new(room: &'a mut [u8], kept: u32) -> Twins<'a> {
        let most = room.len() / (ENTRY + SLOTS_EACH * SLOT);
        let (entries, slots) = room.split_at_mut(most * ENTRY);
        Twins {
            entries,
            slots,
            kept,
        }
    }

    /// How many prefixes are kept.
    pub(crate) fn kept(&self) -> u32 {
        self.kept
    }

    /// Begins anew.
    pub(crate) fn clear(&mut self) {
        self.kept = 0;
    }

    // The slot that is tried next for a key.
    fn slot(&self, key: &Key, tried: u32) -> u32 {
        let count = (self.slots.len() / SLOT).min(u32::MAX as usize) as u64;
        let scattered = hash_of(key).wrapping_add(u64::from(tried));
        (scattered % count.max(1)) as u32
    }

    // The place of the entry that was kept in this slot.
    fn entry(&self, slot: u32) -> Option<usize> {
        let number = word_at(self.slots, slot as usize * SLOT)?;
        let at = (number as usize).checked_mul(ENTRY)?;
        if number < self.kept && word_at(self.entries, at) == Some(slot) {
            Some(at)
        } else {
            None
        }
    }

    // The slot in which a key is or can be kept.
    fn slot_of(&self, key: &Key) -> Option<u32> {
        for tried in 0..TRIES {
            let slot = self.slot(key, tried);
            match self.entry(slot) {
                Some(at) if !self.has_key(at, key) => {}
                _ => return Some(slot),
            }
        }
        None
    }

    // Whether the entry at this place has this key.
    fn has_key(&self, at: usize, key: &Key) -> bool {
        let from = at.saturating_add(SLOT);
        self.entries.get(from..from.saturating_add(KEY_ROOM)) == Some(key.as_slice())
    }

    /// Keeps a prefix, if there is room for it.
    pub(crate) fn keep(&mut self, key: &Key, owners: &[u8]) {
        let at = (self.kept as usize).saturating_mul(ENTRY);
        let Some(slot) = self.slot_of(key) else {
            return;
        };
        if at.saturating_add(ENTRY) > self.entries.len() {
            return;
        }
        set_at(self.entries, at, &slot.to_le_bytes());
        set_at(self.entries, at.saturating_add(SLOT), key);
        set_at(self.entries, at.saturating_add(SLOT + KEY_ROOM), owners);
        set_at(self.slots, slot as usize * SLOT, &self.kept.to_le_bytes());
        self.kept = self.kept.saturating_add(1);
    }

    // The last owners of a prefix that was walked and gives everybody the same, from where it differs.
    fn same(&self, key: &Key, owners: &[u8]) -> Option<OwnerList>
        requires { length owners.now ≤ ITEM_ROOM }
    {
        let at = self.entry(self.slot_of(key)?)?;
        let from = at.saturating_add(SLOT + KEY_ROOM);
        let other = self.entries.get(from..from.saturating_add(owners.len()))?;
        for k in 0..owners.len() {
            if other[k] != owners[k] {
                return Some(copied(&other[k..owners.len()]));
            }
        }
        None
    }
}

// The first player who wants the good, or else the first player.
fn first_wanting(row: &LaneRow, players: u8) -> u8 {
    for player in 1..players.saturating_add(1) {
        if points_in(row, player) > 0 {
            return player;
        }
    }
    1
}

// Where the last good goes to somebody who gives it nothing, another owner for it.
fn wanting(rows: &[LaneRow], players: u8, owners: &[u8]) -> Option<OwnerList>
    requires some { 0 < length owners.now }
    requires few { length owners.now ≤ length rows.now }
{
    let last = owners.len() - 1;
    let row = &rows[last];
    let wanting = first_wanting(row, players);
    if points_in(row, owners[last]) > 0 || wanting == owners[last] {
        return None;
    }
    Some(copied(&[wanting]))
}

// Whether nobody loses where the owners of two goods exchange them, and somebody gains or the list comes to stand earlier.
fn is_exchange(rows: &[LaneRow], owners: &[u8], place: usize, last: usize) -> bool
    requires place { place < length owners.now }
    requires last { last < length owners.now }
    requires few { length owners.now ≤ length rows.now }
{
    let (owner, other) = (owners[last], owners[place]);
    let new = (
        points_in(&rows[last], other),
        points_in(&rows[place], owner),
    );
    let old = (
        points_in(&rows[place], other),
        points_in(&rows[last], owner),
    );
    owner != other
        && new.0 >= old.0
        && new.1 >= old.1
        && (new.0 > old.0 || new.1 > old.1 || owner < other)
}

// The last owners after an exchange of the last good for an earlier one by which nobody loses.
fn exchanged(rows: &[LaneRow], owners: &[u8]) -> Option<OwnerList>
    requires some { 0 < length owners.now }
    requires few { length owners.now ≤ length rows.now }
    requires room { length owners.now ≤ ITEM_ROOM }
{
    let last = owners.len() - 1;
    for place in (0..last).rev() {
        if is_exchange(rows, owners, place, last) {
            return Some(with_swap(owners, place, last));
        }
    }
    None
}

// The owners from this place on, with the two exchanged.
fn with_swap(owners: &[u8], place: usize, last: usize) -> OwnerList
    requires place { place < length owners.now }
    requires last { last < length owners.now }
    requires room { length owners.now ≤ ITEM_ROOM }
{
    let mut all = [0; ITEM_ROOM];
    for k in 0..owners.len() {
        all[k] = owners[k];
    }
    all.swap(place, last);
    copied(&all[place..owners.len()])
}

/// The last owners of a twin, if one is found.
pub(crate) fn twin_of(
    rows: &[LaneRow],
    players: u8,
    owners: &[u8],
    key: &Key,
    twins: &Twins<'_>,
) -> Option<OwnerList>
    requires some { 0 < length owners.now }
    requires few { length owners.now ≤ length rows.now }
    requires room { length owners.now ≤ ITEM_ROOM }
{
    if let Some(owners) = wanting(rows, players, owners) {
        return Some(owners);
    }
    if let Some(owners) = exchanged(rows, owners) {
        return Some(owners);
    }
    twins.same(key, owners)
}
