// Players' places in lists, and copies of lists of owners.
ghost use Rattle.std.specs.Prelude.{◌≡◌, ◌<◌, ◌≤◌, length};

use arrayvec::ArrayVec;
use bid_rules::limits::{ITEM_ROOM, MEMBER_ROOM};

/// Players' numbers by the place of the good in the search order, counted from 1.
pub(crate) type OwnerList = ArrayVec<u8, ITEM_ROOM>;

/// The place of a player, counted from 1, in lists by player. What is no player gets a place too, so that no call can fail.
pub(crate) fn place_of(player: u8) -> usize
    ensures { result < MEMBER_ROOM }
{
    usize::from(player).saturating_sub(1).min(MEMBER_ROOM - 1)
}

/// A copy of some owners.
pub(crate) fn copied(owners: &[u8]) -> OwnerList
    requires { length owners.now ≤ ITEM_ROOM }
    ensures { result.items ≡ owners.now }
{
    ArrayVec::try_from(owners).unwrap()
}
