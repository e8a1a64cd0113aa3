// The positive utilities of some owners.
ghost use Rattle.std.specs.Prelude.{◌≡◌, ◌+◌, ◌++◌, ◌≤◌, [], ◌∷◌, All, length, nat_lt};
ghost use Rattle.std.specs.List.{filter};
ghost use Rattle.bid_rules.specs.Goods.{IsValidGoodsCase, player_count, utilities};
ghost use Rattle.estate_bounds.specs.Shown.{shares_of};
ghost use Rattle.nash_bounds.specs.Lanes.{IsLanes};

use crate::limits::Shares;
use arrayvec::ArrayVec;
use bid_rules::GoodsCase;
use bid_rules::limits::{MEMBER_ROOM, WHOLE_POINTS};
use nash_bounds::{Lanes, players};

// Keeps a positive number.
fn push_positive(shares: &mut Shares, points: u16)
    requires { length shares.old.items + 1 ≤ MEMBER_ROOM }
    ensures items { shares.new.items ≡ shares.old.items ++ filter (nat_lt 0) (points ∷ []) }
    ensures few { length shares.new.items ≤ length shares.old.items + 1 }
{
    if points > 0 {
        shares.push(u64::from(points));
    }
}

/// The utilities of the players who have something from the owners, in the order of the players.
pub fn shares_under(case: &GoodsCase, owners: &[u8], lanes: &Lanes) -> Shares
    requires few { player_count case.now ≤ MEMBER_ROOM }
    requires lanes { IsLanes case.now owners.now lanes.now }
    ensures { result.items ≡ shares_of (utilities case.now owners.now) }
{
    let low = lanes.low.as_array();
    let mut shares = ArrayVec::new();
    for k in 0..usize::from(players(case)) {
        push_positive(&mut shares, low[k]);
    }
    shares
}
