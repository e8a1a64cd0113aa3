// Owners by number of the good, and owners in the order of the search: each from the other.
ghost use Rattle.std.specs.Prelude.{◌≡◌, ℕ, ◌-◌, ◌<◌, ◌==◌, length, slice_index};
ghost use Rattle.std.specs.List.{position_or_len};
ghost use Rattle.bid_rules.specs.Goods.{IsValidGoodsCase, in_search_order, order_of, owners_by_good};

use arrayvec::ArrayVec;
use bid_rules::GoodsCase;
use bid_rules::limits::ITEM_ROOM;

/// The owners by good number, from the case's search order and the owners in that order.
pub fn owners_by_good(case: &GoodsCase, order: &[u8], list: &[u8]) -> ArrayVec<u8, ITEM_ROOM>
    requires case { IsValidGoodsCase case.now }
    requires order { order.now ≡ order_of case.now }
    requires list { length list.now ≡ length order.now }
    ensures { result.items ≡ owners_by_good case.now list.now }
{
    let mut owners = ArrayVec::new();
    for k in 0..case.facts.goods {
        owners.push(owner_of(order, list, k + 1));
    }
    owners
}

// Who has the good, from owners in search order.
fn owner_of(order: &[u8], list: &[u8], good: u8) -> u8
    requires { length list.now ≡ length order.now }
    ensures { result ≡ slice_index list.now (position_or_len (λ other. other == good) order.now) }
{
    for (k, other) in order.iter().enumerate() {
        if *other == good {
            return list[k];
        }
    }
    0
}

/// The owners in search order, from the case's search order and the owners by good number.
pub fn owners_in_order(case: &GoodsCase, order: &[u8], owners: &[u8]) -> ArrayVec<u8, ITEM_ROOM>
    requires case { IsValidGoodsCase case.now }
    requires order { order.now ≡ order_of case.now }
    requires owners { length owners.now ≡ case.now.facts.goods }
    ensures { result.items ≡ in_search_order case.now owners.now }
{
    let mut list = ArrayVec::new();
    for k in 0..order.len() {
        list.push(owner_at(case, order, owners, k));
    }
    list
}

// The owner of the good at a place of the search order.
fn owner_at(case: &GoodsCase, order: &[u8], owners: &[u8], place: usize) -> u8
    requires case { IsValidGoodsCase case.now }
    requires order { order.now ≡ order_of case.now }
    requires owners { length owners.now ≡ case.now.facts.goods }
    requires place { place < length order.now }
    ensures { result ≡ slice_index owners.now (slice_index order.now place - 1) }
{
    owners[usize::from(order[place]) - 1]
}
