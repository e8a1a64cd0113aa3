// Numbers of a caller as the rows of a case.
ghost use Rattle.std.specs.Prelude.{◌≡◌, ◌≤◌, ◌*◌, length, map, take, drop};
ghost use Rattle.std.specs.List.{range_with_len};
ghost use Rattle.bid_rules.specs.declared.limits.TheConstants.{ITEM_ROOM, LEG_ROW_ROOM, MEMBER_ROOM, PLACE_ROOM};

use arrayvec::ArrayVec;
use bid_rules::limits::{Legs, ValueTable};

/// Numbers as a list, for which there is room.
pub fn list_of<T: Copy + Default, const N: usize>(numbers: &[T]) -> ArrayVec<T, N>
    requires { length numbers.now ≤ N }
    ensures { result.items ≡ numbers.now }
{
    ArrayVec::try_from(numbers).unwrap()
}

// Values in this many rows of one length.
pub(crate) fn value_rows(count: usize, size: usize, amounts: &[u32]) -> ValueTable
    requires few { count ≤ MEMBER_ROOM }
    requires short { size ≤ ITEM_ROOM }
    requires size { length amounts.now ≡ count * size }
    ensures { result.items
        ≡ map (λ k. record { items = take size (drop (k * size) amounts.now) })
        (range_with_len 0 count) }
{
    let mut rows = ValueTable::new();
    for k in 0..count {
        let (_, rest) = amounts.split_at(k * size);
        let (row, _) = rest.split_at(size);
        rows.push(list_of(row));
    }
    rows
}

// Legs in this many rows of one length.
pub(crate) fn leg_rows(count: usize, size: usize, amounts: &[u32]) -> Legs
    requires few { count ≤ LEG_ROW_ROOM }
    requires short { size ≤ PLACE_ROOM }
    requires size { length amounts.now ≡ count * size }
    ensures { result.items
        ≡ map (λ k. record { items = take size (drop (k * size) amounts.now) })
        (range_with_len 0 count) }
{
    let mut rows = Legs::new();
    for k in 0..count {
        let (_, rest) = amounts.split_at(k * size);
        let (row, _) = rest.split_at(size);
        rows.push(list_of(row));
    }
    rows
}
