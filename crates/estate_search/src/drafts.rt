// A division that is improved good by good.
ghost use Rattle.std.specs.Prelude.{◌<◌, ◌≤◌, length};

use crate::players::place_of;
use bid_rules::limits::{ITEM_ROOM, MEMBER_ROOM};
use nash_bounds::{LaneRow, Pair};

// More rounds of improvement than any division takes.
const MOST_ROUNDS: u32 = 10_000;

/// A division: the owners by place in the search order, and what the players have.
#[derive(Clone, Copy)]
pub(crate) struct Draft {
    pub(crate) owners: [u8; ITEM_ROOM],
    pub(crate) sums: [u32; MEMBER_ROOM],
}

/// The points that the player gives the good of this row.
pub(crate) fn points_in(row: &LaneRow, player: u8) -> u32 {
    u32::from(row.points.as_array()[place_of(player)])
}

// Whether two players with these sums do better than with those.
fn is_better(new: [u32; 2], old: [u32; 2]) -> bool {
    let (new_count, old_count) = (count_of(new), count_of(old));
    new_count > old_count || (new_count == old_count && product_of(new) > product_of(old))
}

fn count_of(sums: [u32; 2]) -> u8 {
    u8::from(sums[0] > 0) + u8::from(sums[1] > 0)
}

fn product_of(sums: [u32; 2]) -> u64 {
    u64::from(sums[0].max(1)) * u64::from(sums[1].max(1))
}

impl Draft {
    /// Nothing is given yet.
    pub(crate) fn new() -> Draft {
        Draft {
            owners: [0; ITEM_ROOM],
            sums: [0; MEMBER_ROOM],
        }
    }

    /// The number of players with points, and the product of their points.
    pub(crate) fn pair(&self) -> Pair {
        let mut pair = Pair {
            count: 0,
            product: 1,
        };
        for sum in self.sums {
            pair.count = pair.count.saturating_add(u8::from(sum > 0));
            pair.product = pair.product.saturating_mul(u128::from(sum.max(1)));
        }
        pair
    }

    /// Gives the good at this place, which nobody has yet, to the player.
    pub(crate) fn give(&mut self, rows: &[LaneRow], place: usize, player: u8)
        requires rows { length rows.now ≤ ITEM_ROOM }
        requires place { place < length rows.now }
    {
        let sum = &mut self.sums[place_of(player)];
        *sum = sum.saturating_add(points_in(&rows[place], player));
        self.owners[place] = player;
    }

    /// Takes the good at this place from its owner, and gives it to the player.
    pub(crate) fn move_to(&mut self, rows: &[LaneRow], place: usize, player: u8)
        requires rows { length rows.now ≤ ITEM_ROOM }
        requires place { place < length rows.now }
    {
        let owner = self.owners[place];
        let sum = &mut self.sums[place_of(owner)];
        *sum = sum.saturating_sub(points_in(&rows[place], owner));
        self.give(rows, place, player);
    }

    // Moves the good to the player, if that is better.
    fn try_move(&mut self, rows: &[LaneRow], place: usize, player: u8) -> bool
        requires rows { length rows.now ≤ ITEM_ROOM }
        requires place { place < length rows.now }
    {
        let owner = self.owners[place];
        if owner == player {
            return false;
        }
        let old = [self.sums[place_of(owner)], self.sums[place_of(player)]];
        let row = &rows[place];
        let new = [
            old[0].saturating_sub(points_in(row, owner)),
            old[1].saturating_add(points_in(row, player)),
        ];
        let better = is_better(new, old);
        if better {
            self.move_to(rows, place, player);
        }
        better
    }

    // Exchanges two goods between their owners, if that is better.
    fn try_swap(&mut self, rows: &[LaneRow], a: usize, b: usize) -> bool
        requires rows { length rows.now ≤ ITEM_ROOM }
        requires a { a < length rows.now }
        requires b { b < length rows.now }
    {
        let (one, two) = (self.owners[a], self.owners[b]);
        if one == two {
            return false;
        }
        let old = [self.sums[place_of(one)], self.sums[place_of(two)]];
        let (row_a, row_b) = (&rows[a], &rows[b]);
        let new = [
            old[0]
                .saturating_add(points_in(row_b, one))
                .saturating_sub(points_in(row_a, one)),
            old[1]
                .saturating_add(points_in(row_a, two))
                .saturating_sub(points_in(row_b, two)),
        ];
        let better = is_better(new, old);
        if better {
            self.move_to(rows, a, two);
            self.move_to(rows, b, one);
        }
        better
    }

    // Tries to give the good to each player in turn.
    fn try_moves(&mut self, rows: &[LaneRow], players: u8, place: usize) -> bool
        requires rows { length rows.now ≤ ITEM_ROOM }
        requires place { place < length rows.now }
    {
        let mut moved = false;
        for player in 1..players.saturating_add(1) {
            moved |= self.try_move(rows, place, player);
        }
        moved
    }

    // Tries to exchange the good for each one before it.
    fn try_swaps(&mut self, rows: &[LaneRow], place: usize) -> bool
        requires rows { length rows.now ≤ ITEM_ROOM }
        requires place { place < length rows.now }
    {
        let mut swapped = false;
        for other in 0..place {
            swapped |= self.try_swap(rows, place, other);
        }
        swapped
    }

    // Goes through all goods once.
    fn try_all(&mut self, rows: &[LaneRow], players: u8) -> bool
        requires { length rows.now ≤ ITEM_ROOM }
    {
        let mut better = false;
        for place in 0..rows.len() {
            better |= self.try_moves(rows, players, place);
            better |= self.try_swaps(rows, place);
        }
        better
    }

    /// Moves single goods and exchanges pairs of goods as long as that is better.
    pub(crate) fn climb(&mut self, rows: &[LaneRow], players: u8)
        requires { length rows.now ≤ ITEM_ROOM }
    {
        for _ in 0..MOST_ROUNDS {
            if !self.try_all(rows, players) {
                return;
            }
        }
    }
}
