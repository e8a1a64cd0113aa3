// The search for weights that close a prefix: tatonnement on the dual of the program of Eisenberg and Gale (1959), in whole numbers.
//
// With weights, each free good goes to those to whom it is worth nearly most, in shares that fall steeply. A player who then has more than
// their part of the whole gets a smaller weight, and one who has less a greater one. Nothing here needs to be right: what comes out is judged.
// So sums and products that stay far below 2^64 are written to wrap or to stop at the greatest number, and no range is proved.
ghost use Rattle.std.specs.Prelude.{◌<◌, ◌≤◌};
ghost use Rattle.estate_search.specs.Fronts.{IsLanedFront};

use crate::estate::Estate;
use crate::fronts::Front;
use crate::logs::{NEAR, RoughLogs};
use crate::shares::{Aim, Fine, Look, greatest};
use crate::stated::MOST_WEIGHT;
use bid_rules::limits::MEMBER_ROOM;

// The greatest fine weight is from 2 to this power to twice as much.
const GREAT: u32 = 25;
// The least fine weight.
const LEAST: u64 = 1 << 10;
// The most that a player counts as missing or having, in units of 2^-16 points.
const MOST_PART: u64 = 1 << 27;
// The logarithm of a whole point in those units.
const POINT_LOG: i64 = 16 << 24;

// How steeply goods are shared, and by how many 256ths weights move.
#[derive(Clone, Copy)]
struct Pace {
    squarings: u8,
    step: u8,
}

const TURNS: u8 = 72;

// The pace of a turn, which falls from turn to turn.
fn pace_of(turn: u8) -> Pace {
    let (squarings, step) = match turn {
        0..=7 => (3, 77),
        8..=23 => (4, 38),
        24..=47 => (6, 15),
        _ => (7, 7),
    };
    Pace { squarings, step }
}

/// The best weights found, and whether they close the prefix.
#[derive(Clone, Copy)]
pub(crate) struct Tuned {
    pub(crate) fine: Fine,
    pub(crate) closes: bool,
}

/// The same weight for each of the players.
pub(crate) fn even(players: usize) -> Fine
    requires { players ≤ MEMBER_ROOM }
{
    let mut fine = [0; MEMBER_ROOM];
    for k in 0..players {
        fine[k] = 1 << GREAT;
    }
    fine
}

// Whether the players' weights count in the bound: those of the players with points, and the least others until there are enough.
fn counted(aim: &Aim<'_>, fine: &Fine) -> [bool; MEMBER_ROOM] {
    let mut counted = [false; MEMBER_ROOM];
    for k in 0..aim.players {
        counted[k] = aim.low[k] > 0 || rank(aim, fine, k) < aim.count.saturating_sub(aim.have);
    }
    counted
}

// How many players without points have a smaller weight than this one, or the same and a lower number.
fn rank(aim: &Aim<'_>, fine: &Fine, player: usize) -> u8
    requires { player < MEMBER_ROOM }
{
    let mut rank: u8 = 0;
    for k in 0..aim.players {
        let before = fine[k] < fine[player] || (fine[k] == fine[player] && k < player);
        if aim.low[k] == 0 && before {
            rank = rank.saturating_add(1);
        }
    }
    rank
}

// The logarithm of the bound that the weights give.
fn value_of(
    aim: &Aim<'_>,
    logs: &RoughLogs,
    fine: &Fine,
    look: &Look,
    counted: &[bool; MEMBER_ROOM],
) -> i64 {
    let mut value = look.value;
    if !aim.one_each {
        let mean = logs
            .of(look.whole)
            .saturating_sub(logs.of(u64::from(aim.count)));
        value = value.saturating_add(mean.saturating_mul(i64::from(aim.count)));
    }
    for k in 0..aim.players {
        if counted[k] && !aim.is_settled(k) {
            value = value.saturating_sub(logs.of(u64::from(fine[k])));
        }
    }
    value
}

// The logarithm of the product that the shares of the goods reach.
fn reached(aim: &Aim<'_>, logs: &RoughLogs, look: &Look) -> i64 {
    let mut reached: i64 = 0;
    for k in 0..aim.players {
        if look.parts[k] == 0 {
            return i64::MIN;
        }
        reached = reached.saturating_add(logs.of(look.parts[k]).saturating_sub(POINT_LOG));
    }
    reached
}

// Whether the shares of the goods reach the goal, so that no weights can close the prefix.
fn is_hopeless(aim: &Aim<'_>, logs: &RoughLogs, look: &Look) -> bool {
    usize::from(aim.count) == aim.players
        && !aim.one_each
        && reached(aim, logs, look) > aim.goal.saturating_add(NEAR)
}

// What is a player's part of the whole, in units of 2^-16 points or goods.
fn due(aim: &Aim<'_>, look: &Look, weight: u32, counts: bool) -> u64 {
    if !counts {
        0
    } else if aim.one_each {
        1 << 16
    } else {
        let parts = u64::from(aim.count) * u64::from(weight);
        ((look.whole << 16) / parts.max(1)).min(MOST_PART)
    }
}

// A weight moved towards that at which the player has what is due.
fn moved(weight: u32, part: u64, due: u64, step: u8) -> u64 {
    if part.max(due) == 0 {
        return u64::from(weight);
    }
    let (more, less) = (256 + u64::from(step), 256 - u64::from(step));
    let up = more.wrapping_mul(due).wrapping_add(less.wrapping_mul(part));
    let down = less.wrapping_mul(due).wrapping_add(more.wrapping_mul(part));
    u64::from(weight).wrapping_mul(up) / down.max(1)
}

// The weights for the next turn.
fn next_weights(
    aim: &Aim<'_>,
    fine: &Fine,
    look: &Look,
    counted: &[bool; MEMBER_ROOM],
    step: u8,
) -> Fine {
    let mut weights = [0; MEMBER_ROOM];
    for k in 0..aim.players {
        weights[k] = if aim.is_settled(k) {
            u64::from(fine[k])
        } else {
            let due = due(aim, look, fine[k], counted[k]);
            moved(fine[k], look.parts[k].min(MOST_PART), due, step)
        };
    }
    scaled(&weights, aim.players)
}

// The weights with the greatest from 2^25 to 2^26, and none of the players' below the least.
fn scaled(weights: &[u64; MEMBER_ROOM], players: usize) -> Fine
    requires { players ≤ MEMBER_ROOM }
{
    let places = greatest(weights).max(1).ilog2();
    let mut fine = [0; MEMBER_ROOM];
    for k in 0..players {
        let weight = if places > GREAT {
            weights[k] >> (places - GREAT)
        } else {
            weights[k] << (GREAT - places)
        };
        fine[k] = weight.clamp(LEAST, u64::from(u32::MAX)) as u32;
    }
    fine
}

// Whether weights with such a bound close the prefix.
fn closes(estate: &Estate, front: &Front, goal: i64, value: i64, fine: &Fine) -> bool
    requires { IsLanedFront estate.now front.now }
{
    value < goal.saturating_add(NEAR) && estate.closes(&estate.weights(fine, MOST_WEIGHT), front)
}

/// Looks for weights that close the prefix, from those at which to start.
pub(crate) fn tune(estate: &Estate, logs: &RoughLogs, front: &Front, start: &Fine) -> Tuned
    requires { IsLanedFront estate.now front.now }
{
    let aim = estate.aim(logs, front);
    let mut fine = *start;
    let mut best = fine;
    let mut least = i64::MAX;
    for turn in 0..TURNS {
        let pace = pace_of(turn);
        let look = aim.look(logs, &fine, pace.squarings);
        let counted = counted(&aim, &fine);
        let value = value_of(&aim, logs, &fine, &look, &counted);
        if value < least {
            least = value;
            best = fine;
            if closes(estate, front, aim.goal, value, &fine) {
                return Tuned { fine, closes: true };
            }
        }
        if pace.squarings > 3 && is_hopeless(&aim, logs, &look) {
            break;
        }
        fine = next_weights(&aim, &fine, &look, &counted, pace.step);
    }
    Tuned {
        fine: best,
        closes: false,
    }
}
