// Writes the table of a certificate of fares: what the routes of all sets of riders cost.
ghost use Rattle.std.specs.Prelude.{◌≡◌, ◌∷◌, ◌<◌, ◌≤◌, ◌^◌, flat_map, length, map, pos};
ghost use Rattle.bid_rules.specs.declared.limits.TheConstants.{MOST_RIDERS};
ghost use Rattle.cert_reader.specs.declared.forms.Word.TheVariants as word;
ghost use Rattle.cert_reader.specs.Sets.{sets_of};
ghost use Rattle.cert_reader.specs.Text.{wholes};
ghost use Rattle.certificates.specs.Lines.{number_line};
ghost use Rattle.certificates.specs.FareLines.{cost_line};
ghost use Rattle.certificates.specs.Puts.{Puts};

use crate::lines::put_amounts;
use arrayvec::ArrayVec;
use cert_reader::Word;
use fare_rules::{START_ROOM, starts_law, starts_of};
use set_costs::SetCosts;

/// Room for the number of a set and an entry for each start.
const SET_LINE_ROOM: usize = START_ROOM + 1;

// The numbers of the line of a set: its own number, and what its route costs from each of its starts.
fn set_numbers(costs: &SetCosts<'_>, count: u8, set: u16) -> ArrayVec<u32, SET_LINE_ROOM>
    requires count { count ≡ length costs.now.at.items }
    requires few { count ≤ MOST_RIDERS }
    requires set { set < 2 ^ count }
    ensures { map pos result.items ≡ pos set ∷ cost_line costs.now set }
{
    starts_law();
    let starts = starts_of(count, set);
    let mut numbers = ArrayVec::new();
    numbers.push(u32::from(set));
    for at in starts.as_slice() {
        numbers.push(costs.entry(*at, set));
    }
    numbers
}

// Puts the line of a set.
fn put_set(text: &mut [u8], used: usize, costs: &SetCosts<'_>, count: u8, set: u16) -> usize
    requires count { count ≡ length costs.now.at.items }
    requires few { count ≤ MOST_RIDERS }
    requires set { set < 2 ^ count }
    ensures { Puts (number_line word.Set (wholes (pos set ∷ cost_line costs.now set))) used text.old
        text.new result }
{
    let numbers = set_numbers(costs, count, set);
    put_amounts(text, used, Word::Set, numbers.as_slice())
}

// Puts a line for each set of riders, by the numbers of the sets.
pub(crate) fn put_sets(text: &mut [u8], used: usize, costs: &SetCosts<'_>, count: u8) -> usize
    requires count { count ≡ length costs.now.at.items }
    requires few { count ≤ MOST_RIDERS }
    ensures { Puts
        (flat_map (λ set. number_line word.Set (wholes (pos set ∷ cost_line costs.now set)))
        (sets_of count)) used text.old text.new result }
{
    let last: u16 = 1 << count;
    let mut end = used;
    for set in 1..last {
        end = put_set(text, end, costs, count, set);
    }
    end
}
