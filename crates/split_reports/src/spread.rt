// Spreads a whole by weights, to draw the cases of a trial.
ghost use Rattle.std.specs.Prelude.{◌≡◌, ◌*◌, ◌/◌, ◌<◌, ◌≤◌, ◌^◌, sum};
ghost use Rattle.split_reports.specs.TrialSpreads.{spread};

use bid_rules::limits::Values;

// Spreads a whole by weights: the first few have of it what their sum has of the sum of all, rounded down.
pub(crate) fn spread_by(whole: u32, weights: &Values) -> Values
    requires some { 0 < sum weights.now.items }
    requires few { sum weights.now.items < 2 ^ 32 }
    ensures { result.items ≡ spread whole weights.now.items }
{
    let total = sum_of(weights);
    let mut values = Values::new();
    let mut upto = 0;
    let mut given = 0;
    for weight in weights.as_slice() {
        upto += *weight;
        let share = part_of(whole, upto, total);
        values.push(share - given);
        given = share;
    }
    values
}

// The sum of the weights.
fn sum_of(weights: &Values) -> u32
    requires { sum weights.now.items < 2 ^ 32 }
    ensures { result ≡ sum weights.now.items }
{
    let mut total = 0;
    for weight in weights.as_slice() {
        total += *weight;
    }
    total
}

// What a part of the total has of the whole, rounded down.
fn part_of(whole: u32, part: u32, total: u32) -> u32
    requires some { 0 < total }
    requires part { part ≤ total }
    ensures { result ≡ whole * part / total }
{
    (u64::from(whole) * u64::from(part) / u64::from(total)) as u32
}
