// A law about the texts of trials, which holds for all numbers. It is the contract of a function that does
// nothing.
ghost use Rattle.std.specs.Prelude.{◌≡◌, ℕ, List};
ghost use Rattle.trial_runs.specs.Texts.{IsTrialText};

use nash_search::step_count_law;
use rent_maximin::one_rent_division_law;
use split_reports::trial_law;

/// The trial of a number has only one text, so the text is the same for every number of workers.
pub fn trial_text_law()
    ensures one { (number : ℕ) (text other : List ℕ) → IsTrialText number text
        → IsTrialText number other → text ≡ other }
{
    one_rent_division_law();
    step_count_law();
    trial_law();
}
