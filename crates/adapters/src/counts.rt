// How the real outside counts its faults, and answers with them.
ghost use Rattle.std.specs.Prelude.{◌≡◌, ◌≤◌};
ghost use Rattle.split_base.specs.Faults.{HasCause, HasRisen, IsCounted, counted};
ghost use Rattle.adapters.specs.Answers.{IsAnswered};

use split_base::Failed;

/// Counts a fault, up to 2^64 - 1.
pub fn fault(faults: &mut u64) -> Failed
    ensures count { faults.new ≡ counted faults.old }
    ensures risen { HasRisen faults.old faults.new }
    ensures never_falls { faults.old ≤ faults.new }
{
    *faults = faults.saturating_add(1);
    Failed
}

/// What was found, or a counted fault if nothing was.
pub fn answered<T: Drop>(found: Option<T>, faults: &mut u64) -> Result<T, Failed>
    ensures cause { HasCause faults.old faults.new result }
    ensures count { IsCounted faults.old faults.new result }
    ensures answer { IsAnswered found result }
{
    match found {
        Some(found) => Ok(found),
        None => Err(fault(faults)),
    }
}
