// The trait of clocks.
ghost use Rattle.std.specs.Prelude.{◌≡◌, ◌≤◌, ◌∷◌, [], ℕ, Option, IfOk, IfSome};
ghost use Rattle.split_base.specs.Faults.{HasCause, IsCounted};
ghost use Rattle.split_base.specs.Clocks.{ClockRun, answer_of};
ghost use Rattle.split_base.specs.declared.limits.TheConstants.{LAST_MOMENT};

use crate::Failed;

/// Tells the time.
pub trait Clock {
    /// What a call may answer (a moment, or none if it fails), and the clock after that call. A
    /// clock that can't reveal this allows every answer.
    ghost gives: { Self → Option ℕ → Self → Type 0 };

    /// How many of its calls have failed, up to 2^64 - 1.
    ghost faults: { Self → ℕ };

    /// The moment, in seconds since 1970, at most `LAST_MOMENT`.
    ///
    /// `Failed` is returned only if the count of faults has risen, by one. A call that answers a
    /// moment leaves the count as it is.
    fn now(&mut self) -> Result<u64, Failed>
        ensures range { IfOk result (λ moment. moment ≤ LAST_MOMENT) }
        ensures gives { gives self.old (answer_of result) self.new }
        ensures cause { HasCause (faults self.old) (faults self.new) result }
        ensures count { IsCounted (faults self.old) (faults self.new) result };
}

/// Asks the clock once: the moment, or none if the call failed.
pub fn ask<C: Clock>(clock: &mut C) -> Option<u64>
    ensures asked { ClockRun C.gives C.faults clock.old clock.new (result ∷ []) }
    ensures range { IfSome result (λ moment. moment ≤ LAST_MOMENT) }
{
    match clock.now() {
        Ok(moment) => Some(moment),
        Err(Failed) => None,
    }
}
