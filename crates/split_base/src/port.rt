// The trait of ports, which hand out links.
ghost use Rattle.std.specs.Prelude.{◌≡◌, ◌↔◌, ◌<◌, ◌-◌, ℕ, List, Option, IfOk, IsErr, IsNone};
ghost use Rattle.split_base.specs.Faults.{HasCause, IsCounted};
ghost use Rattle.split_base.specs.Asked.{asked_again};
ghost use Rattle.split_base.specs.Ports.{Accepts, AnswersNone, TakesBack, handed_out};

use crate::{Failed, Link};

/// Hands out links one after another until it has ended: each one only after the last was given
/// back. Once it has answered that there are no more, it isn't asked for another until it has begun
/// to listen again, and if it had ended, it answers the same then.
pub trait Port {
    ghost use Rattle.split_base.specs.declared.asked.Asked.{Asked};

    /// A connection.
    type Link: Link + Drop;

    /// The links still to come; `None` if the object doesn't reveal them.
    ghost to_come: { Self → Option (List Self.Link) };

    /// The links that were given back, each with what it had got by then; `None` if the object
    /// doesn't reveal them.
    ghost given_back: { Self → Option (List Self.Link) };

    /// How many more returned links it has places for.
    ghost places: { Self → ℕ };

    /// How often it has been asked to listen, and at which port most recently.
    ghost asked: { Self → Asked };

    /// How many links have been handed out and not yet given back.
    ghost out: { Self → ℕ };

    /// No more links will come.
    ghost has_ended: { Self → Type 0 };

    /// It has answered that there are no more links, and hasn't begun to listen again since.
    ghost is_over: { Self → Type 0 };

    /// How many of its calls have failed, up to 2^64 - 1.
    ghost faults: { Self → ℕ };

    /// Begins to take connections at the port with this number. A port that has ended stays so.
    ///
    /// `Failed` is returned only if the count of faults has risen, by one. `Ok` leaves the count
    /// as it is.
    fn listen(&mut self, port: u16) -> Result<(), Failed>
        ensures cause { HasCause (faults self.old) (faults self.new) result }
        ensures count { IsCounted (faults self.old) (faults self.new) result }
        ensures asked { asked self.new ≡ asked_again port (asked self.old) }
        ensures out { out self.new ≡ out self.old }
        ensures stays { has_ended self.old ↔ has_ended self.new }
        ensures over { is_over self.new ↔ (IsErr result × is_over self.old) }
        ensures places { places self.new ≡ places self.old }
        ensures come { to_come self.new ≡ to_come self.old }
        ensures back { given_back self.new ≡ given_back self.old };

    /// The next link, or `None` exactly when the port has ended. A port that has ended stays so.
    /// It may be called only while every link that it handed out has been given back, and after
    /// `None` only once it has begun to listen again.
    ///
    /// `Failed` is returned only if the count of faults has risen, by one. In that case no link
    /// is handed out. `Ok` leaves the count as it is.
    fn accept(&mut self) -> Result<Option<Self::Link>, Failed>
        requires none_out { out self.old ≡ 0 }
        requires goes_on { is_over self.old → ⊥ }
        ensures cause { HasCause (faults self.old) (faults self.new) result }
        ensures count { IsCounted (faults self.old) (faults self.new) result }
        ensures asked { asked self.new ≡ asked self.old }
        ensures next { Accepts (to_come self.old) (to_come self.new) result }
        ensures out { out self.new ≡ handed_out result }
        ensures ended { IfOk result (λ next. IsNone next ↔ has_ended self.old) }
        ensures stays { has_ended self.old → has_ended self.new }
        ensures over { is_over self.new ↔ AnswersNone result }
        ensures places { places self.new ≡ places self.old }
        ensures back { given_back self.new ≡ given_back self.old };

    /// Takes a link back. If there is no place for it, it is dropped.
    fn done(&mut self, link: Self::Link)
        ensures count { faults self.new ≡ faults self.old }
        ensures asked { asked self.new ≡ asked self.old }
        ensures out { out self.new ≡ out self.old - 1 }
        ensures stays { has_ended self.old ↔ has_ended self.new }
        ensures over { is_over self.old ↔ is_over self.new }
        ensures come { to_come self.new ≡ to_come self.old }
        ensures places { places self.new ≡ places self.old - 1 }
        ensures back { 0 < places self.old
            → TakesBack (given_back self.old) (given_back self.new) link }
        ensures dropped { places self.old ≡ 0 → given_back self.new ≡ given_back self.old };
}
