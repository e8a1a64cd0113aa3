// The trait of dialers, which open links.
ghost use Rattle.std.specs.Prelude.{◌≡◌, ◌<◌, ◌-◌, ℕ, List, Option, IfOk};
ghost use Rattle.split_base.specs.Faults.{HasCause, IsCounted, counted};
ghost use Rattle.split_base.specs.Links.{link_faults};
ghost use Rattle.split_base.specs.Asked.{asked_again};
ghost use Rattle.split_base.specs.Ports.{Dials, TakesBack};

use crate::{Failed, Link};

/// Opens links to ports of this machine, and takes them back.
pub trait Dial {
    ghost use Rattle.split_base.specs.declared.asked.Asked.{Asked};

    /// A connection.
    type Link: Link + Drop;

    /// The links still to come; `None` if the object doesn't reveal them.
    ghost to_come: { Self → Option (List Self.Link) };

    /// The links that were given back, each with what it had got by then; `None` if the object
    /// doesn't reveal them.
    ghost given_back: { Self → Option (List Self.Link) };

    /// How many more returned links it has places for.
    ghost places: { Self → ℕ };

    /// How often it has been asked to open a link, and to which port most recently.
    ghost asked: { Self → Asked };

    /// How many of its calls have failed, and how many links were given back with a fault; up to
    /// 2^64 - 1.
    ghost faults: { Self → ℕ };

    /// Opens a link to the port with this number. Neither side of the link has had a fault.
    ///
    /// `Failed` is returned only if the count of faults has risen, by one. In that case it gives
    /// no link. `Ok` leaves the count as it is.
    fn dial(&mut self, port: u16) -> Result<Self::Link, Failed>
        ensures cause { HasCause (faults self.old) (faults self.new) result }
        ensures count { IsCounted (faults self.old) (faults self.new) result }
        ensures asked { asked self.new ≡ asked_again port (asked self.old) }
        ensures next { Dials (to_come self.old) (to_come self.new) result }
        ensures fresh { IfOk result (λ link.
            link_faults (Self.Link.Source.faults link) (Self.Link.Sink.faults link) ≡ 0) }
        ensures places { places self.new ≡ places self.old }
        ensures back { given_back self.new ≡ given_back self.old };

    /// Takes a link back. If there is no place for it, it is dropped. The count of faults rises,
    /// by one, exactly when the link has had a fault.
    fn done(&mut self, link: Self::Link)
        ensures whole { link_faults (Self.Link.Source.faults link) (Self.Link.Sink.faults link) ≡ 0
            → faults self.new ≡ faults self.old }
        ensures fault { 0 < link_faults (Self.Link.Source.faults link) (Self.Link.Sink.faults link)
            → faults self.new ≡ counted (faults self.old) }
        ensures asked { asked self.new ≡ asked self.old }
        ensures come { to_come self.new ≡ to_come self.old }
        ensures places { places self.new ≡ places self.old - 1 }
        ensures back { 0 < places self.old
            → TakesBack (given_back self.old) (given_back self.new) link }
        ensures dropped { places self.old ≡ 0 → given_back self.new ≡ given_back self.old };
}
