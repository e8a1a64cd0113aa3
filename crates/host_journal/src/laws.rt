// Laws about the spelling of events, which hold for every event.
ghost use Rattle.std.specs.Prelude.{◌≡◌, ◌⊎◌, ◌≤◌, ◌<◌, ◌+◌, ◌^◌, ℕ, List, All, length, map};
ghost use Rattle.gate_log.specs.Records.{IsBody, place_after};
ghost use Rattle.gate_log.specs.declared.limits.TheConstants.{FRONT_SIZE};
ghost use Rattle.bid_rules.specs.declared.bids.Facts.TheVariants as facts;
ghost use Rattle.bid_rules.specs.declared.fares.Fares.{Fares};
ghost use Rattle.bid_rules.specs.declared.bids.Bid.{Bid};
ghost use Rattle.sealed_core.specs.Host.{BidKept, Closed, Created, CreationView, EventView, Withdrawn};
ghost use Rattle.host_journal.specs.Spelling.{FitsBid, HasRules, IsEvent, spelling};
ghost use Rattle.host_journal.specs.Journal.{HasEvents, HoldsSome, IsFirstFault};
ghost use Rattle.host_journal.specs.declared.laws.TheConstants.{BID_MOST, CLOSE_SIZE, CREATION_MOST, FARES_MOST, JOURNAL_MOST, WITHDRAWAL_SIZE};

use gate_log::{beginning_law, journal_law};

/// The size below which every journal stays, in bytes.
pub const JOURNAL_MOST: usize = 40_000_000;

/// The most bytes of the record of a creation, with its gate and without the next one.
pub const CREATION_MOST: usize = 2_000;

/// The most bytes of the record of a creation of fares.
pub const FARES_MOST: usize = 1_661;

/// The most bytes of the record of a bid.
pub const BID_MOST: usize = 118;

/// The bytes of the record of a withdrawal.
pub const WITHDRAWAL_SIZE: usize = 20;

/// The bytes of the record of a close.
pub const CLOSE_SIZE: usize = 18;

/// Each event's spelling may be the body of a record, and each kind's record keeps its size.
pub fn size_law()
    ensures body { (e : EventView) → IsEvent e → IsBody (spelling e) }
    ensures creation { (moment : ℕ) (c : CreationView) → HasRules c
        → FRONT_SIZE + length (spelling (Created moment c)) ≤ CREATION_MOST }
    ensures fares { (moment : ℕ) (c : CreationView) (fares : Fares) → HasRules c
        → c.facts ≡ facts.Fares fares
        → FRONT_SIZE + length (spelling (Created moment c)) ≤ FARES_MOST }
    ensures bid { (moment id member turn : ℕ) (b : Bid) → FitsBid b
        → FRONT_SIZE + length (spelling (BidKept moment id member turn b)) ≤ BID_MOST }
    ensures withdrawal { (moment id member turn : ℕ)
        → FRONT_SIZE + length (spelling (Withdrawn moment id member turn)) ≡ WITHDRAWAL_SIZE }
    ensures close { (moment id : ℕ)
        → FRONT_SIZE + length (spelling (Closed moment id)) ≡ CLOSE_SIZE }
{}

/// A journal of events stays below 40 MB: what its header and records take, with the closed gate
/// after them. What a crash left after that gate plays no role.
pub fn file_law()
    ensures { (version : ℕ) (secret : List ℕ) (events : List EventView) (file : List ℕ)
        → HasEvents version secret events file → place_after (map spelling events) < JOURNAL_MOST }
{}

/// No two events have one spelling.
pub fn spelling_law()
    ensures { (e f : EventView) → IsEvent e → IsEvent f → spelling e ≡ spelling f → e ≡ f }
{}

/// A file has one meaning: it holds the events of one list in one version and with one secret,
/// or it has its first fault at one place.
pub fn events_law()
    ensures one_meaning { (v w : ℕ) (secret word : List ℕ) (events others : List EventView)
        (file : List ℕ) → HasEvents v secret events file → HasEvents w word others file
        → (v ≡ w) × (secret ≡ word) × (events ≡ others) }
    ensures no_fault { (v place : ℕ) (secret : List ℕ) (events : List EventView) (file : List ℕ)
        → HasEvents v secret events file → IsFirstFault place file → ⊥ }
    ensures one_fault { (p q : ℕ) (file : List ℕ) → IsFirstFault p file → IsFirstFault q file
        → p ≡ q }
    ensures meaning { (file : List ℕ) → All (λ b. b < 2 ^ 8) file
        → HoldsSome file ⊎ ((place : ℕ) × IsFirstFault place file) }
{
    journal_law();
    beginning_law();
}
