// An event in host and journal.
ghost use Rattle.std.specs.Prelude.{◌≡◌, ◌⊎◌, ◌↔◌, ◌≤◌, ◌+◌, ◌++◌, [], ◌∷◌, List, ℕ, IfErr, OnOk, OnErr, MatchResult, IsTrue, IsFalse};
ghost use Rattle.split_base.specs.Faults.{HasRisen};
ghost use Rattle.split_base.specs.Disk.{Each, LeavesOnly};
ghost use Rattle.gate_log.specs.Calls.{counted_by};
ghost use Rattle.sealed_core.specs.Host.{CanApply, EventView, HasRoom, apply, event_view};
ghost use Rattle.host_journal.specs.Journal.{IsJournalOf, IsBeforeOrAfter, IsHostOf};

use crate::spell_event;
use gate_log::{Log, LogFault};
use sealed_core::{Event, Host, apply, reserve};
use split_base::Disk;

/// Why an event wasn't kept, and the event.
#[derive(Debug, Drop)]
pub struct CommitFault {
    pub fault: LogFault,
    pub event: Event,
}

/// Keeps an event that may be applied, in a journal of version 2 at its end: first a spare place in
/// the host, then the record in the journal, and then the host's change. At `Ok` a crash leaves the
/// event, and the log is at its end again.
///
/// - `Disk` comes only if the disk's count of faults has risen, by one: a call that fails isn't
///   tried again, and the count stays with every other answer. The host is as before; the file
///   holds the event or doesn't. The log isn't at its end: the file is reopened.
/// - `NoMemory` is returned only if the host has no spare place and memory runs out, before the
///   first call of the disk, which is as before.
///
/// Each gives the event back; `NotALog` never comes.
pub fn commit<D: Disk>(
    host: &mut Host,
    log: &mut Log,
    disk: &mut D,
    event: Event,
) -> Result<(), CommitFault>
    requires can { CanApply host.old.content (event_view event) }
    requires at_end { IsTrue log.old.at_end }
    requires version { log.old.version ≡ 2 }
    ensures count { D.faults disk.old ≤ D.faults disk.new }
    ensures disk { IfErr result (λ e.
        e.fault ≡ LogFault.Disk → HasRisen (D.faults disk.old) (D.faults disk.new)) }
    ensures faults { MatchResult result (λ _. D.faults disk.new ≡ D.faults disk.old)
        (λ e. D.faults disk.new ≡ counted_by (D.faults disk.old) e.fault) }
    ensures cause { IfErr result (λ e. (e.fault ≡ LogFault.Disk) ⊎ (e.fault ≡ LogFault.NoMemory)) }
    ensures given_back { IfErr result (λ e. event_view e.event ≡ event_view event) }
    ensures no_memory { IfErr result (λ e.
        e.fault ≡ LogFault.NoMemory → (disk.new ≡ disk.old) × (log.new ≡ log.old)) }
    ensures full { IfErr result (λ e. e.fault ≡ LogFault.NoMemory → host.old.spare ≡ 0) }
    ensures room { HasRoom host.old → HasRoom host.new }
    ensures applied { OnOk result (host.new.content ≡ apply host.old.content (event_view event)) }
    ensures unchanged { OnErr result (host.new.content ≡ host.old.content) }
    ensures at_end { OnOk result (IsTrue log.new.at_end) }
    ensures used_up { IfErr result (λ e. e.fault ≡ LogFault.Disk → IsFalse log.new.at_end) }
    ensures log_version { log.new.version ≡ log.old.version }
    ensures honest { D.is_honest disk.old ↔ D.is_honest disk.new }
    ensures tick { D.is_honest disk.old → OnOk result (D.moment disk.new ≡ D.moment disk.old + 4) }

    // Whatever the disk, the host stays that of its events, with the new one.
    ensures made { (secret : List ℕ) (events : List EventView)
        → IsHostOf host.old.content secret events
        → OnOk result (IsHostOf host.new.content secret (events ++ event_view event ∷ [])) }
    ensures acknowledged { D.is_honest disk.old → (secret : List ℕ) (events : List EventView)
        → IsJournalOf (D.images disk.old) log.old host.old.content secret events
        → OnOk result (IsJournalOf (D.images disk.new) log.new host.new.content secret
        (events ++ event_view event ∷ [])) }
    ensures any_moment { D.is_honest disk.old → (secret : List ℕ) (events : List EventView)
        → IsJournalOf (D.images disk.old) log.old host.old.content secret events
        → LeavesOnly D.moment D.left_since disk.old disk.new
        (IsBeforeOrAfter log.old.version secret events (event_view event)) }
    ensures after { D.is_honest disk.old → (secret : List ℕ) (events : List EventView)
        → IsJournalOf (D.images disk.old) log.old host.old.content secret events
        → Each (D.images disk.new)
        (IsBeforeOrAfter log.old.version secret events (event_view event)) }
{
    if reserve(host).is_err() {
        return Err(CommitFault {
            fault: LogFault::NoMemory,
            event,
        });
    }
    let body = spell_event(&event);
    if let Err(fault) = log.append(disk, &body) {
        return Err(CommitFault { fault, event });
    }
    apply(host, event);
    Ok(())
}
