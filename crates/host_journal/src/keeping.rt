// Keeping an event of a serving host.
ghost use Rattle.std.specs.Prelude.{◌≡◌, ◌≤◌, ◌↔◌, None};
ghost use Rattle.sealed_core.specs.Host.{CanApply, event_view};
ghost use Rattle.host_journal.specs.Calls.{Keeps, ReachesState};
ghost use Rattle.host_journal.specs.States.{HasState, State};

use crate::{Serving, commit};
use gate_log::LogFault;
use sealed_core::Event;
use split_base::Disk;

/// Keeps an event that may be applied, of a host that is ready: first in its journal, by four calls of
/// the disk, and then the host changes. It takes no memory.
///
/// `Disk` comes only if the disk's count of faults has risen, by one. The host is as before, and
/// waits with the event. No other fault comes.
pub fn keep<D: Disk>(serving: &mut Serving, disk: &mut D, event: Event) -> Result<(), LogFault>
    requires ready { serving.old.waiting ≡ None }
    requires can { CanApply serving.old.host.content (event_view event) }
    ensures kept { (s : State) → HasState D.Disk serving.old disk.old s
        → ReachesState D.Disk serving.new disk.old disk.new s (λ new.
        Keeps D.Disk disk.old disk.new (event_view event) s new result) }

    // Whatever state the serving is in.
    ensures count { D.faults disk.old ≤ D.faults disk.new }
    ensures honest { D.is_honest disk.old ↔ D.is_honest disk.new }
{
    match commit(&mut serving.host, &mut serving.log, disk, event) {
        Ok(()) => Ok(()),
        Err(lost) => match lost.fault {
            LogFault::Disk => {
                serving.waiting = Some(lost.event);
                Err(LogFault::Disk)
            }
            LogFault::NotALog { .. } | LogFault::NoMemory => unreachable!(),
        },
    }
}
