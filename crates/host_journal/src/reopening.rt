// Opening the journal of a serving host, at the start and when it waits.
ghost use Rattle.std.specs.Prelude.{◌≡◌, ◌≢◌, ◌≤◌, ◌↔◌, ℕ, List, None, OnOk, IfErr, IfOk, IsSome, IsTrue, Err};
ghost use Rattle.split_base.specs.Disk.{Each, LeavesOnly, Rests, Tears};
ghost use Rattle.gate_log.specs.Calls.{TellsFault, faults_after_call};
ghost use Rattle.gate_log.specs.declared.limits.TheConstants.{VERSION_GATE};
ghost use Rattle.host_journal.specs.Journal.{IsFirstFault};
ghost use Rattle.host_journal.specs.Calls.{ReachesState, Opened, Reopens};
ghost use Rattle.host_journal.specs.States.{HasState, IsFile, State};

use crate::opening::{open_in, roomy_host};
use crate::{Serving, events_law, open_host};
use gate_log::{Log, LogFault};
use split_base::Disk;
use std::alloc::Global;
use std::mem::swap;

/// Opens the file of a host that waits. At `Ok` the host is ready again, with the events that the
/// file holds: so it is settled whether the event that waited was kept. Nothing is appended.
///
/// - `Disk` comes only if the disk's count of faults has risen, by one.
/// - `NotALog` is returned exactly when the file isn't a journal, with the place of its first fault: never on
///   an honest disk with a file of the host's.
///
/// After each of these the host waits as before, and with any other answer than `Disk` the count stays.
/// No other fault comes, and it takes no memory.
pub fn reopen<D: Disk>(serving: &mut Serving, disk: &mut D) -> Result<(), LogFault>
    requires { IsSome serving.old.waiting }
    ensures reopened { (s : State) → HasState D.Disk serving.old disk.old s
        → ReachesState D.Disk serving.new disk.old disk.new s (λ new.
        Reopens D.Disk disk.old disk.new s new result) }
    ensures ready { OnOk result (serving.new.waiting ≡ None) }

    // Whatever state the serving is in.
    ensures place { D.tells disk.old → (place : ℕ) → result ≡ Err (LogFault.NotALog place)
        → IsFirstFault place (D.seen disk.old) }
    ensures exactly { D.tells disk.old → (place : ℕ) → IsFirstFault place (D.seen disk.old)
        → TellsFault place result }
    ensures count { D.faults disk.old ≤ D.faults disk.new }
    ensures honest { D.is_honest disk.old ↔ D.is_honest disk.new }
{
    events_law();
    let log = open_in(&mut serving.again, disk)?;
    go_on(serving, log);
    Ok(())
}

// Goes on with the host and the log that were just read. The old host's memory stays for the next reading.
fn go_on(serving: &mut Serving, log: Log)
    requires at_end { IsTrue log.at_end }
    requires version { log.version ≡ 2 }
    ensures host { serving.new.host.content ≡ serving.old.again.content }
    ensures log { serving.new.log ≡ log }
    ensures ready { serving.new.waiting ≡ None }
{
    swap(&mut serving.host, &mut serving.again);
    serving.log = log;
    serving.waiting = None;
}

/// Opens a journal, as a host that is ready.
///
/// - `Disk` comes only if the disk's count of faults has risen, by one. With any other answer the
///   count stays.
/// - `NotALog` is returned exactly when the file has a fault, with the place of its first.
/// - `NoMemory` is returned only when memory runs out, before the first call of the disk. It is taken for the
///   host and for the one into which the file is read again, each with room for all instances.
///
/// After `NotALog` and `NoMemory` the file is as it was.
pub fn open<D: Disk>(alloc: Global, disk: &mut D) -> Result<Serving, LogFault>
    ensures opened { IfOk result (λ serving. Opened D.Disk disk.old disk.new serving) }
    ensures count { D.faults disk.old ≤ D.faults disk.new }
    ensures faults { D.faults disk.new ≡ faults_after_call (D.faults disk.old) result }
    ensures honest { D.is_honest disk.old ↔ D.is_honest disk.new }
    ensures place { D.tells disk.old → (place : ℕ) → result ≡ Err (LogFault.NotALog place)
        → IsFirstFault place (D.seen disk.old) }
    ensures exactly { D.tells disk.old → (place : ℕ) → IsFirstFault place (D.seen disk.old)
        → TellsFault place result }
    ensures kept { D.is_honest disk.old
        → IfErr result (λ e.
        e ≢ LogFault.Disk → Rests D.seen D.images D.moment D.left_since disk.old disk.new) }

    // No byte but the version gate is written, and a file of a state stays one at each moment.
    ensures writes { D.is_honest disk.old
        → LeavesOnly D.moment D.left_since disk.old disk.new
        (Tears (D.images disk.old) VERSION_GATE 1) }
    ensures torn { D.is_honest disk.old
        → Each (D.images disk.new) (Tears (D.images disk.old) VERSION_GATE 1) }
    ensures any_moment { D.is_honest disk.old → (s : State) → Each (D.images disk.old) (IsFile s)
        → LeavesOnly D.moment D.left_since disk.old disk.new (IsFile s) }
    ensures after { D.is_honest disk.old → (s : State) → Each (D.images disk.old) (IsFile s)
        → Each (D.images disk.new) (IsFile s) }
{
    let again = roomy_host(alloc)?;
    let (host, log) = open_host(alloc, disk)?;
    Ok(Serving {
        host,
        log,
        waiting: None,
        again,
    })
}
