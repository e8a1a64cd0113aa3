// Opening a journal as a host.
ghost use Rattle.std.specs.Prelude.{◌≡◌, ◌≢◌, ◌⊎◌, ◌↔◌, ◌<◌, ◌≤◌, ◌+◌, ◌^◌, ◌++◌, [], ◌∷◌, List, ℕ, IfOk, IfErr, OnOk, OnErr, IsTrue, IsFalse, Ok, Err};
ghost use Rattle.split_base.specs.Faults.{HasCause, HasRisen};
ghost use Rattle.split_base.specs.Disk.{Each, Only, Rests, LeavesOnly, IsWritten, Tears};
ghost use Rattle.gate_log.specs.Calls.{TellsFault, faults_after_call};
ghost use Rattle.gate_log.specs.Records.{place_after};
ghost use Rattle.gate_log.specs.Log.{IsLogOf};
ghost use Rattle.sealed_core.specs.Host.{CanApply, EventView, HasRoom, apply, event_view};
ghost use Rattle.gate_log.specs.declared.limits.TheConstants.{VERSION_GATE};
ghost use Rattle.host_journal.specs.Spelling.{IsOfVersion, Spells};
ghost use Rattle.host_journal.specs.Journal.{HasEvents, HasOpened, HasRaised, HoldsFrom, HoldsOne, IsFaultBehindEvents, IsFirstFault, IsHostOf, IsHostWithFile, IsNoEvent, IsOpened, LeftAlone, IsReplaying, IsReplayed, IsToldOf};

use crate::{events_law, read_event};
use gate_log::{Body, Log, LogFault, SECRET_SIZE, journal_law};
use sealed_core::{Event, Host, apply, can_apply, reserve_all};
use split_base::{Disk, NoMemory};
use std::alloc::Global;

/// Opens a journal: reads the whole file, applies each of its events in turn from the empty host on,
/// and then raises a journal of version 1 to version 2. It gives the host of the events, and the log
/// at its end.
///
/// - `Disk` comes only if the disk's count of faults has risen. The file holds the events that
///   it held, in either version.
/// - `NotALog` is returned exactly when the file has a fault, with the place of its first. A body that is not an event of the file's
///   version, or none that may be applied at its turn, is a fault at its gate's place.
/// - `NoMemory` is returned when memory runs out, before the first call of the disk.
///
/// After `NotALog` and `NoMemory` the file is as it was: it is raised only after it was read whole. A
/// call of the disk that fails is not tried again: the count has risen by one after `Disk`, and otherwise
/// not at all.
pub fn open_host<D: Disk>(alloc: Global, disk: &mut D) -> Result<(Host, Log), LogFault>
    ensures count { D.faults disk.old ≤ D.faults disk.new }
    ensures disk { result ≡ Err LogFault.Disk → HasRisen (D.faults disk.old) (D.faults disk.new) }
    ensures faults { D.faults disk.new ≡ faults_after_call (D.faults disk.old) result }
    ensures honest { D.is_honest disk.old ↔ D.is_honest disk.new }
    ensures room { IfOk result (λ opened. HasRoom opened.0) }
    ensures version { IfOk result (λ opened. opened.1.version ≡ 2) }
    ensures at_end { IfOk result (λ opened. IsTrue opened.1.at_end) }

    // Whatever the disk, the host is that of some events, each of which may be applied at its turn. If the disk reveals its bytes, they
    // are those that a read gave; and if it is honest, the file holds them now.
    ensures made { IfOk result (λ opened.
        (secret : List ℕ) × (events : List EventView)
        × IsHostWithFile opened.0.content secret events
        (IsToldOf (D.tells disk.old) (D.is_honest disk.old) (D.seen disk.old) secret events
        (HasOpened (D.seen disk.old) (D.seen disk.new) (D.images disk.new) opened.1 opened.0.content
        secret events))) }

    // After Ok there is one image, and host and log are those of its events.
    ensures one { D.is_honest disk.old
        → IfOk result (λ _. Only (D.seen disk.new) (D.images disk.new)) }
    ensures opened { D.is_honest disk.old
        → IfOk result (λ opened.
        IsOpened (D.seen disk.old) (D.seen disk.new) (D.images disk.new) opened.1
        opened.0.content) }
    ensures not_a_log { D.tells disk.old → (place : ℕ) → result ≡ Err (LogFault.NotALog place)
        → IsFirstFault place (D.seen disk.old) }
    ensures exactly { D.tells disk.old → (place : ℕ) → IsFirstFault place (D.seen disk.old)
        → TellsFault place result }

    // After Ok the file is as it was, or it was of version 1 and only its version gate was written. At each moment a crash may
    // have torn that byte, and no other.
    ensures done { D.is_honest disk.old
        → OnOk result (LeftAlone D.seen D.moment disk.old disk.new
        ⊎ HasRaised D.seen D.moment disk.old disk.new) }
    ensures writes { D.is_honest disk.old
        → LeavesOnly D.moment D.left_since disk.old disk.new
        (Tears (D.images disk.old) VERSION_GATE 1) }
    ensures torn { D.is_honest disk.old
        → Each (D.images disk.new) (Tears (D.images disk.old) VERSION_GATE 1) }

    // A byte changes only if the whole file was read and holds events of version 1.
    ensures kept { D.is_honest disk.old
        → IfErr result (λ e.
        e ≢ LogFault.Disk → Rests D.seen D.images D.moment D.left_since disk.old disk.new) }
    ensures raised_whole { D.is_honest disk.old
        → Rests D.seen D.images D.moment D.left_since disk.old disk.new
        ⊎ ((secret : List ℕ) × (events : List EventView)
        × HasEvents 1 secret events (D.seen disk.old)) }

    // If each image holds one of some lists of events, it does so at each moment.
    ensures any_moment { D.is_honest disk.old → (secret : List ℕ) (lists : List (List EventView))
        → Each (D.images disk.old) (HoldsOne secret lists)
        → LeavesOnly D.moment D.left_since disk.old disk.new (HoldsOne secret lists) }
    ensures after { D.is_honest disk.old → (secret : List ℕ) (lists : List (List EventView))
        → Each (D.images disk.old) (HoldsOne secret lists)
        → Each (D.images disk.new) (HoldsOne secret lists) }
{
    let mut host = roomy_host(alloc)?;
    let log = open_in(&mut host, disk)?;
    Ok((host, log))
}

// An empty host with room for all instances.
pub(crate) fn roomy_host(alloc: Global) -> Result<Host, NoMemory>
    ensures { IfOk result HasRoom }
{
    let mut host = Host::new(alloc, [0; SECRET_SIZE]);
    reserve_all(&mut host)?;
    Ok(host)
}

// Opens a journal as `open_host` does, into a host that has room for all instances. It takes no
// memory. What the host held is gone, whatever it answers, and the room stays.
pub(crate) fn open_in<D: Disk>(host: &mut Host, disk: &mut D) -> Result<Log, LogFault>
    requires { HasRoom host.old }
    ensures room { HasRoom host.new }
    ensures no_memory { result ≢ Err LogFault.NoMemory }
    ensures count { D.faults disk.old ≤ D.faults disk.new }
    ensures disk { result ≡ Err LogFault.Disk → HasRisen (D.faults disk.old) (D.faults disk.new) }
    ensures faults { D.faults disk.new ≡ faults_after_call (D.faults disk.old) result }
    ensures honest { D.is_honest disk.old ↔ D.is_honest disk.new }
    ensures version { IfOk result (λ log. log.version ≡ 2) }
    ensures at_end { IfOk result (λ log. IsTrue log.at_end) }

    // Whatever the disk, the host is that of some events, each of which may be applied at its turn. If the disk reveals its bytes, they
    // are those that a read gave; and if it is honest, the file holds them now.
    ensures made { IfOk result (λ log.
        (secret : List ℕ) × (events : List EventView)
        × IsHostWithFile host.new.content secret events
        (IsToldOf (D.tells disk.old) (D.is_honest disk.old) (D.seen disk.old) secret events
        (HasOpened (D.seen disk.old) (D.seen disk.new) (D.images disk.new) log host.new.content
        secret events))) }

    // After Ok there is one image, and host and log are those of its events.
    ensures one { D.is_honest disk.old
        → IfOk result (λ _. Only (D.seen disk.new) (D.images disk.new)) }
    ensures opened { D.is_honest disk.old
        → IfOk result (λ log.
        IsOpened (D.seen disk.old) (D.seen disk.new) (D.images disk.new) log host.new.content) }
    ensures not_a_log { D.tells disk.old → (place : ℕ) → result ≡ Err (LogFault.NotALog place)
        → IsFirstFault place (D.seen disk.old) }
    ensures exactly { D.tells disk.old → (place : ℕ) → IsFirstFault place (D.seen disk.old)
        → TellsFault place result }

    // After Ok the file is as it was, or it was of version 1 and only its version gate was written. At each moment a crash may
    // have torn that byte, and no other.
    ensures done { D.is_honest disk.old
        → OnOk result (LeftAlone D.seen D.moment disk.old disk.new
        ⊎ HasRaised D.seen D.moment disk.old disk.new) }
    ensures writes { D.is_honest disk.old
        → LeavesOnly D.moment D.left_since disk.old disk.new
        (Tears (D.images disk.old) VERSION_GATE 1) }
    ensures torn { D.is_honest disk.old
        → Each (D.images disk.new) (Tears (D.images disk.old) VERSION_GATE 1) }

    // A byte changes only if the whole file was read and holds events of version 1.
    ensures kept { D.is_honest disk.old
        → IfErr result (λ e.
        e ≢ LogFault.Disk → Rests D.seen D.images D.moment D.left_since disk.old disk.new) }
    ensures raised_whole { D.is_honest disk.old
        → Rests D.seen D.images D.moment D.left_since disk.old disk.new
        ⊎ ((secret : List ℕ) × (events : List EventView)
        × HasEvents 1 secret events (D.seen disk.old)) }

    // If each image holds one of some lists of events, it does so at each moment.
    ensures any_moment { D.is_honest disk.old → (secret : List ℕ) (lists : List (List EventView))
        → Each (D.images disk.old) (HoldsOne secret lists)
        → LeavesOnly D.moment D.left_since disk.old disk.new (HoldsOne secret lists) }
    ensures after { D.is_honest disk.old → (secret : List ℕ) (lists : List (List EventView))
        → Each (D.images disk.old) (HoldsOne secret lists)
        → Each (D.images disk.new) (HoldsOne secret lists) }
{
    events_law();
    journal_law();
    let mut log = read_host(host, disk)?;
    end_opening(host, &mut log, disk)?;
    Ok(log)
}

// Ends an opening after the whole file was read into the host: a journal of version 1 is raised, and
// the host stays as it was read, even if the disk loses the raise.
fn end_opening<D: Disk>(host: &mut Host, log: &mut Log, disk: &mut D) -> Result<(), LogFault>
    requires { IsTrue log.old.at_end }
    ensures as_read { host.new ≡ host.old }
    ensures cause { HasCause (D.faults disk.old) (D.faults disk.new) result }
    ensures faults { D.faults disk.new ≡ faults_after_call (D.faults disk.old) result }
    ensures only_disk { IfErr result (λ e. e ≡ LogFault.Disk) }
    ensures honest { D.is_honest disk.old ↔ D.is_honest disk.new }
    ensures version { OnOk result (log.new.version ≡ 2) }
    ensures at_end { OnOk result (IsTrue log.new.at_end) }
    ensures changed { (log.old.version ≡ 1) ⊎ (disk.new ≡ disk.old) }
    ensures done { D.is_honest disk.old
        → OnOk result ((disk.new ≡ disk.old)
        ⊎
        ((log.old.version ≡ 1) × IsWritten (D.seen disk.old) VERSION_GATE (1 ∷ []) (D.seen disk.new)
        × (D.moment disk.new ≡ D.moment disk.old + 2))) }
    ensures writes { D.is_honest disk.old
        → LeavesOnly D.moment D.left_since disk.old disk.new
        (Tears (D.images disk.old) VERSION_GATE 1) }
    ensures torn { D.is_honest disk.old
        → Each (D.images disk.new) (Tears (D.images disk.old) VERSION_GATE 1) }
    ensures one { D.is_honest disk.old → Only (D.seen disk.old) (D.images disk.old)
        → OnOk result (Only (D.seen disk.new) (D.images disk.new)) }
    ensures raised { D.is_honest disk.old → (secret : List ℕ) (bodies : List (List ℕ))
        → IsLogOf (D.images disk.old) log.old secret bodies
        → OnOk result (IsLogOf (D.images disk.new) log.new secret bodies) }
    ensures any_moment { D.is_honest disk.old → (secret : List ℕ) (bodies : List (List ℕ))
        → IsLogOf (D.images disk.old) log.old secret bodies
        → LeavesOnly D.moment D.left_since disk.old disk.new
        (HoldsFrom log.old.version secret bodies) }
    ensures after { D.is_honest disk.old → (secret : List ℕ) (bodies : List (List ℕ))
        → IsLogOf (D.images disk.old) log.old secret bodies
        → Each (D.images disk.new) (HoldsFrom log.old.version secret bodies) }
{
    to_version_two(log, disk)
}

// Reads the whole file, which changes no byte of it.
fn read_host<D: Disk>(host: &mut Host, disk: &mut D) -> Result<Log, LogFault>
    requires { HasRoom host.old }
    ensures room { HasRoom host.new }
    ensures no_memory { result ≢ Err LogFault.NoMemory }
    ensures count { D.faults disk.old ≤ D.faults disk.new }
    ensures disk { result ≡ Err LogFault.Disk → HasRisen (D.faults disk.old) (D.faults disk.new) }
    ensures faults { D.faults disk.new ≡ faults_after_call (D.faults disk.old) result }
    ensures honest { D.is_honest disk.old ↔ D.is_honest disk.new }
    ensures still { D.tells disk.old → D.tells disk.new × (D.seen disk.new ≡ D.seen disk.old) }
    ensures rests { D.is_honest disk.old
        → Rests D.seen D.images D.moment D.left_since disk.old disk.new }
    ensures tick { D.is_honest disk.old → OnOk result (D.moment disk.new ≡ D.moment disk.old + 1) }
    ensures at_end { IfOk result (λ log. IsTrue log.at_end) }
    ensures made { IfOk result (λ log.
        (secret : List ℕ) × (events : List EventView)
        × IsHostWithFile host.new.content secret events
        (D.tells disk.old → IsReplayed (D.seen disk.new) log host.new.content secret events)) }
    ensures one { D.is_honest disk.old
        → IfOk result (λ _. Only (D.seen disk.new) (D.images disk.new)) }
    ensures whole { D.tells disk.old
        → IfOk result (λ log.
        (secret : List ℕ) × (events : List EventView)
        × IsReplayed (D.seen disk.new) log host.new.content secret events) }
    ensures not_a_log { D.tells disk.old → (place : ℕ) → result ≡ Err (LogFault.NotALog place)
        → IsFirstFault place (D.seen disk.new) }
{
    let (mut log, secret) = Log::start(disk)?;
    host.clear(secret);
    replay(host, &mut log, disk)?;
    Ok(log)
}

// Applies the events of the records from the log's gate on, up to the closed gate.
fn replay<D: Disk>(host: &mut Host, log: &mut Log, disk: &mut D) -> Result<(), LogFault>
    requires { HasRoom host.old }
    ensures room { HasRoom host.new }
    ensures no_memory { result ≢ Err LogFault.NoMemory }
    ensures count { D.faults disk.old ≤ D.faults disk.new }
    ensures disk { result ≡ Err LogFault.Disk → HasRisen (D.faults disk.old) (D.faults disk.new) }
    ensures faults { D.faults disk.new ≡ faults_after_call (D.faults disk.old) result }
    ensures honest { D.is_honest disk.old ↔ D.is_honest disk.new }
    ensures still { D.tells disk.old → D.tells disk.new × (D.seen disk.new ≡ D.seen disk.old) }
    ensures rests { D.is_honest disk.old
        → Rests D.seen D.images D.moment D.left_since disk.old disk.new }
    ensures tick { D.is_honest disk.old → OnOk result (D.moment disk.new ≡ D.moment disk.old) }
    ensures at_end { OnOk result (IsTrue log.new.at_end) }
    ensures made { (secret : List ℕ) (events : List EventView)
        → IsHostOf host.old.content secret events
        → OnOk result ((all : List EventView)
        × IsHostWithFile host.new.content secret all
        (D.tells disk.old → IsReplaying (D.seen disk.old) log.old host.old.content secret events
        → IsReplayed (D.seen disk.new) log.new host.new.content secret all)) }
    ensures whole { D.tells disk.old → (secret : List ℕ) (events : List EventView)
        → IsReplaying (D.seen disk.old) log.old host.old.content secret events
        → OnOk result ((all : List EventView)
        × IsReplayed (D.seen disk.new) log.new host.new.content secret all) }
    ensures not_a_log { D.tells disk.old → (secret : List ℕ) (events : List EventView)
        → IsReplaying (D.seen disk.old) log.old host.old.content secret events → (place : ℕ)
        → result ≡ Err (LogFault.NotALog place) → IsFaultBehindEvents place (D.seen disk.new) }
{
    let mut body = Body::new();
    while replay_one(host, log, disk, &mut body)? {}
    Ok(())
}

// Applies the event of the record at the log's gate, or answers false if the gate is closed.
fn replay_one<D: Disk>(
    host: &mut Host,
    log: &mut Log,
    disk: &mut D,
    body: &mut Body,
) -> Result<bool, LogFault>
    requires { HasRoom host.old }
    ensures room { HasRoom host.new }
    ensures no_memory { result ≢ Err LogFault.NoMemory }
    ensures count { D.faults disk.old ≤ D.faults disk.new }
    ensures disk { result ≡ Err LogFault.Disk → HasRisen (D.faults disk.old) (D.faults disk.new) }
    ensures faults { D.faults disk.new ≡ faults_after_call (D.faults disk.old) result }
    ensures honest { D.is_honest disk.old ↔ D.is_honest disk.new }
    ensures still { D.tells disk.old → D.tells disk.new × (D.seen disk.new ≡ D.seen disk.old) }
    ensures rests { D.is_honest disk.old
        → Rests D.seen D.images D.moment D.left_since disk.old disk.new }
    ensures tick { D.is_honest disk.old → D.moment disk.new ≡ D.moment disk.old }
    ensures moves { IfOk result (λ more.
        IsTrue more → (log.old.place < log.new.place) × (log.new.place < 2 ^ 63)) }
    ensures at_end { IfOk result (λ more. IsFalse more → IsTrue log.new.at_end) }
    ensures made { (secret : List ℕ) (events : List EventView)
        → IsHostOf host.old.content secret events
        → IfOk result (λ more.
        (all : List EventView)
        × IsHostWithFile host.new.content secret all
        (D.tells disk.old → IsReplaying (D.seen disk.old) log.old host.old.content secret events
        → (IsTrue more → IsReplaying (D.seen disk.new) log.new host.new.content secret all)
        × (IsFalse more → IsReplayed (D.seen disk.new) log.new host.new.content secret all))) }
    ensures goes_on { D.tells disk.old → (secret : List ℕ) (events : List EventView)
        → IsReplaying (D.seen disk.old) log.old host.old.content secret events
        → IfOk result (λ more.
        IsTrue more
        → (e : EventView)
        × IsReplaying (D.seen disk.new) log.new host.new.content secret (events ++ e ∷ [])) }
    ensures end { D.tells disk.old → (secret : List ℕ) (events : List EventView)
        → IsReplaying (D.seen disk.old) log.old host.old.content secret events
        → IfOk result (λ more.
        IsFalse more → IsReplayed (D.seen disk.new) log.new host.new.content secret events) }
    ensures not_a_log { D.tells disk.old → (secret : List ℕ) (events : List EventView)
        → IsReplaying (D.seen disk.old) log.old host.old.content secret events → (place : ℕ)
        → result ≡ Err (LogFault.NotALog place) → IsFaultBehindEvents place (D.seen disk.new) }
{
    let gate = log.place();
    if !log.next_body(disk, body)? {
        return Ok(false);
    }
    take_up(host, log.version(), gate, body)?;
    Ok(true)
}

// Applies the event that a body spells, of a record whose gate is at this place.
fn take_up(host: &mut Host, version: u8, gate: u64, body: &[u8]) -> Result<(), LogFault>
    requires { HasRoom host.old }
    ensures room { HasRoom host.new }
    ensures no_memory { result ≢ Err LogFault.NoMemory }
    ensures applied { OnOk result ((e : EventView) × Spells e body.now × IsOfVersion version e
        × CanApply host.old.content e × (host.new.content ≡ apply host.old.content e)) }
    ensures no_disk { result ≢ Err LogFault.Disk }
    ensures not_a_log { (place : ℕ) → result ≡ Err (LogFault.NotALog place)
        → (place ≡ gate) × IsNoEvent version host.old.content body.now }
{
    let Some(event) = read_event(body) else {
        return Err(LogFault::NotALog { place: gate });
    };
    if !is_of_version(version, &event) || !can_apply(host, &event) {
        return Err(LogFault::NotALog { place: gate });
    }
    apply(host, event);
    Ok(())
}

// Only version 2 has withdrawals.
fn is_of_version(version: u8, event: &Event) -> bool
    ensures { IsTrue result ↔ IsOfVersion version (event_view event.now) }
{
    version == 2 || !matches!(event, Event::Withdraw { .. })
}

// Raises a journal of version 1, and leaves one of version 2 as it is.
fn to_version_two<D: Disk>(log: &mut Log, disk: &mut D) -> Result<(), LogFault>
    requires { IsTrue log.old.at_end }
    ensures cause { HasCause (D.faults disk.old) (D.faults disk.new) result }
    ensures faults { D.faults disk.new ≡ faults_after_call (D.faults disk.old) result }
    ensures only_disk { IfErr result (λ e. e ≡ LogFault.Disk) }
    ensures honest { D.is_honest disk.old ↔ D.is_honest disk.new }
    ensures version { OnOk result (log.new.version ≡ 2) }
    ensures at_end { OnOk result (IsTrue log.new.at_end) }
    ensures changed { (log.old.version ≡ 1) ⊎ (disk.new ≡ disk.old) }
    ensures done { D.is_honest disk.old
        → OnOk result ((disk.new ≡ disk.old)
        ⊎
        ((log.old.version ≡ 1) × IsWritten (D.seen disk.old) VERSION_GATE (1 ∷ []) (D.seen disk.new)
        × (D.moment disk.new ≡ D.moment disk.old + 2))) }
    ensures writes { D.is_honest disk.old
        → LeavesOnly D.moment D.left_since disk.old disk.new
        (Tears (D.images disk.old) VERSION_GATE 1) }
    ensures torn { D.is_honest disk.old
        → Each (D.images disk.new) (Tears (D.images disk.old) VERSION_GATE 1) }
    ensures one { D.is_honest disk.old → Only (D.seen disk.old) (D.images disk.old)
        → OnOk result (Only (D.seen disk.new) (D.images disk.new)) }
    ensures raised { D.is_honest disk.old → (secret : List ℕ) (bodies : List (List ℕ))
        → IsLogOf (D.images disk.old) log.old secret bodies
        → OnOk result (IsLogOf (D.images disk.new) log.new secret bodies) }
    ensures any_moment { D.is_honest disk.old → (secret : List ℕ) (bodies : List (List ℕ))
        → IsLogOf (D.images disk.old) log.old secret bodies
        → LeavesOnly D.moment D.left_since disk.old disk.new
        (HoldsFrom log.old.version secret bodies) }
    ensures after { D.is_honest disk.old → (secret : List ℕ) (bodies : List (List ℕ))
        → IsLogOf (D.images disk.old) log.old secret bodies
        → Each (D.images disk.new) (HoldsFrom log.old.version secret bodies) }
{
    if log.version() == 2 {
        return Ok(());
    }
    log.raise(disk)
}
