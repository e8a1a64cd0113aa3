// The log of a journal: reading its records in turn, and appending after the last one.
ghost use Rattle.std.specs.Prelude.{◌≡◌, ◌≢◌, ◌⊎◌, ◌<◌, ◌≤◌, ◌↔◌, ◌+◌, ◌-◌, ◌^◌, ◌++◌, [], ◌∷◌, List, ℕ, true, false, length, take, drop, IfOk, IfErr, OnOk, OnErr, MatchResult, IsTrue, IsFalse, Ok, Err, vec_capacity, vec_len};
ghost use Rattle.split_base.specs.Faults.{HasCause, HasRisen, IsCounted};
ghost use Rattle.split_base.specs.Disk.{Each, Only, Rests, LeavesOnly, IsWritten, Tears};
ghost use Rattle.gate_log.specs.Records.{Stands, HoldsRecords, IsBeforeOrAfter, IsBody, IsAppended, MayBeAppending, behind_gate};
ghost use Rattle.gate_log.specs.Faults.{IsHeaderFault, IsFaultAfter};
ghost use Rattle.gate_log.specs.Calls.{TellsFault, faults_after_call};
ghost use Rattle.gate_log.specs.Log.{LogView, IsLogOf, IsReading, IsAhead, with_ahead, with_gate_closed, past};
ghost use Rattle.gate_log.specs.Gate.{Shows};
ghost use Rattle.gate_log.specs.declared.limits.TheConstants.{BODY_ROOM, RECORD_MOST, FRONT_SIZE, FIRST_GATE, VERSION_GATE};

use crate::LogFault;
use crate::ahead::Ahead;
use crate::gate::{AtGate, look};
use crate::header::{read_secret, read_version};
use crate::limits::{
    BEHIND_MOST, BODY_ROOM, Body, FIRST_GATE, FRONT_SIZE, RECORD_MOST, SECRET_SIZE, VERSION_GATE,
};
use arrayvec::ArrayVec;
use split_base::{Disk, Failed, NoMemory, write_synced};
use std::marker::Model;

/// A log of a journal: it is at a gate of the file. `next` reads the record at that gate and
/// moves on; once the gate is known to be closed, `append` writes a record there.
///
/// After a `Disk` fault a log is not used again.
#[derive(Drop)]
pub struct Log {
    place: u64,
    version: u8,
    at_end: bool,
    size: u64,
    ahead: Ahead,
}

impl Model for Log {
    ghost use Rattle.gate_log.specs.Log.{LogView};

    ghost Value = { LogView };

    ghost use Rattle.gate_log.specs.Inside.{log_view, FitsJournal};

    ghost view = { log_view };

    ghost invariant = { FitsJournal };
}

impl Log {
    /// Begins to read a journal: a sync, so that what is read is stable, the size, and the header
    /// with the first records. It gives the log at the gate of the first record, and the secret.
    /// It takes no memory.
    ///
    /// - `Disk` is returned only if the disk's count of faults has risen.
    /// - `NotALog` is returned exactly when the header has a fault, with the place of its first.
    ///
    /// No failed call of the disk is tried again: after `Disk` the count has risen by one, and otherwise it has not
    /// risen.
    pub fn start<D: Disk>(disk: &mut D) -> Result<(Self, [u8; SECRET_SIZE]), LogFault>
        ensures count { D.faults disk.old ≤ D.faults disk.new }
        ensures disk { result ≡ Err LogFault.Disk
            → HasRisen (D.faults disk.old) (D.faults disk.new) }
        ensures faults { D.faults disk.new ≡ faults_after_call (D.faults disk.old) result }
        ensures no_memory { result ≢ Err LogFault.NoMemory }
        ensures still { D.tells disk.old → D.tells disk.new × (D.seen disk.new ≡ D.seen disk.old) }
        ensures honest { D.is_honest disk.old ↔ D.is_honest disk.new }
        ensures rests { D.is_honest disk.old
            → Rests D.seen D.images D.moment D.left_since disk.old disk.new }
        ensures tick { D.is_honest disk.old
            → IfOk result (λ _. D.moment disk.new ≡ D.moment disk.old + 1) }
        ensures one { D.is_honest disk.old
            → IfOk result (λ _. Only (D.seen disk.new) (D.images disk.new)) }
        ensures reading { D.tells disk.old
            → IfOk result (λ begun. IsReading (D.seen disk.new) begun.0 begun.1 []) }
        ensures not_a_log { D.tells disk.old → (place : ℕ) → result ≡ Err (LogFault.NotALog place)
            → IsHeaderFault place (D.seen disk.new) }
        ensures exactly { D.tells disk.old → (place : ℕ) → IsHeaderFault place (D.seen disk.old)
            → TellsFault place result }
    {
        disk.sync()?;
        let size = disk.size()?;
        let mut ahead = Ahead::new();
        ahead.read_on(disk, 0)?;
        match read_version(ahead.bytes()) {
            Ok(version) => {
                let secret = read_secret(ahead.bytes());
                ahead.pass(FIRST_GATE as usize);
                let log = Log {
                    place: FIRST_GATE,
                    version,
                    at_end: false,
                    size,
                    ahead,
                };
                Ok((log, secret))
            }
            Err(place) => Err(LogFault::NotALog { place }),
        }
    }

    /// The journal's version: 1 or 2.
    pub fn version(&self) -> u8
        ensures version { result ≡ self.now.version }
        ensures known { (result ≡ 1) ⊎ (result ≡ 2) }
    {
        self.version
    }

    /// The place of the log's gate, in bytes from 0.
    pub fn place(&self) -> u64
        ensures place { result ≡ self.now.place }
        ensures most { result < 2 ^ 63 }
    {
        self.place
    }

    /// Gives the body of the record at the log's place in `body` and moves past it, or answers false exactly when the
    /// gate there is closed, in which case the log is at its end.
    ///
    /// - `Disk` is returned only if the disk's count of faults has risen.
    /// - `NotALog` is returned exactly when the record there has a fault, with the place of the fault.
    ///
    /// It takes no memory. A refusal leaves the log at its gate. After `Disk` the disk's count has risen by one;
    /// otherwise it has not risen.
    pub fn next_body<D: Disk>(&mut self, disk: &mut D, body: &mut Body) -> Result<bool, LogFault>
        ensures no_memory { result ≢ Err LogFault.NoMemory }
        ensures count { D.faults disk.old ≤ D.faults disk.new }
        ensures disk { result ≡ Err LogFault.Disk
            → HasRisen (D.faults disk.old) (D.faults disk.new) }
        ensures faults { D.faults disk.new ≡ faults_after_call (D.faults disk.old) result }
        ensures still { D.tells disk.old → D.tells disk.new × (D.seen disk.new ≡ D.seen disk.old) }
        ensures honest { D.is_honest disk.old ↔ D.is_honest disk.new }
        ensures tick { D.is_honest disk.old → D.moment disk.new ≡ D.moment disk.old }
        ensures rests { D.is_honest disk.old
            → Rests D.seen D.images D.moment D.left_since disk.old disk.new }
        ensures version { self.new.version ≡ self.old.version }
        ensures refused { OnErr result (self.new ≡ with_ahead self.old self.new.ahead) }
        ensures again { D.tells disk.old → (secret : List ℕ) (bodies : List (List ℕ))
            → IsReading (D.seen disk.old) self.old secret bodies
            → OnErr result (IsReading (D.seen disk.new) self.new secret bodies) }
        ensures moves { IfOk result (λ more.
            IsTrue more
            → (self.new.place ≡ self.old.place + FRONT_SIZE + length body.new.items)
            × (self.new.place < 2 ^ 63)) }
        ensures goes_on { IfOk result (λ more. IsTrue more → self.new.at_end ≡ self.old.at_end) }
        ensures at_end { IfOk result (λ more. IsFalse more → IsTrue self.new.at_end) }
        ensures at_gate { IfOk result (λ more. IsFalse more → self.new.place ≡ self.old.place) }
        ensures stays { IsTrue self.old.at_end → (result ≡ Ok false) × (self.new ≡ self.old) }
        ensures body { IfOk result (λ more. IsTrue more → IsBody body.new.items) }
        ensures record { D.tells disk.old → (secret : List ℕ) (bodies : List (List ℕ))
            → IsReading (D.seen disk.old) self.old secret bodies
            → IfOk result (λ more.
            IsTrue more
            → IsReading (D.seen disk.new) self.new secret (bodies ++ body.new.items ∷ [])) }
        ensures end { D.tells disk.old → (secret : List ℕ) (bodies : List (List ℕ))
            → IsReading (D.seen disk.old) self.old secret bodies
            → IfOk result (λ more.
            IsFalse more → Stands self.new.version secret bodies (D.seen disk.new)) }
        ensures not_a_log { D.tells disk.old → (secret : List ℕ) (bodies : List (List ℕ))
            → IsReading (D.seen disk.old) self.old secret bodies → (place : ℕ)
            → result ≡ Err (LogFault.NotALog place)
            → IsFaultAfter self.old.version secret bodies place (D.seen disk.new) }
    {
        if self.at_end {
            return Ok(false);
        }
        self.fill(disk)?;
        match look(self.ahead.bytes()) {
            AtGate::Closed => {
                self.close();
                Ok(false)
            }
            AtGate::Record { length } => {
                replace(body, self.body_ahead(length));
                self.pass(length);
                Ok(true)
            }
            AtGate::OutOfRange => Err(LogFault::NotALog {
                place: self.place() + 1,
            }),
            AtGate::Short => Err(LogFault::NotALog { place: self.size() }),
        }
    }

    /// Gives the body of the record at the log's place in `body` and moves past it, or answers false exactly when the
    /// gate there is closed, in which case the log is at its end.
    ///
    /// - `Disk` is returned only if the disk's count of faults has risen.
    /// - `NotALog` is returned exactly when the record there has a fault, with the place of the fault.
    /// - `NoMemory` is returned when there is no memory for the body. In that case `body` may hold anything.
    ///
    /// A refusal leaves the log at its gate, so after `NoMemory` the call can be made again. After `Disk` the disk's
    /// count has risen by one; otherwise it has not risen.
    pub fn next<D: Disk>(&mut self, disk: &mut D, body: &mut Vec<u8>) -> Result<bool, LogFault>
        ensures count { D.faults disk.old ≤ D.faults disk.new }
        ensures disk { result ≡ Err LogFault.Disk
            → HasRisen (D.faults disk.old) (D.faults disk.new) }
        ensures faults { D.faults disk.new ≡ faults_after_call (D.faults disk.old) result }
        ensures still { D.tells disk.old → D.tells disk.new × (D.seen disk.new ≡ D.seen disk.old) }
        ensures honest { D.is_honest disk.old ↔ D.is_honest disk.new }
        ensures tick { D.is_honest disk.old → D.moment disk.new ≡ D.moment disk.old }
        ensures rests { D.is_honest disk.old
            → Rests D.seen D.images D.moment D.left_since disk.old disk.new }
        ensures version { self.new.version ≡ self.old.version }
        ensures refused { OnErr result (self.new ≡ with_ahead self.old self.new.ahead) }
        ensures again { D.tells disk.old → (secret : List ℕ) (bodies : List (List ℕ))
            → IsReading (D.seen disk.old) self.old secret bodies
            → OnErr result (IsReading (D.seen disk.new) self.new secret bodies) }
        ensures moves { IfOk result (λ more.
            IsTrue more
            → (self.new.place ≡ self.old.place + FRONT_SIZE + length body.new.items)
            × (self.new.place < 2 ^ 63)) }
        ensures goes_on { IfOk result (λ more. IsTrue more → self.new.at_end ≡ self.old.at_end) }
        ensures at_end { IfOk result (λ more. IsFalse more → IsTrue self.new.at_end) }
        ensures at_gate { IfOk result (λ more. IsFalse more → self.new.place ≡ self.old.place) }
        ensures stays { IsTrue self.old.at_end → (result ≡ Ok false) × (self.new ≡ self.old) }
        ensures body { IfOk result (λ more. IsTrue more → IsBody body.new.items) }
        ensures record { D.tells disk.old → (secret : List ℕ) (bodies : List (List ℕ))
            → IsReading (D.seen disk.old) self.old secret bodies
            → IfOk result (λ more.
            IsTrue more
            → IsReading (D.seen disk.new) self.new secret (bodies ++ body.new.items ∷ [])) }
        ensures end { D.tells disk.old → (secret : List ℕ) (bodies : List (List ℕ))
            → IsReading (D.seen disk.old) self.old secret bodies
            → IfOk result (λ more.
            IsFalse more → Stands self.new.version secret bodies (D.seen disk.new)) }
        ensures not_a_log { D.tells disk.old → (secret : List ℕ) (bodies : List (List ℕ))
            → IsReading (D.seen disk.old) self.old secret bodies → (place : ℕ)
            → result ≡ Err (LogFault.NotALog place)
            → IsFaultAfter self.old.version secret bodies place (D.seen disk.new) }
    {
        if self.at_end {
            return Ok(false);
        }
        reserve_body(body)?;
        let mut bytes = Body::new();
        let more = self.next_body(disk, &mut bytes)?;
        fill_reserved(body, &bytes);
        Ok(more)
    }

    /// Appends a record with this body: four calls of the disk, which write the length, the body and a closed gate
    /// after the log's gate, sync, open the gate, and sync. With `Ok` the record is acknowledged, and the log is at
    /// its end again. It takes no memory.
    ///
    /// `Disk` is returned only if the disk's count of faults has risen, by one: a call that fails is not tried again.
    /// The file may then hold the body or not, and the log is not at its end: the file is reopened.
    pub fn append<D: Disk>(&mut self, disk: &mut D, body: &[u8]) -> Result<(), LogFault>
        requires at_end { IsTrue self.old.at_end }
        requires body { IsBody body.now }
        ensures cause { HasCause (D.faults disk.old) (D.faults disk.new) result }
        ensures faults { D.faults disk.new ≡ faults_after_call (D.faults disk.old) result }
        ensures only_disk { IfErr result (λ e. e ≡ LogFault.Disk) }
        ensures at_end { MatchResult result (λ _. IsTrue self.new.at_end) (λ _.
            IsFalse self.new.at_end) }
        ensures version { self.new.version ≡ self.old.version }
        ensures honest { D.is_honest disk.old ↔ D.is_honest disk.new }
        ensures acknowledged { D.is_honest disk.old → (secret : List ℕ) (bodies : List (List ℕ))
            → IsLogOf (D.images disk.old) self.old secret bodies
            → OnOk result (IsLogOf (D.images disk.new) self.new secret (bodies ++ body.now ∷ [])) }

        // It makes these two writes and a sync after each, and no other call that changes a byte.
        ensures written { D.is_honest disk.old
            → OnOk result (IsAppended self.old.place body.now (D.seen disk.old) (D.seen disk.new)) }
        ensures tick { D.is_honest disk.old
            → OnOk result (D.moment disk.new ≡ D.moment disk.old + 4) }
        ensures one { D.is_honest disk.old
            → OnOk result (Only (D.seen disk.new) (D.images disk.new)) }
        ensures writes { D.is_honest disk.old
            → LeavesOnly D.moment D.left_since disk.old disk.new
            (MayBeAppending (D.images disk.old) self.old.place body.now (D.seen disk.old)) }

        // At any moment of the call, each image has the bodies from before it, with or without the new one.
        ensures any_moment { D.is_honest disk.old → (secret : List ℕ) (bodies : List (List ℕ))
            → IsLogOf (D.images disk.old) self.old secret bodies
            → LeavesOnly D.moment D.left_since disk.old disk.new
            (IsBeforeOrAfter self.old.version secret bodies body.now) }
        ensures after { D.is_honest disk.old → (secret : List ℕ) (bodies : List (List ℕ))
            → IsLogOf (D.images disk.old) self.old secret bodies
            → Each (D.images disk.new) (IsBeforeOrAfter self.old.version secret bodies body.now) }
    {
        self.at_end = false;
        self.ahead.clear();
        let gate = self.place;
        let behind = piece_of(body);
        write_synced(disk, gate + 1, &behind)?;
        write_synced(disk, gate, &[1])?;
        self.place = gate + behind.len() as u64;
        self.at_end = true;
        Ok(())
    }

    /// Raises a journal of version 1 to version 2: two calls of the disk, which change byte 48 and nothing else.
    /// After `Ok` the log is of version 2, and at its end as before. It takes no memory.
    ///
    /// `Disk` is returned only if the disk's count of faults has risen, by one. The file may then have either
    /// version, and the log is not at its end: the file is reopened.
    pub fn raise<D: Disk>(&mut self, disk: &mut D) -> Result<(), LogFault>
        requires at_end { IsTrue self.old.at_end }
        requires version { self.old.version ≡ 1 }
        ensures cause { HasCause (D.faults disk.old) (D.faults disk.new) result }
        ensures faults { D.faults disk.new ≡ faults_after_call (D.faults disk.old) result }
        ensures only_disk { IfErr result (λ e. e ≡ LogFault.Disk) }
        ensures at_end { MatchResult result (λ _. IsTrue self.new.at_end) (λ _.
            IsFalse self.new.at_end) }
        ensures version { MatchResult result (λ _. self.new.version ≡ 2) (λ _.
            self.new.version ≡ 1) }
        ensures place { self.new.place ≡ self.old.place }
        ensures honest { D.is_honest disk.old ↔ D.is_honest disk.new }
        ensures raised { D.is_honest disk.old → (secret : List ℕ) (bodies : List (List ℕ))
            → IsLogOf (D.images disk.old) self.old secret bodies
            → OnOk result (IsLogOf (D.images disk.new) self.new secret bodies) }
        ensures tick { D.is_honest disk.old
            → OnOk result (D.moment disk.new ≡ D.moment disk.old + 2) }
        ensures one { D.is_honest disk.old
            → OnOk result (Only (D.seen disk.new) (D.images disk.new)) }

        // It writes this byte and syncs, and makes no other call that changes a byte.
        ensures written { D.is_honest disk.old
            → OnOk result (IsWritten (D.seen disk.old) VERSION_GATE (1 ∷ []) (D.seen disk.new)) }
        ensures writes { D.is_honest disk.old
            → LeavesOnly D.moment D.left_since disk.old disk.new
            (Tears (D.images disk.old) VERSION_GATE 1) }
        ensures any_moment { D.is_honest disk.old → (secret : List ℕ) (bodies : List (List ℕ))
            → IsLogOf (D.images disk.old) self.old secret bodies
            → LeavesOnly D.moment D.left_since disk.old disk.new (HoldsRecords secret bodies) }
        ensures after { D.is_honest disk.old → (secret : List ℕ) (bodies : List (List ℕ))
            → IsLogOf (D.images disk.old) self.old secret bodies
            → Each (D.images disk.new) (HoldsRecords secret bodies) }
    {
        self.at_end = false;
        write_synced(disk, VERSION_GATE, &[1])?;
        self.version = 2;
        self.at_end = true;
        Ok(())
    }

    // Reads ahead, so that a whole record and the next gate are there, or all that is left.
    fn fill<D: Disk>(&mut self, disk: &mut D) -> Result<(), Failed>
        ensures cause { HasCause (D.faults disk.old) (D.faults disk.new) result }
        ensures counted { IsCounted (D.faults disk.old) (D.faults disk.new) result }
        ensures tick { D.is_honest disk.old → D.moment disk.new ≡ D.moment disk.old }
        ensures still { D.tells disk.old → D.tells disk.new × (D.seen disk.new ≡ D.seen disk.old) }
        ensures honest { D.is_honest disk.old ↔ D.is_honest disk.new }
        ensures rests { D.is_honest disk.old
            → Rests D.seen D.images D.moment D.left_since disk.old disk.new }
        ensures same { self.new ≡ with_ahead self.old self.new.ahead }
        ensures told { D.tells disk.old → self.old.size ≡ length (D.seen disk.old)
            → IsAhead (D.seen disk.old) self.old.place self.old.ahead
            → IsAhead (D.seen disk.old) self.old.place self.new.ahead }
        ensures far { D.tells disk.old → self.old.size ≡ length (D.seen disk.old)
            → IsAhead (D.seen disk.old) self.old.place self.old.ahead
            → OnOk result ((RECORD_MOST ≤ length self.new.ahead)
            ⊎ (length (D.seen disk.old) ≤ self.old.place + length self.new.ahead)) }
    {
        let have = self.ahead.bytes().len();
        if have >= RECORD_MOST || self.place + have as u64 >= self.size {
            return Ok(());
        }
        self.ahead.read_on(disk, self.place)
    }

    // The body of the next record, of which all has been read ahead.
    fn body_ahead(&self, count: usize) -> &[u8]
        requires { FRONT_SIZE + count ≤ length self.now.ahead }
        ensures { result.now ≡ take count (drop FRONT_SIZE self.now.ahead) }
    {
        &self.ahead.bytes()[FRONT_SIZE..FRONT_SIZE + count]
    }

    // Where the next record begins.
    fn size(&self) -> u64
        ensures { result ≡ self.now.size }
    {
        self.size
    }

    // No record follows a closed gate.
    fn close(&mut self)
        ensures { self.new ≡ with_gate_closed self.old }
    {
        self.at_end = true;
    }

    // Moves past a record.
    fn pass(&mut self, count: usize)
        requires { FRONT_SIZE + count < length self.old.ahead }
        ensures { self.new ≡ past self.old count }
    {
        self.ahead.pass(FRONT_SIZE + count);
        self.place += FRONT_SIZE as u64;
        self.place += count as u64;
    }
}

// Puts other bytes in the place of the old ones.
fn replace(body: &mut Body, bytes: &[u8])
    requires { length bytes.now ≤ BODY_ROOM }
    ensures { body.new.items ≡ bytes.now }
{
    body.clear();
    let _ = body.try_extend_from_slice(bytes);
}

// Takes memory for a body of any length.
fn reserve_body(body: &mut Vec<u8>) -> Result<(), NoMemory>
    ensures { OnOk result (vec_len body.new + BODY_ROOM ≤ vec_capacity body.new) }
{
    match body.reserve(BODY_ROOM) {
        Ok(()) => Ok(()),
        Err(_) => Err(NoMemory),
    }
}

// Puts other bytes in the place of the old ones, in memory that was taken.
fn fill_reserved(body: &mut Vec<u8>, bytes: &[u8])
    requires { length bytes.now ≤ vec_capacity body.old }
    ensures { body.new.items ≡ bytes.now }
{
    body.clear();
    let _ = body.extend_from_slice(bytes);
}

// What is written after a gate: the length, the body, and the closed gate of the next record.
fn piece_of(body: &[u8]) -> ArrayVec<u8, BEHIND_MOST>
    requires { IsBody body.now }
    ensures { result.items ≡ behind_gate body.now }
{
    let mut bytes = ArrayVec::new();
    let _ = bytes.try_extend_from_slice(&(body.len() as u32).to_le_bytes());
    let _ = bytes.try_extend_from_slice(body);
    bytes.push(0);
    bytes
}
