// A disk in memory, which knows what a crash might have left.
ghost use Rattle.std.specs.Prelude.{◌≡◌, ◌≤◌, ◌<◌, ◌↔◌, ◌⊎◌, ◌+◌, ◌-◌, ◌^◌, ◌++◌, [], min, ℕ, List, length, take, drop, replicate, vec_len, vec_capacity, IfOk, OnOk, OnErr, IsErr, IsTrue, MatchResult};
ghost use Rattle.split_base.specs.Faults.{HasCause, HasRisen, IsCounted};
ghost use Rattle.split_base.specs.Disk.{IsWritten, IsSameOutside, IsStableTo, Only, Rests, MayTear};
ghost use Rattle.split_base.specs.Past.{DiskState, Wrote, Synced, after_write, seen_of, images_at, moment_of, left_of, after_crash, new_disk, IsDown, IsFull, after_call, after_fault, after_act};
ghost use Rattle.split_base.specs.Replay.{after_bytes, acts_of, bytes_of};
ghost use Rattle.split_base.specs.declared.memory.disk.TheConstants.{CALL_SIZE};

use super::NoMemory;
use super::calls::Calls;
use crate::{Disk, Failed};
use std::alloc::Global;
use std::marker::Model;

// How much room a call takes in the list of calls, besides the bytes that it writes.
const CALL_SIZE: usize = 32;

#[derive(Clone, Copy, Debug, Drop)]
pub(crate) enum Call {
    Wrote { place: u64, count: usize },
    Synced,
}

/// A disk in memory, which knows what a crash might have left. It keeps each call that has changed it, so that what
/// a crash might have left is known.
///
/// Its calls of all four kinds are numbered together from 1. A call whose number is listed as failing fails, and so
/// does each call from the one at which the disk stops. A write that ends past the room for the file fails too, and
/// so does a write or sync that doesn't fit in the list of calls: a write takes 32 bytes of the list besides its
/// own, and a sync takes 32. A call that fails changes no byte. No call after `new` takes memory, except for
/// `crash`.
#[derive(Debug, Drop)]
pub struct MemDisk {
    first: Vec<u8>,
    file: Vec<u8>,
    acts: Vec<Call>,
    bytes: Vec<u8>,
    stable: usize,
    room: usize,
    list: usize,
    stop: Option<u64>,
    calls: Calls,
}

impl Model for MemDisk {
    ghost use Rattle.split_base.specs.Past.{DiskState};

    ghost Value = { DiskState };

    ghost use Rattle.split_base.specs.MemoryDisk.{disk_view, MatchesCalls};

    ghost view = { disk_view };

    ghost invariant = { MatchesCalls };
}

impl MemDisk {
    /// A disk with a file of `bytes`, all of them stable. It takes the memory for a file of `room`
    /// bytes and for a list of its calls of `room` bytes. `fails` has the numbers of the calls that
    /// fail, from 1; from call `stop` on every call fails.
    ///
    /// `NoMemory` means that this memory could not be had.
    pub fn new(
        alloc: Global,
        bytes: Vec<u8>,
        room: usize,
        fails: Vec<u64>,
        stop: Option<u64>,
    ) -> Result<Self, NoMemory>
        requires { length bytes.items ≤ room }
        ensures { IfOk result (λ disk. disk ≡ new_disk bytes.items room fails.items stop) }
    {
        let Ok(mut file) = Vec::with_capacity(alloc, room) else {
            return Err(NoMemory);
        };
        file.extend_from_slice(&bytes).unwrap();
        let Ok(acts) = Vec::with_capacity(alloc, room / CALL_SIZE) else {
            return Err(NoMemory);
        };
        let Ok(written) = Vec::with_capacity(alloc, room) else {
            return Err(NoMemory);
        };
        Ok(MemDisk {
            first: bytes,
            file,
            acts,
            bytes: written,
            stable: 0,
            room,
            list: room,
            stop,
            calls: Calls::new(fails),
        })
    }

    // Counts a call, and says whether it is one of those that fail.
    fn begin(&mut self) -> bool
        ensures down { IsTrue result ↔ IsDown self.old }
        ensures after { self.new ≡ after_call self.old }
    {
        let listed = self.calls.begin();
        listed || self.stop.is_some_and(|from| from <= self.calls.made)
    }

    // Counts a fault.
    fn fail(&mut self) -> Failed
        ensures after { self.new ≡ after_fault self.old }
        ensures later { self.old.faults ≤ self.new.faults }
        ensures cause { HasRisen self.old.faults self.new.faults }
    {
        self.calls.fail()
    }

    /// The bytes that a read gives, which are the whole file. It doesn't count as a call of the disk, so it can't
    /// fail.
    pub fn bytes(&self) -> &[u8]
        ensures { result.now ≡ seen_of self.now }
    {
        &self.file
    }

    // A write must end within what the file may hold, so that it needs no memory.
    fn has_room(&self, place: u64, count: usize) -> bool
        ensures room { IsTrue result ↔ (place + count ≤ self.now.room) }
        ensures most { IsTrue result → place + count ≤ 2 ^ 63 }
    {
        count <= self.room && place <= (self.room - count) as u64
    }

    // Each call takes room in the list of calls, besides the bytes that it writes.
    fn has_list(&self, count: usize) -> bool
        ensures { IsTrue result ↔ (count + CALL_SIZE ≤ self.now.list) }
    {
        self.list >= CALL_SIZE && count <= self.list - CALL_SIZE
    }

    // A write changes the file at once, but a crash may still lose it, so it is listed too.
    fn put(&mut self, place: u64, bytes: &[u8])
        requires room { place + length bytes.now ≤ self.old.room }
        requires list { length bytes.now + CALL_SIZE ≤ self.old.list }
        ensures { self.new
            ≡ after_act self.old (Wrote place bytes.now) (length bytes.now + CALL_SIZE) }
    {
        write_within(&mut self.file, place as usize, bytes);
        extend_within(&mut self.bytes, bytes);
        let count = bytes.len();
        self.acts.push_reserved(Call::Wrote { place, count });
        self.list -= count + CALL_SIZE;
    }

    // What was written before a sync survives a crash.
    fn settle(&mut self)
        requires { CALL_SIZE ≤ self.old.list }
        ensures { self.new ≡ after_act self.old Synced CALL_SIZE }
    {
        self.stable = self.bytes.len();
        self.acts.push_reserved(Call::Synced);
        self.list -= CALL_SIZE;
    }

    /// What a crash leaves that keeps the first `keep` bytes of the writes since the last sync: the
    /// stable bytes with those on top, as a new disk with that room, no failing calls and no stop.
    ///
    /// The room has to be at least the file's size, which `bytes` shows. `NoMemory` means that memory ran out; the
    /// disk is lost then.
    pub fn crash(self, alloc: Global, keep: usize, room: usize) -> Result<Self, NoMemory>
        requires { length (seen_of self) ≤ room }
        ensures left { IfOk result (λ disk. disk ≡ new_disk (after_crash self keep) room [] None) }
        ensures image { IfOk result (λ disk. images_at self disk.first) }
    {
        let file = self.kept(alloc, keep)?;
        MemDisk::new(alloc, file, room, Vec::new(alloc), None)
    }

    // The bytes that such a crash leaves.
    fn kept(&self, alloc: Global, keep: usize) -> Result<Vec<u8>, NoMemory>
        ensures bytes { IfOk result (λ file. file.items ≡ after_crash self.now keep) }
        ensures size { IfOk result (λ file. length file.items ≤ length (seen_of self.now)) }
        ensures image { images_at self.now (after_crash self.now keep) }
    {
        let limit = self.stable + keep.min(self.bytes.len() - self.stable);
        replayed(alloc, &self.first, &self.acts, &self.bytes, limit)
    }
}

// A file after the first `left` bytes that these calls have written.
fn replayed(
    alloc: Global,
    first: &[u8],
    mut acts: &[Call],
    mut bytes: &[u8],
    mut left: usize,
) -> Result<Vec<u8>, NoMemory>
    requires { bytes_of acts.now ≡ length bytes.now }
    ensures { IfOk result (λ file.
        file.items ≡ after_bytes first.now (acts_of acts.entry.now bytes.entry.now) left) }
{
    let Ok(mut file) = first.to_vec(alloc) else {
        return Err(NoMemory);
    };
    while let Some((act, rest)) = acts.split_first() {
        if let Call::Wrote { place, count } = *act {
            let kept = count.min(left);
            write_over(&mut file, place as usize, &bytes[..kept])?;
            bytes = &bytes[count..];
            left -= kept;
        }
        acts = rest;
    }
    Ok(file)
}

// Writes over a file, with zeros in a gap. A write of no bytes changes nothing.
fn write_over(file: &mut Vec<u8>, place: usize, bytes: &[u8]) -> Result<(), NoMemory>
    ensures ok { OnOk result (file.new.items ≡ after_write file.old.items place bytes.now) }
    ensures capacity { vec_capacity file.old ≤ vec_capacity file.new }
    ensures full { OnErr result (vec_capacity file.old < place + length bytes.now) }
{
    if bytes.is_empty() {
        return Ok(());
    }
    let Some(end) = place.checked_add(bytes.len()) else {
        return Err(NoMemory);
    };
    grow(file, end)?;
    copy_to(file, place, bytes);
    Ok(())
}

// The caller has seen that there is room, so writing needs no memory and can't fail.
fn write_within(file: &mut Vec<u8>, place: usize, bytes: &[u8])
    requires { place + length bytes.now ≤ vec_capacity file.old }
    ensures bytes { file.new.items ≡ after_write file.old.items place bytes.now }
    ensures capacity { vec_capacity file.old ≤ vec_capacity file.new }
{
    write_over(file, place, bytes).unwrap();
}

// The caller has seen that there is room, so the list needn't take more memory and can't fail.
fn extend_within(bytes: &mut Vec<u8>, more: &[u8])
    requires { vec_len bytes.old + length more.now ≤ vec_capacity bytes.old }
    ensures bytes { bytes.new.items ≡ bytes.old.items ++ more.now }
    ensures capacity { vec_capacity bytes.old ≤ vec_capacity bytes.new }
{
    bytes.extend_from_slice(more).unwrap();
}

// Fills a shorter file up with zeros.
fn grow(file: &mut Vec<u8>, end: usize) -> Result<(), NoMemory>
    ensures ok { OnOk result
        (file.new.items ≡ file.old.items ++ replicate (end - length file.old.items) 0) }
    ensures capacity { vec_capacity file.old ≤ vec_capacity file.new }
    ensures full { OnErr result (vec_capacity file.old < end) }
{
    if file.len() < end && file.resize(end, 0).is_err() {
        return Err(NoMemory);
    }
    Ok(())
}

// Copies the bytes to their place in a file.
fn copy_to(file: &mut [u8], place: usize, bytes: &[u8])
    requires { place + length bytes.now ≤ length file.old }
    ensures { file.new
        ≡ take place file.old ++ bytes.now ++ drop (place + length bytes.now) file.old }
{
    file[place..place + bytes.len()].copy_from_slice(bytes);
}

// Copies the bytes of a file from the place on, as many as there are or as the buffer holds.
fn copy_from(file: &[u8], place: u64, into: &mut [u8]) -> usize
    ensures count { result ≡ min (length into.old) (length file.now - place) }
    ensures bytes { take result into.new ≡ take result (drop place file.now) }
{
    if place >= file.len() as u64 {
        return 0;
    }
    let rest = &file[place as usize..];
    let count = into.len().min(rest.len());
    into[..count].copy_from_slice(&rest[..count]);
    count
}

impl Disk for MemDisk {
    ghost use Rattle.std.specs.Prelude.{length};
    ghost use Rattle.split_base.specs.Past.{seen_of, images_at, moment_of, left_of};
    ghost use Rattle.split_base.specs.PastLaws.{seen_image, now_counts, now_only};

    ghost tells = { λ d. Unit {0} };

    ghost is_honest = { λ d. Unit {0} };

    ghost seen = { λ d. seen_of d };

    ghost images = { λ d c. images_at d c };

    ghost moment = { λ d. moment_of d };

    ghost left_since = { λ d t c. left_of d t c };

    ghost faults = { λ d. d.faults };

    ghost honest_tells = { λ d honest. tt };

    ghost counts_now = { λ d t c honest le now. now_counts d t c le now };

    ghost only_now = { λ d c honest left. now_only d c left };

    ghost seen_is_image = { λ d honest. seen_image d };

    fn size(&mut self) -> Result<u64, Failed>
        ensures cause { HasCause self.old.faults self.new.faults result }
        ensures counted { IsCounted self.old.faults self.new.faults result }
        ensures least { IfOk result (λ n. n ≤ 2 ^ 63) }
        ensures honest { Unit {0} }
        ensures still { Unit {0} × (seen_of self.new ≡ seen_of self.old) }
        ensures told { IfOk result (λ n. n ≡ length (seen_of self.old)) }
        ensures tick { moment_of self.new ≡ moment_of self.old }
        ensures rests { Rests seen_of images_at moment_of left_of self.old self.new }

        // It fails exactly when its number is listed or the disk has stopped.
        ensures fails { IsErr result ↔ IsDown self.old }
        ensures after { MatchResult result (λ _. self.new ≡ after_call self.old)
            (λ _. self.new ≡ after_fault (after_call self.old)) }
    {
        if self.begin() {
            return Err(self.fail());
        }
        Ok(self.bytes().len() as u64)
    }

    fn read_at(&mut self, place: u64, into: &mut [u8]) -> Result<usize, Failed>
        ensures cause { HasCause self.old.faults self.new.faults result }
        ensures counted { IsCounted self.old.faults self.new.faults result }
        ensures count { IfOk result (λ n. n ≤ length into.old) }
        ensures least { IfOk result (λ n. n ≤ 2 ^ 63 - place) }
        ensures honest { Unit {0} }
        ensures still { Unit {0} × (seen_of self.new ≡ seen_of self.old) }
        ensures told { IfOk result (λ n.
            n ≡ min (length into.old) (length (seen_of self.old) - place)) }
        ensures bytes { IfOk result (λ n.
            take n into.new ≡ take n (drop place (seen_of self.old))) }
        ensures tick { moment_of self.new ≡ moment_of self.old }
        ensures rests { Rests seen_of images_at moment_of left_of self.old self.new }

        // It fails exactly when its number is listed or the disk has stopped.
        ensures fails { IsErr result ↔ IsDown self.old }
        ensures after { MatchResult result (λ _. self.new ≡ after_call self.old)
            (λ _. self.new ≡ after_fault (after_call self.old)) }
    {
        if self.begin() {
            return Err(self.fail());
        }
        Ok(copy_from(self.bytes(), place, into))
    }

    fn write_at(&mut self, place: u64, bytes: &[u8]) -> Result<(), Failed>
        ensures cause { HasCause self.old.faults self.new.faults result }
        ensures counted { IsCounted self.old.faults self.new.faults result }
        ensures least { OnOk result (place + length bytes.now ≤ 2 ^ 63) }
        ensures honest { Unit {0} }
        ensures written { OnOk result
            (IsWritten (seen_of self.old) place bytes.now (seen_of self.new)) }
        ensures stays { (end : ℕ) → IsStableTo (images_at self.old) end
            → IsSameOutside place (length bytes.now) end (seen_of self.old) (seen_of self.new) }
        ensures tick { OnOk result (moment_of self.new ≡ moment_of self.old + 1) }
        ensures tears { MayTear images_at moment_of left_of place (length bytes.now) self.old
            self.new }

        // It fails exactly when its number is listed, the disk has stopped, or it lacks room in the file or the
        // list.
        ensures fails { IsErr result
            ↔ (IsDown self.old ⊎ (self.old.room < place + length bytes.now)
            ⊎ IsFull self.old (length bytes.now + CALL_SIZE)) }
        ensures after { MatchResult result
            (λ _.
            self.new
            ≡ after_act (after_call self.old) (Wrote place bytes.now)
            (length bytes.now + CALL_SIZE)) (λ _. self.new ≡ after_fault (after_call self.old)) }
    {
        if self.begin() || !self.has_room(place, bytes.len()) || !self.has_list(bytes.len()) {
            return Err(self.fail());
        }
        self.put(place, bytes);
        Ok(())
    }

    fn sync(&mut self) -> Result<(), Failed>
        ensures cause { HasCause self.old.faults self.new.faults result }
        ensures counted { IsCounted self.old.faults self.new.faults result }
        ensures honest { Unit {0} }
        ensures still { Unit {0} × (seen_of self.new ≡ seen_of self.old) }
        ensures durable { OnOk result (Only (seen_of self.old) (images_at self.new)) }
        ensures tick { OnOk result (moment_of self.new ≡ moment_of self.old + 1) }
        ensures rests { Rests seen_of images_at moment_of left_of self.old self.new }

        // It fails exactly when its number is listed, the disk has stopped, or it lacks room in the list.
        ensures fails { IsErr result ↔ (IsDown self.old ⊎ IsFull self.old CALL_SIZE) }
        ensures after { MatchResult result
            (λ _. self.new ≡ after_act (after_call self.old) Synced CALL_SIZE)
            (λ _. self.new ≡ after_fault (after_call self.old)) }
    {
        if self.begin() || !self.has_list(0) {
            return Err(self.fail());
        }
        self.settle();
        Ok(())
    }
}
