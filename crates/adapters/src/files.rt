// The journal's file as a disk.
ghost use Rattle.std.specs.Prelude.{◌≡◌, ◌≤◌, ◌+◌, ◌-◌, ◌^◌, [], length, IfSome, IsSome};

use crate::counts::{answered, fault};
use crate::held::HeldFile;
use crate::limits::{LONGEST_PIECE, MOST_FILE_BYTES, MOST_PIECES};
use arrayvec::ArrayVec;
use split_base::{Disk, Failed};
use std::fs::{File, Files};

/// Bytes that were written at a place since the last successful sync.
#[derive(Default, Drop)]
struct Piece {
    place: u64,
    bytes: ArrayVec<u8, LONGEST_PIECE>,
}

/// Whether the file's name in the folder is stable.
#[derive(Clone, Copy, PartialEq, Eq)]
enum FolderSync {
    Due,
    Done,
    Lost,
}

/// How far an append has come. An append writes a piece at the file's end, syncs, writes the byte in front of the piece, and
/// syncs, with no other call in between.
#[derive(Clone, Copy, PartialEq, Eq)]
enum Append {
    Idle,
    /// The piece after this byte has been written, and only its sync is missing.
    Written { gate: u64 },
    /// The piece after this byte is stable.
    Stable { gate: u64 },
}

/// A file in a folder, as a disk.
///
/// The first call opens the file, creating an empty one if there is none, and takes its exclusive lock without waiting. If that
/// fails, for example because another process holds the lock, the call fails, and the next call tries again. The file stays open
/// and locked for as long as the adapter lives. Only its owner may use a file that it creates.
///
/// Another program may still delete, move, replace or cut the file. So a sync fails if the path doesn't lead to the open file,
/// and so does a write after a successful sync, which also fails if the file no longer has the length that it had when it was
/// last measured or written here. No other file is opened in its place: calls succeed again once the path leads to it again.
///
/// In the middle of an append the path is not looked at: only its first write and its last sync do that. An append is a piece at
/// the end of a file that isn't empty, a sync, a write of the byte in front of that piece, and a sync. That byte decides whether
/// the piece counts, so nothing is acknowledged before the last sync. The length is checked before that byte is written, too.
///
/// A sync makes the whole file stable, and the first one the folder too. The system may take bytes for stored that a failed sync
/// has lost. So what was written since the last successful sync is kept, in up to `MOST_PIECES` pieces of at most `LONGEST_PIECE`
/// bytes, and the sync after a failed one writes it again before it syncs. A write that doesn't fit among these pieces fails.
/// Once the folder's own sync has failed, every later sync fails.
#[derive(Drop)]
pub struct JournalFile<'r, R> {
    files: &'r R,
    path: &'r str,
    folder: &'r str,
    held: Option<HeldFile>,
    folder_sync: FolderSync,
    is_doubtful: bool,
    pieces: ArrayVec<Piece, MOST_PIECES>,
    append: Append,
    faults: u64,
}

impl<'r, R: Files<File = File>> JournalFile<'r, R> {
    /// The file at this path, which is in this folder. Nothing is opened yet, and there has been no fault.
    pub fn new(files: &'r R, path: &'r str, folder: &'r str) -> Self
        ensures { result.faults ≡ 0 }
    {
        JournalFile {
            files,
            path,
            folder,
            held: None,
            folder_sync: FolderSync::Due,
            is_doubtful: false,
            pieces: ArrayVec::new(),
            append: Append::Idle,
            faults: 0,
        }
    }

    /// How many of its calls have failed.
    pub fn faults(&self) -> u64
        ensures { result ≡ self.now.faults }
    {
        self.faults
    }

    // Opens and locks the file if it is not open yet, and says whether it is open now.
    fn opens(&mut self) -> bool
        ensures count { self.new.faults ≡ self.old.faults }
    {
        if self.held.is_none() {
            self.held = HeldFile::open(self.files, self.path);
        }
        self.held.is_some()
    }

    // How far an append had come before this call, which continues or ends it.
    fn take_append(&mut self) -> Append
        ensures count { self.new.faults ≡ self.old.faults }
    {
        let append = self.append;
        self.append = Append::Idle;
        append
    }

    // Does not count its fault: `size` does that.
    fn size_now(&mut self) -> Option<u64>
        ensures count { self.new.faults ≡ self.old.faults }
        ensures least { IfSome result (λ n. n ≤ 2 ^ 63) }
    {
        self.append = Append::Idle;
        if !self.opens() {
            return None;
        }
        let Some(held) = &mut self.held else {
            return None;
        };
        held.size()
    }

    // Does not count its fault: `read_at` does that. Nothing is read past the greatest place.
    fn read_now(&mut self, place: u64, into: &mut [u8]) -> Option<usize>
        ensures count { self.new.faults ≡ self.old.faults }
        ensures size { IfSome result (λ n. n ≤ length into.old) }
        ensures least { IfSome result (λ n. n ≤ 2 ^ 63 - place) }
    {
        if !self.opens() {
            return None;
        }
        let Some(held) = &self.held else {
            return None;
        };
        let most = MOST_FILE_BYTES.saturating_sub(place);
        let room = if (into.len() as u64) <= most {
            into.len()
        } else {
            most as usize
        };
        held.read_full(place, &mut into[..room])
    }

    // Does not count its fault: `write_at` does that. What was written is kept until the next successful sync.
    fn write_now(&mut self, place: u64, bytes: &[u8]) -> Option<()>
        ensures count { self.new.faults ≡ self.old.faults }
        ensures least { IsSome result → place + length bytes.now ≤ 2 ^ 63 }
    {
        let append = self.take_append();
        if place > MOST_FILE_BYTES || bytes.len() as u64 > MOST_FILE_BYTES - place {
            return None;
        }
        if bytes.len() > LONGEST_PIECE || !self.opens() || self.pieces.is_full() {
            return None;
        }
        let Some(held) = &mut self.held else {
            return None;
        };
        if self.pieces.is_empty() {
            let opens_gate = append == (Append::Stable { gate: place });
            if !held.is_as_long() || !opens_gate && !held.is_at(self.files, self.path) {
                return None;
            }
        }
        let is_append = self.pieces.is_empty() && held.is_end(place);
        let done = held.write_front(place, bytes);
        let mut kept = ArrayVec::new();
        let _ = kept.try_extend_from_slice(&bytes[..done]);
        self.pieces.push(Piece { place, bytes: kept });
        if done < bytes.len() {
            return None;
        }
        if is_append {
            self.append = Append::Written { gate: place - 1 };
        }
        Some(())
    }

    // Does not count its fault: `sync` does that. After a failed sync, the pieces are written again before the next one.
    fn sync_now(&mut self) -> Option<()>
        ensures count { self.new.faults ≡ self.old.faults }
    {
        let append = self.take_append();
        if !self.opens() {
            return None;
        }
        let Some(held) = &mut self.held else {
            return None;
        };
        if self.is_doubtful && !writes_again(held, &self.pieces) {
            return None;
        }
        if !held.sync() {
            self.is_doubtful = true;
            return None;
        }
        self.is_doubtful = false;
        self.pieces.clear();
        if let Append::Written { gate } = append {
            self.append = Append::Stable { gate };
        } else if !held.is_at(self.files, self.path) {
            return None;
        }
        self.syncs_folder()
    }

    // Makes the file's name stable, once.
    fn syncs_folder(&mut self) -> Option<()>
        ensures count { self.new.faults ≡ self.old.faults }
    {
        if self.folder_sync == FolderSync::Due {
            self.folder_sync = if is_synced(self.files, self.folder) {
                FolderSync::Done
            } else {
                FolderSync::Lost
            };
        }
        if self.folder_sync == FolderSync::Done {
            Some(())
        } else {
            None
        }
    }
}

impl<'r, R: Files<File = File>> Disk for JournalFile<'r, R> {
    ghost tells = { λ _. ⊥ };

    ghost is_honest = { λ _. ⊥ };

    ghost seen = { λ _. [] };

    ghost images = { λ _ _. ⊥ };

    ghost moment = { λ _. 0 };

    ghost left_since = { λ _ _ _. ⊥ };

    ghost faults = { λ disk. disk.faults };

    fn size(&mut self) -> Result<u64, Failed> {
        let size = self.size_now();
        answered(size, &mut self.faults)
    }

    fn read_at(&mut self, place: u64, into: &mut [u8]) -> Result<usize, Failed> {
        let count = self.read_now(place, into);
        answered(count, &mut self.faults)
    }

    fn write_at(&mut self, place: u64, bytes: &[u8]) -> Result<(), Failed> {
        let done = self.write_now(place, bytes);
        answered(done, &mut self.faults)
    }

    fn sync(&mut self) -> Result<(), Failed> {
        let done = self.sync_now();
        answered(done, &mut self.faults)
    }

    ghost honest_tells = { λ disk honest. absurd honest };

    ghost counts_now = { λ disk t c honest later image. absurd honest };

    ghost only_now = { λ disk c honest left. absurd honest };

    ghost seen_is_image = { λ disk honest. absurd honest };
}

// Writes each piece again, in order, and says whether all were written.
fn writes_again(held: &mut HeldFile, pieces: &[Piece]) -> bool {
    for piece in pieces {
        if held.write_front(piece.place, &piece.bytes) < piece.bytes.len() {
            return false;
        }
    }
    true
}

// Syncs a folder, and says whether that worked.
fn is_synced<R: Files<File = File>>(files: &R, folder: &str) -> bool {
    match File::open(files, folder) {
        Ok(folder) => folder.sync_all().is_ok(),
        Err(_) => false,
    }
}
