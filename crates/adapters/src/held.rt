// A file that is held open and locked, and whether its path still leads to it.
ghost use Rattle.std.specs.Prelude.{◌≡◌, ◌<◌, ◌≤◌, ◌+◌, ◌^◌, length, IfSome, IsTrue};

use crate::limits::{JOURNAL_MODE, MOST_FILE_BYTES};
use std::fs::{File, Files, Metadata, OpenOptions};
use std::io::{Seek, SeekFrom};
use std::os::unix::fs::{FileExt, MetadataExt, OpenOptionsExt};

/// A file that is open and locked. While it is open, no other file has the same device and inode.
#[derive(Drop)]
pub(crate) struct HeldFile {
    file: File,
    device: u64,
    inode: u64,
    length: u64,
}

impl HeldFile {
    // Opens the file at a path and takes its lock without waiting. If there is no file, it creates an empty one that only its
    // owner may use.
    pub(crate) fn open<R: Files<File = File>>(files: &R, path: &str) -> Option<Self> {
        let opened = OpenOptions::new()
            .read(true)
            .write(true)
            .create(true)
            .mode(JOURNAL_MODE)
            .open(files, path);
        let Ok(file) = opened else {
            return None;
        };
        if file.try_lock().is_err() {
            return None;
        }
        let Ok(found) = file.metadata() else {
            return None;
        };
        Some(HeldFile {
            file,
            device: found.dev(),
            inode: found.ino(),
            length: found.len(),
        })
    }

    // Whether this is the file that the metadata describes.
    fn is(&self, found: &Metadata) -> bool {
        found.dev() == self.device && found.ino() == self.inode
    }

    // Whether the path leads to this file.
    pub(crate) fn is_at<R: Files<File = File>>(&self, files: &R, path: &str) -> bool {
        match files.metadata(path) {
            Ok(found) => self.is(&found),
            Err(_) => false,
        }
    }

    // Whether the file is as long as it was when it was last measured or written here. A seek doesn't ask for the file's times, so
    // the next write needn't set new ones, and the next sync needn't store them.
    pub(crate) fn is_as_long(&mut self) -> bool {
        match self.file.seek(SeekFrom::End(0)) {
            Ok(end) => end == self.length,
            Err(_) => false,
        }
    }

    // Whether a place is the end of a file that isn't empty, by the length that it had when it was last measured or written here.
    pub(crate) fn is_end(&self, place: u64) -> bool
        ensures { IsTrue result → 0 < place }
    {
        place > 0 && place == self.length
    }

    // Measures the file.
    pub(crate) fn size(&mut self) -> Option<u64>
        ensures { IfSome result (λ n. n ≤ 2 ^ 63) }
    {
        match self.file.metadata() {
            Ok(found) if found.len() <= MOST_FILE_BYTES => {
                self.length = found.len();
                Some(self.length)
            }
            _ => None,
        }
    }

    // Reads up to the end of the buffer or of the file, and returns how many bytes; nothing if a read failed.
    pub(crate) fn read_full(&self, place: u64, into: &mut [u8]) -> Option<usize>
        ensures { IfSome result (λ n. n ≤ length into.old) }
    {
        let mut done = 0;
        for _ in 0..into.len() {
            if done == into.len() {
                break;
            }
            match self
                .file
                .read_at(&mut into[done..], place.wrapping_add(done as u64))
            {
                Ok(0) => return Some(done),
                Ok(count) => done += count,
                Err(_) => return None,
            }
        }
        Some(done)
    }

    // Writes the bytes at the place until all are written or a write fails or takes nothing, and returns how many were written.
    pub(crate) fn write_front(&mut self, place: u64, bytes: &[u8]) -> usize
        ensures { result ≤ length bytes.now }
    {
        let mut done = 0;
        for _ in 0..bytes.len() {
            if done == bytes.len() {
                break;
            }
            match self
                .file
                .write_at(&bytes[done..], place.wrapping_add(done as u64))
            {
                Ok(count) if count > 0 => done += count,
                _ => break,
            }
        }
        if done > 0 {
            self.length = self.length.max(place.saturating_add(done as u64));
        }
        done
    }

    // Makes the whole file stable, and says whether that went well.
    pub(crate) fn sync(&self) -> bool {
        self.file.sync_all().is_ok()
    }
}
