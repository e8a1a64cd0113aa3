// The journal's file in the folder in which the test runs, and devices that fail.
use adapters::JournalFile;
use split_base::{Disk, Failed};
use std::fs;
use std::fs::OpenOptions;

// How many of these pieces a disk takes, each at its place, up to the first that it refuses.
fn taken(disk: &mut impl Disk, pieces: &[(u64, &[u8])]) -> usize {
    let mut count = 0usize;
    for (place, piece) in pieces {
        if disk.write_at(*place, piece).is_err() {
            break;
        }
        count = count.saturating_add(1);
    }
    count
}

// How many bytes a disk gives from this place on, of at most four, and these.
fn given(disk: &mut impl Disk, place: u64) -> (Result<usize, Failed>, [u8; 4]) {
    let mut into = [0; 4];
    let count = disk.read_at(place, &mut into);
    (count, into)
}

// No more is kept than a journal writes between two syncs.
#[test]
fn two_pieces_wait_for_a_sync(rt: HostRuntime) {
    let mut disk = JournalFile::new(&rt, "waiting.journal", ".");
    // There is no place for a third, and no file goes on after the greatest place.
    assert!(rt; taken(&mut disk, &[(0, b"a"), (1, b"b"), (2, b"c")]) == 2);
    assert!(rt; disk.sync().is_ok());
    assert!(rt; taken(&mut disk, &[(2, b"c"), (1 << 63, b"d")]) == 1);
    assert!(rt; disk.faults() == 2);
}

// The file is made when it's first written, and a read past its end gives nothing.
#[test]
fn makes_writes_and_reads_a_file(rt: HostRuntime) {
    let mut disk = JournalFile::new(&rt, "made.journal", ".");
    assert!(rt; taken(&mut disk, &[(2, b"cdefg"), (0, b"ab")]) == 2);
    assert!(rt; disk.size() == Ok(7));
    assert!(rt; given(&mut disk, 4) == (Ok(3), *b"efg\0"));
    assert!(rt; given(&mut disk, 9) == (Ok(0), [0; 4]));
}

// Two hosts must never write to one journal.
#[test]
fn the_lock_goes_with_the_adapter_that_holds_it(rt: HostRuntime) {
    let mut first = JournalFile::new(&rt, "held.journal", ".");
    let mut second = JournalFile::new(&rt, "held.journal", ".");
    assert!(rt; first.size() == Ok(0));
    assert!(rt; second.size() == Err(Failed));
    drop(first);
    assert!(rt; second.size() == Ok(0));
}

// A sync that succeeds must mean that the bytes are in the file of that name.
#[test]
fn a_file_that_was_moved_is_neither_synced_nor_written(rt: HostRuntime) {
    let mut disk = JournalFile::new(&rt, "named.journal", ".");
    assert!(rt; taken(&mut disk, &[(0, b"a")]) == 1);
    assert!(rt; fs::rename(&rt, "named.journal", "moved.journal").is_ok());
    assert!(rt; disk.sync() == Err(Failed));
    assert!(rt; taken(&mut disk, &[(1, b"b")]) == 0);
    assert!(rt; fs::rename(&rt, "moved.journal", "named.journal").is_ok());
    assert!(rt; synced(&mut disk, &[(1, b"b")]) == (1, 1));
    assert!(rt; disk.faults() == 2);
}

// A write that didn't happen must be a fault.
#[test]
fn a_full_device_takes_no_byte(rt: HostRuntime) {
    let mut full = JournalFile::new(&rt, "/dev/full", "/dev");
    assert!(rt; taken(&mut full, &[(0, b"a")]) == 0);
}

// How many of these pieces a disk takes, with a sync after each, and how many of the syncs it does.
fn synced(disk: &mut impl Disk, pieces: &[(u64, &[u8])]) -> (usize, usize) {
    let mut taken = 0usize;
    let mut done = 0usize;
    for (place, piece) in pieces {
        if disk.write_at(*place, piece).is_ok() {
            taken = taken.saturating_add(1);
            if disk.sync().is_ok() {
                done = done.saturating_add(1);
            }
        }
    }
    (taken, done)
}

// A failed sync must not lose what it was to make safe.
#[test]
fn what_can_not_be_synced_waits(rt: HostRuntime) {
    // A device that can't be synced keeps what waits for a sync: two pieces, and no third.
    let mut null = JournalFile::new(&rt, "/dev/null", "/dev");
    assert!(rt; synced(&mut null, &[(0, b"a"), (1, b"b"), (2, b"c")]) == (2, 0));
    assert!(rt; null.faults() == 3);
}

// Cuts a file, and says whether that went well.
fn is_cut(rt: HostRuntime, path: &str, length: u64) -> bool {
    match OpenOptions::new().write(true).open(&rt, path) {
        Ok(file) => file.set_len(length).is_ok(),
        Err(_) => false,
    }
}

#[test]
fn a_file_that_is_moved_within_an_append_is_not_synced_at_its_end(rt: HostRuntime) {
    let mut disk = JournalFile::new(&rt, "append.journal", ".");
    assert!(rt; synced(&mut disk, &[(0, b"ab"), (2, b"cd")]) == (2, 2));
    assert!(rt; fs::rename(&rt, "append.journal", "away.journal").is_ok());
    assert!(rt; synced(&mut disk, &[(1, b"x")]) == (1, 0));
    assert!(rt; taken(&mut disk, &[(4, b"e")]) == 0);
    assert!(rt; fs::rename(&rt, "away.journal", "append.journal").is_ok());
    assert!(rt; synced(&mut disk, &[(4, b"e"), (3, b"y")]) == (2, 2));
}

#[test]
fn a_file_that_is_cut_within_an_append_gets_no_gate(rt: HostRuntime) {
    let mut disk = JournalFile::new(&rt, "cut.journal", ".");
    assert!(rt; synced(&mut disk, &[(0, b"ab"), (2, b"cd")]) == (2, 2));
    assert!(rt; is_cut(rt, "cut.journal", 3));
    assert!(rt; taken(&mut disk, &[(1, b"x")]) == 0);
    assert!(rt; disk.size() == Ok(3));
}
