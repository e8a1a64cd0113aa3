// Tests of the disk in memory: what a crash may leave of it, and calls that fail when they are told to.
use crate::objects::{crashed, disk_of};
use split_base::{Disk, MemDisk, write_synced};
use std::alloc::Global;
use std::process::Abort;

// A disk with one write that was synced, and two that were not.
fn written(rt: &impl Abort, alloc: Global) -> MemDisk {
    let mut disk = disk_of(rt, alloc, b"abcdef", &[], None);
    let done = write_synced(&mut disk, 2, b"X").is_ok()
        && disk.write_at(0, b"123").is_ok()
        && disk.write_at(7, b"67").is_ok();
    assert!(rt; done && disk.bytes() == b"123def\x0067".as_slice());
    disk
}

// Of what came after the last sync, a crash keeps some first part, cut anywhere.
#[test]
fn a_crash_keeps_a_part_of_the_later_writes(rt: HostRuntime) {
    let alloc = rt.alloc();
    let cases: [(usize, &[u8]); 5] = [
        (0, b"abXdef"),
        (1, b"1bXdef"),
        (3, b"123def"),
        (4, b"123def\x006"),
        (usize::MAX, b"123def\x0067"),
    ];
    for (keep, after) in cases {
        let left = crashed(&rt, alloc, written(&rt, alloc), keep);
        assert!(rt; left.bytes() == after, "the first {keep} bytes");
    }
}

// Which of a write, a sync, a size and a read fail, in this order.
fn failing(disk: &mut MemDisk) -> [bool; 4] {
    let mut buffer = [0; 2];
    [
        disk.write_at(0, b"X").is_err(),
        disk.sync().is_err(),
        disk.size().is_err(),
        disk.read_at(0, &mut buffer).is_err(),
    ]
}

// Tests of hosts rely on just the listed calls failing.
#[test]
fn calls_fail_where_told(rt: HostRuntime) {
    let alloc = rt.alloc();
    // The calls that fail, the call at which the disk stops, and what fails.
    let cases: [(&[u64], Option<u64>, [bool; 4]); 4] = [
        (&[1], None, [true, false, false, false]),
        (&[2, 4], None, [false, true, false, true]),
        (&[], Some(3), [false, false, true, true]),
        (&[2], Some(0), [true, true, true, true]),
    ];
    for (fails, stop, failed) in cases {
        let mut disk = disk_of(&rt, alloc, b"abc", fails, stop);
        assert!(rt; failing(&mut disk) == failed);
    }
}

// Without faults, the disk in memory is an ordinary file.
#[test]
fn a_disk_gives_what_was_written(rt: HostRuntime) {
    let mut disk = disk_of(&rt, rt.alloc(), b"abc", &[], None);
    let mut buffer = [0; 3];
    assert!(rt; failing(&mut disk) == [false; 4] && disk.size() == Ok(3));
    assert!(rt; disk.read_at(1, &mut buffer) == Ok(2) && &buffer == b"bc\0");
}
