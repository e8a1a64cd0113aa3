// Links and disks in memory, with which the tests of the outside and of `gate_log` begin.
use split_base::{MemDisk, MemLink, MemSink, MemSource};
use std::alloc::Global;
use std::process::Abort;

// The room of a sink, and of a disk for its file and for its list of calls.
const ROOM: usize = 9000;

// A link that gives these bytes in pieces of that size. Its reads and its writes fail if their
// numbers, from 1, are listed.
pub(crate) fn link_of(
    rt: &impl Abort,
    alloc: Global,
    bytes: &[u8],
    piece: usize,
    reads: &[u64],
    writes: &[u64],
) -> MemLink {
    let pieces = vec![in alloc; piece; bytes.len()].expect(rt, "no memory");
    assert!(rt; pieces.iter().all(|size| *size > 0));
    let bytes = bytes.to_vec(alloc).expect(rt, "no memory");
    let reads = reads.to_vec(alloc).expect(rt, "no memory");
    let writes = writes.to_vec(alloc).expect(rt, "no memory");
    let output = MemSink::new(alloc, ROOM, writes).expect(rt, "no memory");
    MemLink::new(MemSource::new(bytes, pieces, reads), output)
}

// A disk with a file of these bytes. Its calls fail if their numbers, from 1, are listed, and
// from call `stop` on.
pub(crate) fn disk_of(
    rt: &impl Abort,
    alloc: Global,
    bytes: &[u8],
    fails: &[u64],
    stop: Option<u64>,
) -> MemDisk {
    let bytes = bytes.to_vec(alloc).expect(rt, "no memory");
    let fails = fails.to_vec(alloc).expect(rt, "no memory");
    assert!(rt; bytes.len() <= ROOM);
    MemDisk::new(alloc, bytes, ROOM, fails, stop).expect(rt, "no memory")
}

// What a crash leaves that keeps this many bytes of the later writes.
pub(crate) fn crashed(rt: &impl Abort, alloc: Global, disk: MemDisk, keep: usize) -> MemDisk {
    assert!(rt; disk.bytes().len() <= ROOM);
    disk.crash(alloc, keep, ROOM).expect(rt, "no memory")
}
