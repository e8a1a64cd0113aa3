// Tests of the journal in one file: which bytes are read as what, and what a crash keeps of an append.
ghost use Rattle.std.specs.Prelude.{IfOk, IsTrue};

use crate::objects::{crashed, disk_of};
use gate_log::{Log, LogFault, create_log};
use split_base::MemDisk;
use std::alloc::Global;
use std::process::Abort;

const SECRET: [u8; 32] = [7; 32];

// A journal with this version gate, and these bytes after its header.
fn journal(rt: &impl Abort, alloc: Global, version_gate: u8, rest: &[u8]) -> Vec<u8> {
    let mut bytes = b"FAIRSPLIT LOG 1\n".to_vec(alloc).expect(rt, "no memory");
    bytes.extend_from_slice(&SECRET).expect(rt, "no memory");
    bytes.push(version_gate).expect(rt, "no memory");
    bytes.extend_from_slice(rest).expect(rt, "no memory");
    bytes
}

// A log at the end of a journal of at most twenty records, and their bodies with a `|` after each.
fn read(rt: &impl Abort, alloc: Global, disk: &mut MemDisk) -> Result<(Log, Vec<u8>), LogFault>
    ensures { IfOk result (λ end. IsTrue end.0.at_end) }
{
    let (mut log, _) = Log::start(disk)?;
    let mut all = Vec::new(alloc);
    let mut body = Vec::new(alloc);
    for _ in 0..20 {
        if !log.next(disk, &mut body)? {
            return Ok((log, all));
        }
        all.extend_from_slice(&body).expect(rt, "no memory");
        all.push(b'|').expect(rt, "no memory");
    }
    Err(LogFault::NoMemory)
}

// The file has this version and these bodies, or its first fault at this place.
fn assert_read(rt: &impl Abort, alloc: Global, bytes: &[u8], due: Result<(u8, &[u8]), u64>) {
    let mut disk = disk_of(rt, alloc, bytes, &[], None);
    match read(rt, alloc, &mut disk) {
        Ok((log, all)) => assert!(rt; due == Ok((log.version(), all.as_slice()))),
        Err(LogFault::NotALog { place }) => assert!(rt; due == Err(place)),
        Err(_) => panic!(rt; "not read"),
    }
}

// Each cut of a good file must be refused at the cut, and each damaged byte at its place.
#[test]
fn files_are_read_or_have_a_first_fault(rt: HostRuntime) {
    let alloc = rt.alloc();
    // The version gate, the bytes after the header, and what they are read as.
    let cases: [(u8, &[u8], Result<(u8, &[u8]), u64>); 6] = [
        (0, b"\0\xff\xff", Ok((1, b""))),
        (0, b"\x01\x03\0\0\0one\0\x01\0\0\0x\0", Ok((1, b"one|"))),
        (1, b"\x01\x03\0\0\0one\0", Ok((2, b"one|"))),
        (9, b"\x02\x03\0\0\0one\xff\x01\0\0\0x\0", Ok((2, b"one|x|"))),
        (0, b"\x01\0\0\0\0\0", Err(50)),
        (1, b"\x01\x01\x10\0\0\0", Err(50)),
    ];
    for (gate, rest, due) in cases {
        assert_read(&rt, alloc, &journal(&rt, alloc, gate, rest), due);
    }
    let mut whole = journal(&rt, alloc, 1, b"\x01\x03\0\0\0one\0");
    assert!(rt; whole.len() == 58);
    for cut in 0..58 {
        assert_read(&rt, alloc, &whole[..cut], Err(cut as u64));
    }
    whole[3] = b'X';
    assert_read(&rt, alloc, &whole, Err(3));
}

// One more record, behind those that are there.
fn append(rt: &impl Abort, alloc: Global, disk: &mut MemDisk) -> Result<(), LogFault> {
    let (mut log, _) = read(rt, alloc, disk)?;
    log.append(disk, b"one")
}

// Makes a journal and appends to it on a disk that stops at this call, and keeps this many bytes of what no sync followed. Making the journal takes
// three calls, reading it three more, and appending four. A stop at the last leaves the record or doesn't.
fn assert_kept(rt: &impl Abort, alloc: Global, stop: u64, keep: usize) {
    let mut disk = disk_of(rt, alloc, b"", &[], Some(stop));
    let made = create_log(&mut disk, &SECRET);
    if stop <= 3 {
        return assert!(rt; made == Err(LogFault::Disk));
    }
    assert!(rt; append(rt, alloc, &mut disk).is_ok() == (stop == 11));
    let left = crashed(rt, alloc, disk, keep);
    let bodies: &[u8] = match (stop, keep) {
        (11, _) => b"one|",
        (10, keep) if keep > 0 => b"one|",
        _ => b"",
    };
    assert_read(rt, alloc, left.bytes(), Ok((2, bodies)));
}

// Wherever a crash comes, the record is there whole or not at all.
#[test]
fn a_record_is_kept_or_left_out(rt: HostRuntime) {
    for stop in 1..=11 {
        assert_kept(&rt, rt.alloc(), stop, 0);
        assert_kept(&rt, rt.alloc(), stop, usize::MAX);
    }
}

// Each append goes behind the record before it, and a journal that exists is never made again.
#[test]
fn records_stand_behind_one_another(rt: HostRuntime) {
    let alloc = rt.alloc();
    let mut disk = disk_of(&rt, alloc, b"", &[], None);
    assert!(rt; create_log(&mut disk, &SECRET).is_ok());
    for rest in [
        b"\0".as_slice(),
        b"\x01\x03\0\0\0one\0",
        b"\x01\x03\0\0\0one\x01\x03\0\0\0one\0",
    ] {
        assert!(rt; disk.bytes() == journal(&rt, alloc, 1, rest).as_slice());
        assert!(rt; append(&rt, alloc, &mut disk).is_ok());
    }
    assert!(rt; create_log(&mut disk, &SECRET) == Err(LogFault::NotALog { place: 0 }));
}

// Raises a journal of version 1 on a disk that stops at this call. Reading makes three calls; the fourth and the fifth are those of raising.
fn assert_raised(rt: &impl Abort, alloc: Global, stop: u64, old: &[u8], new: &[u8]) {
    let mut disk = disk_of(rt, alloc, old, &[], Some(stop));
    let Ok((mut log, _all)) = read(rt, alloc, &mut disk) else {
        panic!(rt; "not read");
    };
    assert!(rt; log.version() == 1 && log.raise(&mut disk).is_ok() == (stop == 6));
    let written = if stop == 4 { old } else { new };
    assert!(rt; disk.bytes() == written, "stopped at {stop}");
    let left = crashed(rt, alloc, disk, 0);
    let stable = if stop < 6 { old } else { new };
    assert!(rt; left.bytes() == stable, "stopped at {stop}");
}

// A crash while an old journal is raised leaves the old one or the new one.
#[test]
fn version_one_is_raised(rt: HostRuntime) {
    let alloc = rt.alloc();
    let old = journal(&rt, alloc, 0, b"\x01\x03\0\0\0one\0");
    let new = journal(&rt, alloc, 1, b"\x01\x03\0\0\0one\0");
    for stop in 4..=6 {
        assert_raised(&rt, alloc, stop, &old, &new);
    }
}
