// Rounds in which calls of the disk fail.
use crate::dues::Dues;
use crate::hosts::{Host, disk_of, host_on};
use crate::reports::{Report, is_refusal};
use split_base::MemDisk;
use std::alloc::Global;
use std::io;
use std::io::Print;
use std::thread::Threads;

/// The code with which a request is refused if the disk failed.
pub(crate) const STORE_FAULT: &[u8] = b"{\"code\":\"store_fault\"}";

/// The most calls of a disk that are tried.
const MOST_CALLS: u64 = 10_000;

/// The most times that a disk is opened, and that a request is sent.
const MOST_TRIES: u8 = 4;

/// How many faults came of the failing calls of a round, and whether it is as it must be.
#[derive(Clone, Copy)]
struct Seen {
    faults: u64,
    right: bool,
}

// Each call of the disk fails in turn.
pub(crate) fn try_disks<R: Threads + Sync>(
    alloc: Global,
    rt: &R,
    dues: &Dues,
) -> io::Result<Report> {
    let mut report = Report::new();
    for number in 1..MOST_CALLS {
        let seen = try_disk(alloc, rt, dues, &[number])?;
        if seen.faults == 0 {
            report.end(number, seen.right);
            break;
        }
        report.add(number, seen.right && seen.faults == 1);
    }
    Ok(report)
}

// Tells of rounds in which two calls of the disk fail: the second in the request of the first, in the opening after it, or in the append after
// that.
pub(crate) fn tell_pairs<R: Threads + Sync + Print>(
    alloc: Global,
    rt: &R,
    dues: &Dues,
) -> io::Result<()> {
    for (apart, name) in [
        (1, "two calls of the disk fail, next to each other"),
        (2, "two calls of the disk fail, two apart"),
        (3, "two calls of the disk fail, three apart"),
        (4, "two calls of the disk fail, four apart"),
    ] {
        try_pairs(alloc, rt, dues, apart)?.tell(rt, name)?;
    }
    Ok(())
}

// Two calls of the disk fail that are this many apart, the first of them each in turn.
fn try_pairs<R: Threads + Sync>(
    alloc: Global,
    rt: &R,
    dues: &Dues,
    apart: u64,
) -> io::Result<Report> {
    let mut report = Report::new();
    for number in 1..MOST_CALLS {
        let fails = [number, number.saturating_add(apart)];
        let seen = try_disk(alloc, rt, dues, &fails)?;
        if seen.faults < 2 {
            report.end(number, seen.right);
            break;
        }
        report.add(number, seen.right && seen.faults == 2);
    }
    Ok(report)
}

// A round in which the calls of these numbers fail.
fn try_disk<R: Threads + Sync>(
    alloc: Global,
    rt: &R,
    dues: &Dues,
    fails: &[u64],
) -> io::Result<Seen> {
    let mut seen = Seen {
        faults: 0,
        right: true,
    };
    let disk = disk_of(alloc, &dues.file, fails, None)?;
    match opened(alloc, disk, &mut seen)? {
        Some(mut host) => {
            for place in 0..dues.round.len() {
                ask(alloc, rt, dues, &mut host, place, &mut seen)?;
            }
        }
        None => seen.right = false,
    }
    Ok(seen)
}

// Opens a disk, again if a call of it failed.
fn opened(alloc: Global, mut disk: MemDisk, seen: &mut Seen) -> io::Result<Option<Host>> {
    for _ in 0..MOST_TRIES {
        match host_on(alloc, &mut disk)? {
            Some(serving) => return Ok(Some(Host::new(alloc, disk, serving)?)),
            None => seen.faults = seen.faults.saturating_add(1),
        }
    }
    Ok(None)
}

// Sends the request at this place until it gets another reply than that the disk failed.
fn ask<R: Threads + Sync>(
    alloc: Global,
    rt: &R,
    dues: &Dues,
    host: &mut Host,
    place: usize,
    seen: &mut Seen,
) -> io::Result<()> {
    for _ in 0..MOST_TRIES {
        match asked(alloc, rt, dues, host, place)? {
            Answer::Due { kept } => {
                seen.right = seen.right && kept;
                return Ok(());
            }
            Answer::Refused => seen.faults = seen.faults.saturating_add(1),
            Answer::Other => seen.right = false,
        }
    }
    seen.right = false;
    Ok(())
}

/// What a request got: its due, and whether the events that it tells of are then kept; or the refusal of a fault of the disk.
#[derive(Clone, Copy)]
pub(crate) enum Answer {
    Due { kept: bool },
    Refused,
    Other,
}

// Sends the request at this place, on a link of its own.
pub(crate) fn asked<R: Threads + Sync>(
    alloc: Global,
    rt: &R,
    dues: &Dues,
    host: &mut Host,
    place: usize,
) -> io::Result<Answer> {
    let before = host.events(alloc)?;
    let one = dues.one(place);
    let reply = host.talk(alloc, rt, one, usize::MAX, None)?.bytes;
    let kept = host.events(alloc)?.as_slice() == dues.events_behind(place.saturating_add(1));
    if reply.as_slice() == dues.reply_at(place, &before) {
        return Ok(Answer::Due { kept });
    }
    if is_refusal(&reply, dues.is_bodiless(place), STORE_FAULT) {
        return Ok(Answer::Refused);
    }
    Ok(Answer::Other)
}
