// Rounds in which the disk stops, and what a crash leaves of it.
use crate::disks::{Answer, asked};
use crate::dues::Dues;
use crate::hosts::{Host, ROOM, disk_of, host_on, made};
use crate::reports::Report;
use split_base::MemDisk;
use std::alloc::Global;
use std::io;
use std::io::{ErrorKind, Print};
use std::thread::Threads;

/// The most calls of a disk that are tried.
const MOST_CALLS: u64 = 10_000;

/// A disk that has stopped, how many requests were acknowledged before, and whether none was after that.
#[derive(Drop)]
struct Stopped {
    disk: MemDisk,
    acknowledged: usize,
    right: bool,
}

// Tells of rounds whose disk stops: a crash keeps nothing, one byte, or all of what no sync has followed.
pub(crate) fn tell_crashes<R: Threads + Sync + Print>(
    alloc: Global,
    rt: &R,
    dues: &Dues,
) -> io::Result<()> {
    for (keep, name) in [
        (
            0,
            "the disk stops, and nothing behind the last sync is kept",
        ),
        (1, "the disk stops, and one byte is kept"),
        (usize::MAX, "the disk stops, and all is kept"),
    ] {
        let report = try_crashes(alloc, rt, dues, keep)?;
        report.tell(rt, name)?;
        println!(rt;
            "{name}: in {} an event that was not acknowledged",
            report.kept
        )?;
    }
    Ok(())
}

// The disk stops at each of its calls, and a crash keeps the first `keep` bytes of the writes that no sync followed.
fn try_crashes<R: Threads + Sync>(
    alloc: Global,
    rt: &R,
    dues: &Dues,
    keep: usize,
) -> io::Result<Report> {
    let mut report = Report::new();
    for number in 1..MOST_CALLS {
        let stopped = stopped_at(alloc, rt, dues, number)?;
        if stopped.acknowledged == dues.round.len() {
            report.end(number, stopped.right);
            break;
        }
        try_crash(alloc, rt, dues, stopped, (keep, number), &mut report)?;
    }
    Ok(report)
}

// A round whose disk stops at the call of this number.
fn stopped_at<R: Threads + Sync>(
    alloc: Global,
    rt: &R,
    dues: &Dues,
    number: u64,
) -> io::Result<Stopped> {
    let mut disk = disk_of(alloc, &dues.file, &[], Some(number))?;
    match host_on(alloc, &mut disk)? {
        Some(serving) => served(alloc, rt, dues, Host::new(alloc, disk, serving)?),
        None => Ok(Stopped {
            disk,
            acknowledged: 0,
            right: true,
        }),
    }
}

// Sends each request once: those before the stop get their due, and all others are refused.
fn served<R: Threads + Sync>(
    alloc: Global,
    rt: &R,
    dues: &Dues,
    mut host: Host,
) -> io::Result<Stopped> {
    let mut acknowledged = 0;
    let mut right = true;
    for place in 0..dues.round.len() {
        match asked(alloc, rt, dues, &mut host, place)? {
            Answer::Due { kept } => {
                right = right && kept && acknowledged == place;
                acknowledged = place.saturating_add(1);
            }
            Answer::Refused => {}
            Answer::Other => right = false,
        }
    }
    Ok(Stopped {
        disk: host.into_disk(),
        acknowledged,
        right,
    })
}

// Opens what a crash leaves: each acknowledged event is there, and at most one more. Then the round goes on.
fn try_crash<R: Threads + Sync>(
    alloc: Global,
    rt: &R,
    dues: &Dues,
    stopped: Stopped,
    (keep, number): (usize, u64),
    report: &mut Report,
) -> io::Result<()> {
    let place = stopped.acknowledged;
    let mut left = crashed(alloc, stopped.disk, keep)?;
    let Some(serving) = host_on(alloc, &mut left)? else {
        return Err(io::Error::from(ErrorKind::Other));
    };
    let mut host = Host::new(alloc, left, serving)?;
    let events = host.events(alloc)?;
    let has_one_more = dues.has_kept(place, &events);
    let there = has_one_more || events.as_slice() == dues.events_behind(place);
    let on = dues.goes_on(alloc, rt, &mut host, place)?;
    report.add(number, stopped.right && there && on);
    if has_one_more {
        report.keep();
    }
    Ok(())
}

// What a crash leaves of a disk.
fn crashed(alloc: Global, disk: MemDisk, keep: usize) -> io::Result<MemDisk> {
    if disk.bytes().len() > ROOM {
        return Err(io::Error::from(ErrorKind::InvalidData));
    }
    made(disk.crash(alloc, keep, ROOM))
}
