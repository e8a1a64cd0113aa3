// Tries hosts in memory that wait after a failed call, and then get a damaged file.
use crate::disks::STORE_FAULT;
use crate::dues::Dues;
use crate::hosts::{Host, disk_of, fault_in};
use crate::reports::{Report, is_refusal};
use std::alloc::Global;
use std::io;
use std::thread::Threads;

/// The code with which a request is refused if the file isn't a journal.
const STORE_DAMAGED: &str = "{\"code\":\"store_damaged\",\"place\":";

// Each byte of the file of the whole round is changed in turn, and a host that waits gets the file. If opening the file by itself tells that
// it isn't a journal, the next request is refused with the place that this tells.
pub(crate) fn try_damages<R: Threads + Sync>(
    alloc: Global,
    rt: &R,
    dues: &Dues,
) -> io::Result<Report> {
    let mut report = Report::new();
    let whole = whole_file(alloc, rt, dues)?;
    for place in 0..whole.len() {
        let mut file = whole.to_vec(alloc)?;
        file[place] ^= 255;
        if let Some(fault) = fault_in(alloc, &file)? {
            let told = place_told(alloc, rt, dues, &file)?;
            report.add(place as u64, told == Some(fault));
        }
    }
    Ok(report)
}

// The file after the whole round.
fn whole_file<R: Threads + Sync>(alloc: Global, rt: &R, dues: &Dues) -> io::Result<Vec<u8>> {
    let mut host = Host::of_file(alloc, &dues.file)?;
    host.talk(alloc, rt, &dues.round, usize::MAX, None)?;
    Ok(host.into_disk().bytes().to_vec(alloc)?)
}

// The place that a host tells after its append failed and it got this file.
fn place_told<R: Threads + Sync>(
    alloc: Global,
    rt: &R,
    dues: &Dues,
    file: &[u8],
) -> io::Result<Option<u64>> {
    let first = dues.one(0);
    let mut waiting = Host::of_file(alloc, &dues.file)?.handed(disk_of(
        alloc,
        &dues.file,
        &[],
        Some(1),
    )?);
    let refused = waiting.talk(alloc, rt, first, usize::MAX, None)?;
    if !is_refusal(&refused.bytes, dues.is_bodiless(0), STORE_FAULT) {
        return Ok(None);
    }
    let mut damaged = waiting.handed(disk_of(alloc, file, &[], None)?);
    let reply = damaged.talk(alloc, rt, first, usize::MAX, None)?;
    Ok(place_in(&reply.bytes))
}

// The place in a reply that tells of a damaged file.
fn place_in(reply: &[u8]) -> Option<u64> {
    let text = std::str::from_utf8(reply).ok()?;
    let (_, behind) = text.split_once(STORE_DAMAGED)?;
    behind.strip_suffix("}")?.parse::<u64>().ok()
}
