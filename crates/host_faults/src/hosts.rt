// A host in memory that is tried over a round of requests with calls that fail, and what its links get.
use crate::rounds::Sent;
use gate_log::{Log, LogFault};
use host_journal::{Serving, open};
use serving::{LinkEnd, serve_one};
use split_base::limits::LAST_MOMENT;
use split_base::{MemClock, MemDisk, MemLink, MemSink, MemSource, NoMemory, Quiet};
use split_http::Routes;
use split_solve::KeptSearches;
use std::alloc::Global;
use std::io;
use std::io::ErrorKind;
use std::thread::Threads;

/// Room for a journal, for the list of its calls, and for the replies of a round.
pub(crate) const ROOM: usize = 20_000;

/// A kind of calls of a link, or those of its clock.
#[derive(Clone, Copy, PartialEq, Eq)]
pub(crate) enum Call {
    Read,
    Write,
    Clock,
}

/// The call that fails: its kind, and its number from 1.
#[derive(Clone, Copy)]
pub(crate) struct Fault {
    pub(crate) call: Call,
    pub(crate) number: u64,
}

impl Fault {
    // The number of the failing call, if it is of this kind, as a list.
    fn listed(alloc: Global, fault: Option<Fault>, call: Call) -> io::Result<Vec<u64>> {
        let mut numbers = Vec::new(alloc);
        if let Some(fault) = fault {
            if fault.call == call {
                numbers.push(fault.number)?;
            }
        }
        Ok(numbers)
    }
}

/// A host, its disk, its routes, and the searches that it keeps.
#[derive(Drop)]
pub(crate) struct Host {
    disk: MemDisk,
    serving: Serving,
    routes: Routes,
    searches: KeptSearches,
}

/// What a link got, how it ended, and whether one of its calls failed.
#[derive(Drop)]
pub(crate) struct Got {
    pub(crate) bytes: Vec<u8>,
    pub(crate) end: LinkEnd,
    pub(crate) failed: bool,
}

// What was made, except if memory runs out.
pub(crate) fn made<T>(tried: Result<T, NoMemory>) -> io::Result<T> {
    match tried {
        Ok(object) => Ok(object),
        Err(NoMemory) => Err(io::Error::from(ErrorKind::OutOfMemory)),
    }
}

// A disk with this file, whose calls of these numbers fail, and all from a number on.
pub(crate) fn disk_of(
    alloc: Global,
    file: &[u8],
    fails: &[u64],
    stop: Option<u64>,
) -> io::Result<MemDisk> {
    if file.len() > ROOM {
        return Err(io::Error::from(ErrorKind::InvalidData));
    }
    let fails = fails.to_vec(alloc)?;
    made(MemDisk::new(alloc, file.to_vec(alloc)?, ROOM, fails, stop))
}

// Opens a disk as a host. None if a call of the disk failed.
pub(crate) fn host_on(alloc: Global, disk: &mut MemDisk) -> io::Result<Option<Serving>> {
    match open(alloc, disk) {
        Ok(serving) => Ok(Some(serving)),
        Err(LogFault::Disk) => Ok(None),
        Err(fault) => Err(error_of(fault)),
    }
}

// The place of a file's first fault, if it isn't a journal.
pub(crate) fn fault_in(alloc: Global, file: &[u8]) -> io::Result<Option<u64>> {
    let mut disk = disk_of(alloc, file, &[], None)?;
    match open(alloc, &mut disk) {
        Ok(_) => Ok(None),
        Err(LogFault::NotALog { place }) => Ok(Some(place)),
        Err(fault) => Err(error_of(fault)),
    }
}

// The error of standard input and output that tells a fault of a log.
fn error_of(fault: LogFault) -> io::Error {
    match fault {
        LogFault::Disk => io::Error::from(ErrorKind::Other),
        LogFault::NotALog { .. } => io::Error::from(ErrorKind::InvalidData),
        LogFault::NoMemory => io::Error::from(ErrorKind::OutOfMemory),
    }
}

impl Host {
    // A host of this disk that was opened.
    pub(crate) fn new(alloc: Global, disk: MemDisk, serving: Serving) -> io::Result<Self> {
        let routes = made(Routes::new(alloc))?;
        Ok(Host {
            disk,
            serving,
            routes,
            searches: KeptSearches::new(alloc),
        })
    }

    // A host whose disk has this file and never fails.
    pub(crate) fn of_file(alloc: Global, file: &[u8]) -> io::Result<Self> {
        let mut disk = disk_of(alloc, file, &[], None)?;
        match host_on(alloc, &mut disk)? {
            Some(serving) => Host::new(alloc, disk, serving),
            None => Err(io::Error::from(ErrorKind::Other)),
        }
    }

    // Serves a link on which these requests come, in pieces of that many bytes.
    pub(crate) fn talk<'a, R: Threads + Sync>(
        &'a mut self,
        alloc: Global,
        rt: &'a R,
        round: &[Sent],
        piece: usize,
        fault: Option<Fault>,
    ) -> io::Result<Got> {
        let mut link = link_of(alloc, round, piece, fault)?;
        let mut clock = clock_of(alloc, round, fault)?;
        let end = serve_one(
            alloc,
            rt,
            &mut self.serving,
            &mut self.disk,
            &mut link,
            &mut clock,
            &self.routes,
            &mut self.searches,
            1,
            &Quiet,
        );
        Ok(Got {
            bytes: link.output().bytes().to_vec(alloc)?,
            end,
            failed: link.has_fault(),
        })
    }

    // The same host before another disk.
    pub(crate) fn handed(self, disk: MemDisk) -> Self {
        Host {
            disk,
            serving: self.serving,
            routes: self.routes,
            searches: self.searches,
        }
    }

    // Its disk.
    pub(crate) fn into_disk(self) -> MemDisk {
        self.disk
    }

    // The events that are kept.
    pub(crate) fn events(&self, alloc: Global) -> io::Result<Vec<u8>> {
        events_of(alloc, self.disk.bytes())
    }
}

// A link on which these requests come, in pieces of that many bytes, and on which one call may fail.
fn link_of(
    alloc: Global,
    round: &[Sent],
    piece: usize,
    fault: Option<Fault>,
) -> io::Result<MemLink> {
    let mut bytes = Vec::new(alloc);
    for sent in round {
        bytes.extend_from_slice(&sent.bytes)?;
    }
    let pieces = vec![in alloc; piece; bytes.len()]?;
    if !pieces.iter().all(|size| *size > 0) {
        return Err(io::Error::from(ErrorKind::InvalidInput));
    }
    let writes = Fault::listed(alloc, fault, Call::Write)?;
    let output = made(MemSink::new(alloc, ROOM, writes))?;
    let input = MemSource::new(bytes, pieces, Fault::listed(alloc, fault, Call::Read)?);
    Ok(MemLink::new(input, output))
}

// A clock that tells the moments of these requests in order.
fn clock_of(alloc: Global, round: &[Sent], fault: Option<Fault>) -> io::Result<MemClock> {
    let mut moments = Vec::new(alloc);
    for sent in round {
        moments.push(sent.moment)?;
    }
    if moments.is_empty() || !moments.iter().all(|moment| *moment <= LAST_MOMENT) {
        return Err(io::Error::from(ErrorKind::InvalidData));
    }
    Ok(MemClock::new(moments, Fault::listed(alloc, fault, Call::Clock)?))
}

// The events that a file keeps: the bodies of its records, each after its length.
pub(crate) fn events_of(alloc: Global, file: &[u8]) -> io::Result<Vec<u8>> {
    let mut disk = disk_of(alloc, file, &[], None)?;
    let (mut log, _) = Log::start(&mut disk).map_err(error_of)?;
    let mut events = Vec::new(alloc);
    let mut body = Vec::new(alloc);
    for _ in 0..ROOM {
        if !log.next(&mut disk, &mut body).map_err(error_of)? {
            break;
        }
        add_record(&mut events, &body)?;
    }
    Ok(events)
}

// Appends the body of a record, after its length.
fn add_record(events: &mut Vec<u8>, body: &[u8]) -> io::Result<()> {
    events.extend_from_slice(&body.len().to_le_bytes())?;
    events.extend_from_slice(body)?;
    Ok(())
}
