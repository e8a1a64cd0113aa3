// Rounds over one link, in pieces and with a call of the link or the clock that fails.
use crate::dues::Dues;
use crate::hosts::{Call, Fault, Got, Host};
use crate::reports::{Report, is_refusal};
use serving::LinkEnd;
use split_http::INTERIM;
use std::alloc::Global;
use std::io;
use std::thread::Threads;

/// The size of the pieces in which a round is read if a call fails.
const PIECE: usize = 16;

/// The most calls of a kind that are tried.
const MOST_CALLS: u64 = 100_000;

/// The code with which a request is refused if the clock failed.
const CLOCK_FAULT: &[u8] = b"{\"code\":\"clock_fault\"}";

/// The sizes of the pieces in which a round without a fault is read.
const PIECES: [usize; 4] = [1, 2, 7, 4096];

// Rounds without a fault, in pieces of several sizes.
pub(crate) fn try_pieces<R: Threads + Sync>(
    alloc: Global,
    rt: &R,
    dues: &Dues,
) -> io::Result<Report> {
    let mut report = Report::new();
    for piece in PIECES {
        let mut host = Host::of_file(alloc, &dues.file)?;
        let got = host.talk(alloc, rt, &dues.round, piece, None)?;
        let right = got.end == LinkEnd::Ended && got.bytes == dues.whole;
        let kept = dues.has_all(&host.events(alloc)?);
        report.add(piece as u64, right && kept);
    }
    Ok(report)
}

// Each call of this kind fails in turn, up to one that is never made.
pub(crate) fn try_calls<R: Threads + Sync>(
    alloc: Global,
    rt: &R,
    dues: &Dues,
    call: Call,
) -> io::Result<Report> {
    let mut report = Report::new();
    for number in 1..MOST_CALLS {
        match try_fault(alloc, rt, dues, Fault { call, number })? {
            Some(right) => report.add(number, right),
            None => break,
        }
    }
    Ok(report)
}

// Whether a round with this fault is as it must be. None if no call failed.
fn try_fault<R: Threads + Sync>(
    alloc: Global,
    rt: &R,
    dues: &Dues,
    fault: Fault,
) -> io::Result<Option<bool>> {
    let mut host = Host::of_file(alloc, &dues.file)?;
    let got = host.talk(alloc, rt, &dues.round, PIECE, Some(fault))?;
    let events = host.events(alloc)?;
    let Some((right, from)) = judged(dues, &got, &events, fault) else {
        return Ok(None);
    };
    let on = dues.goes_on(alloc, rt, &mut host, from)?;
    Ok(Some(right && on))
}

// Whether a link with this fault ended as it must, and the first request that is sent again. The clock is called once a request.
fn judged(dues: &Dues, got: &Got, events: &[u8], fault: Fault) -> Option<(bool, usize)> {
    if fault.call == Call::Clock {
        let place = (fault.number as usize).saturating_sub(1);
        let right = ends_refused(dues, got, place) && events == dues.events_behind(place);
        return (place < dues.round.len()).then_some((right, place));
    }
    let (count, _) = dues.replies_in(got.bytes.len());
    got.failed
        .then_some((ends_there(dues, got, events, fault), count))
}

// Whether a link ended at its fault: a request whose reply was being written is kept, and no later one.
fn ends_there(dues: &Dues, got: &Got, events: &[u8], fault: Fault) -> bool {
    let Some(missing) = dues.whole.strip_prefix(got.bytes.as_slice()) else {
        return false;
    };
    let (count, whole) = dues.replies_in(got.bytes.len());
    let torn = got.bytes.len().saturating_sub(whole);
    let (kept, first_part) = match fault.call {
        Call::Write if !missing.starts_with(INTERIM) => (count.saturating_add(1), true),
        Call::Write => (count, torn == 0),
        _ => (count, torn == 0 || torn == INTERIM.len()),
    };
    got.end == LinkEnd::LinkFault && first_part && events == dues.events_behind(kept)
}

// Whether a link ended by the refusal of the request at this place, after the replies to those before.
fn ends_refused(dues: &Dues, got: &Got, place: usize) -> bool {
    let mut bytes = got.bytes.as_slice();
    for due in dues.each.iter().take(place) {
        match bytes.strip_prefix(due.reply.as_slice()) {
            Some(behind) => bytes = behind,
            None => return false,
        }
    }
    got.end == LinkEnd::Ended && is_refusal(bytes, dues.is_bodiless(place), CLOCK_FAULT)
}
