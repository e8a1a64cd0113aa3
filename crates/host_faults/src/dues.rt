// What the requests of a round get without a fault.
use crate::hosts::{Host, disk_of, events_of, made};
use crate::rounds::Sent;
use gate_log::create_log;
use serving::LinkEnd;
use std::alloc::Global;
use std::io;
use std::io::ErrorKind;
use std::thread::Threads;

/// What a request gets without a fault: its reply, the reply if it is sent once more, and the events that are kept after it.
#[derive(Drop)]
pub(crate) struct Due {
    pub(crate) reply: Vec<u8>,
    pub(crate) again: Vec<u8>,
    pub(crate) events: Vec<u8>,
}

/// A round, the file with which it begins, the events that this keeps, what each request gets, and what a link gets on which all of them come.
#[derive(Drop)]
pub(crate) struct Dues {
    pub(crate) round: Vec<Sent>,
    pub(crate) file: Vec<u8>,
    pub(crate) first: Vec<u8>,
    pub(crate) each: Vec<Due>,
    pub(crate) whole: Vec<u8>,
}

// Finds what each request of a round gets, on a new journal and on links of their own.
pub(crate) fn dues_of<R: Threads + Sync>(
    alloc: Global,
    rt: &R,
    round: Vec<Sent>,
) -> io::Result<Dues> {
    let mut disk = disk_of(alloc, b"", &[], None)?;
    if create_log(&mut disk, &[7; 32]).is_err() {
        return Err(io::Error::from(ErrorKind::Other));
    }
    let file = disk.bytes().to_vec(alloc)?;
    let mut host = Host::of_file(alloc, &file)?;
    let mut each = Vec::new(alloc);
    let mut whole = Vec::new(alloc);
    for place in 0..round.len() {
        let due = due_of(alloc, rt, &mut host, &round[place..place + 1])?;
        whole.extend_from_slice(&due.reply)?;
        each.push(due)?;
    }
    let first = events_of(alloc, &file)?;
    Ok(Dues {
        round,
        file,
        first,
        each,
        whole,
    })
}

// What these requests are due when they are sent once and once more, and the events that are kept. The second time must keep nothing more.
fn due_of<R: Threads + Sync>(
    alloc: Global,
    rt: &R,
    host: &mut Host,
    asked: &[Sent],
) -> io::Result<Due> {
    let reply = host.talk(alloc, rt, asked, usize::MAX, None)?.bytes;
    let events = host.events(alloc)?;
    let again = host.talk(alloc, rt, asked, usize::MAX, None)?.bytes;
    if host.events(alloc)? != events {
        return Err(io::Error::from(ErrorKind::InvalidData));
    }
    Ok(Due {
        reply,
        again,
        events,
    })
}

impl Dues {
    // The request at this place, as a round of one.
    pub(crate) fn one(&self, place: usize) -> &[Sent] {
        if place < self.round.len() {
            &self.round[place..place + 1]
        } else {
            &[]
        }
    }

    // Whether the reply to the request at this place has no body.
    pub(crate) fn is_bodiless(&self, place: usize) -> bool {
        self.round.get(place).is_some_and(|sent| sent.is_bodiless())
    }

    // How many replies are whole in the first bytes of what a link gets, and how many bytes these are.
    pub(crate) fn replies_in(&self, most: usize) -> (usize, usize) {
        let mut count = 0usize;
        let mut bytes = 0usize;
        for due in self.each.iter() {
            let end = due.reply.len().saturating_add(bytes);
            if end > most {
                break;
            }
            bytes = end;
            count = count.saturating_add(1);
        }
        (count, bytes)
    }

    // The events that are kept when this many requests were replied to.
    pub(crate) fn events_behind(&self, count: usize) -> &[u8] {
        match count.checked_sub(1).and_then(|last| self.each.get(last)) {
            Some(due) => &due.events,
            None => &self.first,
        }
    }

    // Whether these are the events after this many requests, and not already those before the last of them.
    pub(crate) fn has_kept(&self, place: usize, events: &[u8]) -> bool {
        let before = self.events_behind(place);
        events != before && events == self.events_behind(place.saturating_add(1))
    }

    // Whether these are the events after the whole round.
    pub(crate) fn has_all(&self, events: &[u8]) -> bool {
        events == self.events_behind(self.each.len())
    }

    // What the request at this place gets from a host that keeps these events.
    pub(crate) fn reply_at(&self, place: usize, events: &[u8]) -> &[u8] {
        match self.each.get(place) {
            Some(due) if self.has_kept(place, events) => &due.again,
            Some(due) => &due.reply,
            None => b"",
        }
    }

    // Sends the requests from this place on, over one link, and says whether each gets its due.
    pub(crate) fn goes_on<R: Threads + Sync>(
        &self,
        alloc: Global,
        rt: &R,
        host: &mut Host,
        from: usize,
    ) -> io::Result<bool> {
        if from >= self.round.len() {
            return Ok(true);
        }
        let mut due = self.reply_at(from, &host.events(alloc)?).to_vec(alloc)?;
        for later in self.each.iter().skip(from.saturating_add(1)) {
            due.extend_from_slice(&later.reply)?;
        }
        let got = host.talk(alloc, rt, &self.round[from..], usize::MAX, None)?;
        let events = host.events(alloc)?;
        Ok(
            got.bytes == due
                && got.end == LinkEnd::Ended
                && events.as_slice() == self.events_behind(self.each.len()),
        )
    }
}
