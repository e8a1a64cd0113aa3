// Reports how many rounds of requests with a failing call were tried, and how many differed from the rule, and tells which replies refuse for a fault.
use split_http::INTERIM;
use std::io;
use std::io::Print;

/// How many rounds with a failing call were tried, in how many an event was kept that was not acknowledged, and how many differed from what the rule
/// says, with the call of the first of them.
#[derive(Clone, Copy)]
pub(crate) struct Report {
    pub(crate) tried: u64,
    pub(crate) kept: u64,
    pub(crate) different: u64,
    pub(crate) first: u64,
}

impl Report {
    // Nothing was tried yet.
    pub(crate) fn new() -> Self {
        Report {
            tried: 0,
            kept: 0,
            different: 0,
            first: 0,
        }
    }

    // Counts a round in which an event was kept that was not acknowledged.
    pub(crate) fn keep(&mut self) {
        self.kept = self.kept.saturating_add(1);
    }

    // Counts a round whose call of this number failed.
    pub(crate) fn add(&mut self, number: u64, right: bool) {
        self.tried = self.tried.saturating_add(1);
        self.end(number, right);
    }

    // Counts a difference, without a round, if it is not as it must be.
    pub(crate) fn end(&mut self, number: u64, right: bool) {
        if !right {
            if self.different == 0 {
                self.first = number;
            }
            self.different = self.different.saturating_add(1);
        }
    }
}

impl Report {
    // Tells them in a line of this table.
    pub(crate) fn tell(&self, rt: &impl Print, name: &str) -> io::Result<()> {
        println!(rt; "{name}: {} rounds, {} differ", self.tried, self.different)?;
        if self.different > 0 {
            println!(rt; "{name}: the first at {}", self.first)?;
        }
        Ok(())
    }
}

// Whether a reply refuses for a fault of this code; a reply to HEAD does not tell it.
pub(crate) fn is_refusal(reply: &[u8], bodiless: bool, code: &[u8]) -> bool {
    let reply = match reply.strip_prefix(INTERIM) {
        Some(behind) => behind,
        None => reply,
    };
    reply.starts_with(b"HTTP/1.1 503 Service Unavailable\r\n")
        && (bodiless && reply.ends_with(b"\r\n\r\n") || reply.ends_with(code))
}
