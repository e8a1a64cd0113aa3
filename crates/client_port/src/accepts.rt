// Why a connection could not be accepted, and how long the port waits after a failed call.
use crate::limits::{GIVING_UP_SECONDS, LEAST_PAUSE_MILLIS, MOST_PAUSE_MILLIS};
use std::io::Error;
use std::time::Duration;

// All errors of accept(2), as Linux numbers them. The ones not named here concern the port: EMFILE, ENFILE, ENOBUFS and ENOMEM, which mean
// that descriptors or memory are lacking, and EBADF, EFAULT, EINVAL and ENOTSOCK, which mean that the listener isn't one.

/// Nobody is waiting.
const EAGAIN: i32 = 11;

/// Errors that concern one client: it has gone, or a rule of the system forbids it. An `accept` that a signal interrupted never comes here, since
/// `mio` calls it again.
const EPERM: i32 = 1;

const EACCES: i32 = 13;

const ECONNABORTED: i32 = 103;

const ECONNRESET: i32 = 104;

const ETIMEDOUT: i32 = 110;

/// Errors of a client's network, which Linux passes on from the new socket.
const ENONET: i32 = 64;

const EPROTO: i32 = 71;

const ENOPROTOOPT: i32 = 92;

const EOPNOTSUPP: i32 = 95;

const ENETDOWN: i32 = 100;

const ENETUNREACH: i32 = 101;

const EHOSTDOWN: i32 = 112;

const EHOSTUNREACH: i32 = 113;

/// The errors that concern one client and not the port: the next client may do better.
const OF_A_CLIENT: [i32; 13] = [
    EPERM,
    EACCES,
    ECONNABORTED,
    ECONNRESET,
    ETIMEDOUT,
    ENONET,
    EPROTO,
    ENOPROTOOPT,
    EOPNOTSUPP,
    ENETDOWN,
    ENETUNREACH,
    EHOSTDOWN,
    EHOSTUNREACH,
];

/// Why there is no connection.
#[derive(Clone, Copy, Debug, PartialEq, Eq)]
pub(crate) enum Refusal {
    /// Nobody is waiting to be accepted.
    Nobody,
    /// One client has gone or isn't allowed in.
    Client,
    /// The port lacks descriptors or memory, or is broken.
    Port,
}

// What an error of `accept` means.
pub(crate) fn refusal_of(error: &Error) -> Refusal {
    match error.raw_os_error() {
        Some(EAGAIN) => Refusal::Nobody,
        Some(code) if OF_A_CLIENT.contains(&code) => Refusal::Client,
        _ => Refusal::Port,
    }
}

/// Pauses after calls that failed: each is twice as long as the one before, up to a limit, until a call succeeds.
#[derive(Drop)]
pub(crate) struct Backoff {
    pause: Duration,
    until: Duration,
    waited: Duration,
}

impl Backoff {
    // No call has failed.
    pub(crate) fn new() -> Backoff {
        Backoff {
            pause: Duration::ZERO,
            until: Duration::ZERO,
            waited: Duration::ZERO,
        }
    }

    // A call has succeeded.
    pub(crate) fn end(&mut self) {
        *self = Backoff::new();
    }

    // A call has failed.
    pub(crate) fn begin(&mut self, now: Duration) {
        let least = Duration::from_millis(LEAST_PAUSE_MILLIS);
        let most = Duration::from_millis(MOST_PAUSE_MILLIS);
        self.pause = self.pause.saturating_add(self.pause).max(least).min(most);
        self.until = now.saturating_add(self.pause);
    }

    // Whether no call has failed since the last success.
    pub(crate) fn is_over(&self) -> bool {
        self.pause == Duration::ZERO
    }

    // Counts the last pause, which brought no success.
    pub(crate) fn count(&mut self) {
        self.waited = self.waited.saturating_add(self.pause);
    }

    // Whether the pauses counted since the last success have lasted so long that the port gives up.
    pub(crate) fn gives_up(&self) -> bool {
        self.waited >= Duration::from_secs(GIVING_UP_SECONDS)
    }

    // How much longer the pause lasts.
    pub(crate) fn left(&self, now: Duration) -> Duration {
        self.until.saturating_sub(now)
    }
}
