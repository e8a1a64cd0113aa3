// The clock of this system, and of systems whose time no date can tell.
use adapters::{Arrival, SystemClock};
use split_base::limits::LAST_MOMENT;
use split_base::{Clock, Failed};
use std::io::ErrorKind;
use std::time::Duration;
use std::{io, time};

/// A clock that stays at some second, or that can't be read.
#[derive(Drop)]
struct Standing {
    second: Option<u64>,
}

impl time::Clock for Standing {
    fn monotonic(&self) -> io::Result<Duration> {
        self.since_1970()
    }

    fn since_1970(&self) -> io::Result<Duration> {
        match self.second {
            Some(second) => Ok(Duration::new(second, 999_999_999)),
            None => Err(io::Error::from(ErrorKind::InvalidData)),
        }
    }
}

// A moment after the last one that a date can express is a fault, as is a clock that
// fails.
#[test]
fn tells_whole_seconds(rt: HostRuntime) {
    let cases = [
        (Some(0), Ok(0)),
        (Some(1_772_366_400), Ok(1_772_366_400)),
        (Some(LAST_MOMENT), Ok(LAST_MOMENT)),
        (Some(LAST_MOMENT + 1), Err(Failed)),
        (None, Err(Failed)),
    ];
    for (second, moment) in cases {
        let standing = Standing { second };
        let arrival = Arrival::none();
        let mut clock = SystemClock::new(&standing, &arrival);
        assert_eq!(rt; clock.now(), moment);
        assert_eq!(rt; clock.faults(), u64::from(moment.is_err()));
    }

    // The code was written after this second.
    let arrival = Arrival::none();
    let mut clock = SystemClock::new(&rt, &arrival);
    assert!(rt; clock.now().is_ok_and(|moment| moment > 1_700_000_000));
}

// A request counts from when it had arrived, but no answer is dated before an earlier one, nor ahead of the clock.
#[test]
fn tells_when_a_request_arrived(rt: HostRuntime) {
    let standing = Standing {
        second: Some(1_000),
    };
    let arrival = Arrival::none();
    let mut clock = SystemClock::new(&standing, &arrival);
    for (arrived, moment) in [
        (Some(990), 990),
        (Some(980), 990),
        (Some(995), 995),
        (Some(1_005), 1_000),
        (None, 1_000),
        (Some(999), 1_000),
    ] {
        arrival.note(arrived);
        assert_eq!(rt; clock.now(), Ok(moment));
    }
}
