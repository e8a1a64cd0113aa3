// How often a port was asked to listen or a dialer to open a link, and with which port number most recently.
ghost use Rattle.std.specs.Prelude.{◌≡◌};
ghost use Rattle.split_base.specs.Asked.{asked_again, never_asked};

/// How often an object has been asked for a port, up to 2^64 - 1, and which port it
/// was last asked for.
#[derive(Clone, Copy, Debug, PartialEq, Eq)]
pub struct Asked {
    /// How often.
    pub times: u64,
    /// The number of the last port that it was asked for; `None` if there was none.
    pub last: Option<u16>,
}

impl Asked {
    /// It has not been asked yet.
    pub fn never() -> Asked
        ensures { result ≡ never_asked }
    {
        Asked {
            times: 0,
            last: None,
        }
    }

    /// The record after one more request, for the port with this number.
    pub fn again(self, port: u16) -> Asked
        ensures { result ≡ asked_again port self }
    {
        Asked {
            times: self.times.saturating_add(1),
            last: Some(port),
        }
    }
}
