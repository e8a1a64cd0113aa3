// A dialer for the TCP ports of this machine.
ghost use Rattle.std.specs.Prelude.{◌≡◌, None};

use crate::counts::fault;
use crate::limits::LinkLimits;
use crate::links::TcpLink;
use split_base::{Asked, Dial, Failed};
use std::net::{IpAddr, Ipv4Addr, Net, SocketAddr, TcpStream};
use std::time::Clock;

/// Dials TCP ports of 127.0.0.1.
#[derive(Drop)]
pub struct TcpDialer<'r, R> {
    system: &'r R,
    limits: LinkLimits,
    faults: u64,
    asked: Asked,
}

impl<'r, R: Net + Clock> TcpDialer<'r, R> {
    /// A dialer that has had no fault yet. Its links have these limits, and a call to dial waits for an answer no longer than one
    /// read or write of a link may.
    pub fn new(system: &'r R, limits: LinkLimits) -> Self
        ensures { result.faults ≡ 0 }
    {
        TcpDialer {
            system,
            limits,
            faults: 0,
            asked: Asked::never(),
        }
    }

    /// How many of its calls have failed, and how many links were given back with a fault.
    pub fn faults(&self) -> u64
        ensures { result ≡ self.now.faults }
    {
        self.faults
    }
}

impl<'r, R: Net + Clock> Dial for TcpDialer<'r, R> {
    type Link = TcpLink<'r, R::Stream, R>;

    ghost to_come = { λ _. None };

    ghost given_back = { λ _. None };

    ghost places = { λ _. 0 };

    ghost asked = { λ dialer. dialer.asked };

    ghost faults = { λ dialer. dialer.faults };

    fn dial(&mut self, port: u16) -> Result<TcpLink<'r, R::Stream, R>, Failed> {
        self.asked = self.asked.again(port);
        let address = SocketAddr::new(IpAddr::V4(Ipv4Addr::LOCALHOST), port);
        match TcpStream::connect_timeout(self.system, &address, self.limits.call) {
            Ok(stream) => Ok(TcpLink::new(stream, self.system, self.limits)),
            Err(_) => Err(fault(&mut self.faults)),
        }
    }

    fn done(&mut self, link: TcpLink<'r, R::Stream, R>) {
        if link.has_failed() {
            fault(&mut self.faults);
        }
    }
}
