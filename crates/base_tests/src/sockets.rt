// A TCP port and its clients, all on this machine.
ghost use Rattle.std.specs.Prelude.{◌≡◌};

use adapters::{Arrival, LinkLimits, TcpDialer};
use client_port::{PortLimits, TcpPort};
use split_base::{Dial, Failed, Port, Sink, Source};
use std::process::Abort;
use std::time::Duration;

/// A request, which is whole.
const ASK: &[u8] = b"GET / HTTP/1.1\r\nHost: a\r\n\r\n";

// The first number from this one on at which the port can listen.
fn listening<P: Port>(port: &mut P, first: u16) -> u16
    ensures out { P.out port.new ≡ P.out port.old }
    ensures over { P.is_over port.new → P.is_over port.old }
{
    for number in first..u16::MAX {
        if port.listen(number).is_ok() {
            return number;
        }
    }
    0
}

// A client's end of a connection to the port, which has sent these bytes.
fn asking<D: Dial>(rt: &impl Abort, dialer: &mut D, number: u16, bytes: &[u8]) -> D::Link {
    let mut client = dialer.dial(number).expect(rt, "nobody listens");
    assert!(rt; client.write(bytes).is_ok());
    client
}

// The port's end of the next turn.
fn turn_of<P: Port>(rt: &impl Abort, port: &mut P) -> P::Link
    requires none_out { P.out port.old ≡ 0 }
    requires goes_on { P.is_over port.old → ⊥ }
    ensures out { P.out port.new ≡ 1 }
    ensures goes_on { P.is_over port.new → ⊥ }
{
    match port.accept() {
        Ok(Some(link)) => link,
        _ => panic!(rt; "no client"),
    }
}

// A silent client must not hold up the port, whatever it has sent so far.
#[test]
fn waits_no_longer_than_its_limits(rt: HostRuntime) {
    let limits = PortLimits {
        idle: Duration::from_millis(100),
        closing: Duration::from_millis(50),
        ..PortLimits::usual()
    };
    let arrival = Arrival::none();
    let mut port = TcpPort::new(rt.alloc(), &rt, &arrival, limits);
    let mut dialer = TcpDialer::new(&rt, LinkLimits::usual());
    let number = listening(&mut port, 42_000);
    // This client sends half a head, and is dropped. It has its turn all the same.
    let half = asking(&rt, &mut dialer, number, b"GET / HTTP");
    let mut gone = turn_of(&rt, &mut port);
    assert!(rt; gone.read(&mut [0; 8]) == Err(Failed));
    assert!(rt; gone.write(b"late") == Err(Failed));
    port.done(gone);
    dialer.done(half);
    // This one sends a request, and nothing further.
    let client = asking(&rt, &mut dialer, number, ASK);
    let mut link = turn_of(&rt, &mut port);
    let mut into = [0; 128];
    assert!(rt; link.read(&mut into) == Ok(ASK.len()));
    assert!(rt; into.get(..ASK.len()).is_some_and(|read| read == ASK));
    assert!(rt; link.read(&mut into) == Err(Failed));
    port.done(link);
    dialer.done(client);
}
