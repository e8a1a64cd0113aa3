// Tests of the outside in memory: its clocks, ports and dialers.
ghost use Rattle.std.specs.Prelude.{◌≡◌, IsTrue};

use split_base::{
    Asked, Clock, Dial, Failed, MemClock, MemDial, MemLink, MemPort, MemSink, MemSource, Port,
    Sink, Source,
};
use std::alloc::Global;
use std::process::Abort;

// A link that gives one byte, and has room for one more.
fn link_of(rt: &impl Abort, alloc: Global, byte: u8) -> MemLink {
    let bytes = [byte].to_vec(alloc).expect(rt, "no memory");
    let input = MemSource::new(bytes, Vec::new(alloc), Vec::new(alloc));
    let output = MemSink::new(alloc, 1, Vec::new(alloc)).expect(rt, "no memory");
    MemLink::new(input, output)
}

// A port with two links, whose first and fourth call fail.
fn port_of(rt: &impl Abort, alloc: Global) -> MemPort
    ensures out { result.out ≡ 0 }
    ensures goes_on { IsTrue result.is_over → ⊥ }
{
    let mut links = Vec::new(alloc);
    links.push(link_of(rt, alloc, b'0')).expect(rt, "no memory");
    links.push(link_of(rt, alloc, b'1')).expect(rt, "no memory");
    let fails = [1, 4].to_vec(alloc).expect(rt, "no memory");
    MemPort::new(alloc, links, fails).expect(rt, "no memory")
}

// A dialer with one link, whose first call fails.
fn dialer_of(rt: &impl Abort, alloc: Global) -> MemDial {
    let mut links = Vec::new(alloc);
    links.push(link_of(rt, alloc, b'0')).expect(rt, "no memory");
    assert!(rt; links.iter().all(|link| !link.has_fault()));
    let fails = [1].to_vec(alloc).expect(rt, "no memory");
    MemDial::new(alloc, links, fails).expect(rt, "no memory")
}

// The next link of a port, which has one.
fn next_of(rt: &impl Abort, port: &mut MemPort) -> MemLink
    requires none_out { port.old.out ≡ 0 }
    requires goes_on { IsTrue port.old.is_over → ⊥ }
    ensures out { port.new.out ≡ 1 }
    ensures goes_on { IsTrue port.new.is_over → ⊥ }
{
    match port.accept() {
        Ok(Some(link)) => link,
        _ => panic!(rt; "no link"),
    }
}

// Asks for a link by a call that fails.
fn fails_to_hand_out(rt: &impl Abort, port: &mut MemPort)
    requires none_out { port.old.out ≡ 0 }
    requires goes_on { IsTrue port.old.is_over → ⊥ }
    ensures out { port.new.out ≡ 0 }
    ensures goes_on { IsTrue port.new.is_over → ⊥ }
{
    match port.accept() {
        Err(Failed) => {}
        Ok(_) => panic!(rt; "no fault"),
    }
}

// Listens once more, so that the port may be asked again after it has ended.
fn listens_again(rt: &impl Abort, port: &mut MemPort)
    ensures out { port.new.out ≡ port.old.out }
    ensures goes_on { IsTrue port.new.is_over → ⊥ }
{
    match port.listen(8081) {
        Ok(()) => {}
        Err(Failed) => panic!(rt; "it does not listen"),
    }
}

// Reads the byte of the link, and writes it back.
fn echo(rt: &impl Abort, link: &mut MemLink) {
    let mut byte = [0];
    assert!(rt; link.read(&mut byte) == Ok(1) && link.write(&byte) == Ok(1));
}

// A test lists only the moments at which something changes.
#[test]
fn clock_repeats_its_last_moment(rt: HostRuntime) {
    let alloc = rt.alloc();
    let moments = [5, 4].to_vec(alloc).expect(&rt, "no memory");
    let fails = [2, 5].to_vec(alloc).expect(&rt, "no memory");
    let mut clock = MemClock::new(moments, fails);
    for moment in [Ok(5), Err(Failed), Ok(4), Ok(4), Err(Failed), Ok(4)] {
        assert!(rt; clock.now() == moment);
    }
}

// A port gives its links in turn, keeps what it has room for, and then has none, also when it listens anew.
#[test]
fn port_hands_out_its_links(rt: HostRuntime) {
    let mut port = port_of(&rt, rt.alloc());
    assert!(rt; port.listen(8080).is_err());
    assert!(rt; port.listen(8080).is_ok());
    let mut first = next_of(&rt, &mut port);
    echo(&rt, &mut first);
    port.done(first);
    fails_to_hand_out(&rt, &mut port);
    let second = next_of(&rt, &mut port);
    port.done(second);
    // There is no place for a third one.
    port.done(link_of(&rt, rt.alloc(), b'2'));
    assert!(rt; port.accept().is_ok_and(|next| next.is_none()));
    listens_again(&rt, &mut port);
    assert!(rt; port.accept().is_ok_and(|next| next.is_none()));
    let back = port.finished();
    assert!(rt; back.len() == 2 && back[0].output().bytes() == b"0".as_slice());
    assert!(rt;
        port.asked()
            == Asked {
                times: 3,
                last: Some(8081)
            }
    );
}

// A dialer gives its links in turn, and keeps what it has room for.
#[test]
fn dialer_gives_its_links(rt: HostRuntime) {
    let mut dialer = dialer_of(&rt, rt.alloc());
    assert!(rt; dialer.dial(1).is_err());
    let mut link = dialer.dial(1).expect(&rt, "no link");
    assert!(rt; dialer.dial(1).is_err());
    echo(&rt, &mut link);
    // There is no room for a second byte.
    assert!(rt; link.write(b"1") == Err(Failed) && link.has_fault());
    assert!(rt; link.write(b"") == Ok(0) && link.output().empty_writes() == 1);
    dialer.done(link);
    dialer.done(link_of(&rt, rt.alloc(), b'2'));
    assert!(rt; dialer.finished().iter().all(|link| link.has_fault()));
    assert!(rt; dialer.finished().len() == 1);
    assert!(rt;
        dialer.asked()
            == Asked {
                times: 3,
                last: Some(1)
            }
    );
}
