// Tests of the program's adapters over objects whose calls fail: a reader and a writer.
use adapters::{Reading, Writing};
use split_base::{Failed, Sink, Source};
use std::io;
use std::io::{ErrorKind, Read, Write};

/// A reader and a writer whose first call fails, and whose second takes nothing of what it writes.
#[derive(Drop)]
struct Failing {
    calls: u8,
}

impl Failing {
    // Counts a call, and gives its number, or an error at the first.
    fn next(&mut self) -> io::Result<u8> {
        self.calls = self.calls.saturating_add(1);
        match self.calls {
            1 => Err(io::Error::from(ErrorKind::Other)),
            call => Ok(call),
        }
    }
}

impl Read for Failing {
    fn read(&mut self, into: &mut [u8]) -> io::Result<usize> {
        let call = self.next()?;
        match into.first_mut() {
            Some(first) => {
                *first = call;
                Ok(1)
            }
            None => Ok(0),
        }
    }
}

impl Write for Failing {
    fn write(&mut self, piece: &[u8]) -> io::Result<usize> {
        match self.next()? {
            2 => Ok(0),
            _ => Ok(piece.len()),
        }
    }

    fn flush(&mut self) -> io::Result<()> {
        Ok(())
    }
}

// A failed read leaves the buffer as it was and is counted once.
#[test]
fn counts_a_failed_read(rt: HostRuntime) {
    let mut source = Reading::new(Failing { calls: 0 });
    let mut into = [0; 4];
    assert_eq!(rt; source.read(&mut into), Err(Failed));
    assert_eq!(rt; source.faults(), 1);
    assert_eq!(rt; source.read(&mut into), Ok(1));
    assert_eq!(rt; (into, source.faults()), ([2, 0, 0, 0], 1));
}

// A failed write is counted once, and the next one is tried.
#[test]
fn counts_a_failed_write(rt: HostRuntime) {
    let mut sink = Writing::new(Failing { calls: 0 });
    assert_eq!(rt; sink.write(b"abc"), Err(Failed));
    assert_eq!(rt; sink.write(b"abc"), Err(Failed));
    assert_eq!(rt; sink.write(b"abc"), Ok(3));
    assert_eq!(rt; sink.faults(), 2);
}
