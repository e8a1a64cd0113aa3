// The requests of a round, as they are in the input.
use std::alloc::Global;
use std::io;
use std::io::ErrorKind;

/// What begins a request: the moment that the clock tells at it, in seconds since 1970, comes after it.
const AT: &str = "at ";

/// A request and the moment at which it comes.
#[derive(Drop)]
pub(crate) struct Sent {
    pub(crate) moment: u64,
    pub(crate) bytes: Vec<u8>,
    in_body: bool,
}

// Takes the next line of a round: one with a moment begins a request, the next ones up to an empty one are the lines of its head, and the others
// its body.
pub(crate) fn take_line(alloc: Global, round: &mut Vec<Sent>, line: &str) -> io::Result<()> {
    match line.strip_prefix(AT) {
        Some(moment) => {
            let moment = match moment.parse::<u64>() {
                Ok(moment) => moment,
                Err(_) => return Err(io::Error::from(ErrorKind::InvalidData)),
            };
            round.push(Sent {
                moment,
                bytes: Vec::new(alloc),
                in_body: false,
            })?;
            Ok(())
        }
        None => match round.last_mut() {
            Some(sent) => sent.add(line),
            None => Ok(()),
        },
    }
}

impl Sent {
    // Adds a line of the head, with its end, or one of the body.
    fn add(&mut self, line: &str) -> io::Result<()> {
        self.bytes.extend_from_slice(line.as_bytes())?;
        if !self.in_body {
            self.bytes.extend_from_slice(b"\r\n")?;
            self.in_body = line.is_empty();
        }
        Ok(())
    }

    // Whether its reply has no body.
    pub(crate) fn is_bodiless(&self) -> bool {
        self.bytes.starts_with(b"HEAD ")
    }
}
