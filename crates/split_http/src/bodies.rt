// The body after a head.
ghost use Rattle.std.specs.Prelude.{◌≡◌, ◌≤◌, ◌+◌, ◌++◌, ◌⊎◌, take, drop, length, vec_len, vec_capacity, OnOk, OnErr, IsTrue};
ghost use Rattle.std.specs.Io.KnownBytes.{Appends, prepend_known};
ghost use Rattle.split_base.specs.Faults.{HasCause, HasRisen, IsCounted};
ghost use Rattle.split_http.specs.Pieces.{AppendsProperPart};
ghost use Rattle.split_http.specs.Turns.{BodySays, BodyCounts, interim_of};

use crate::head::Head;
use http_heads::Carry;
use split_base::{Failed, Link, Sink, write_all};
use std::alloc::Global;

/// The interim line, by which a host asks for a body (RFC 9110, section 15.2.1).
pub const INTERIM: &[u8] = b"HTTP/1.1 100 Continue\r\n\r\n";

/// What comes where the body of a head is.
#[derive(Debug, Drop)]
pub enum BodyTurn {
    /// The whole body.
    Body(Vec<u8>),
    /// The head is refused.
    Refused {
        /// The number of its refusal, as in the head.
        row: u8,
    },
    /// The input has ended within the body.
    Cut,
    /// A read or a write failed.
    LinkFault,
    /// There was no memory for the body.
    NoMemory,
}

/// Reads the body after a head and takes it off the link's bytes. If the head asks for it, the
/// interim line is written to the link first.
///
/// - `Refused` is returned exactly when the head is refused. Nothing is read or written then.
/// - `Cut` is returned exactly when the input ends within the body.
/// - `LinkFault` comes for one failed call, which one of the link's two counts of faults shows: a
///   write of the interim line, if it is due, of which some is missing then, before anything was
///   read; or a read after the whole line, while less than the body was read. So nothing is read if
///   no body is due, and a failed call is not tried again.
/// - `NoMemory` is returned only if memory ran out for a body of one byte or more, and before
///   anything is read or written.
///
/// Each answer but `LinkFault` leaves both counts as they are. No write is empty.
/// After anything but a body the connection takes no further request.
pub fn next_body<L: Link>(alloc: Global, link: &mut L, carry: &mut Carry, head: &Head) -> BodyTurn
    ensures says { BodySays (prepend_known carry.old (L.Source.left link.old))
        (prepend_known carry.new (L.Source.left link.new)) (L.Sink.written link.old)
        (L.Sink.written link.new) head.now result }
    ensures cause { result ≡ BodyTurn.LinkFault
        → HasRisen (L.Source.faults link.old) (L.Source.faults link.new)
        ⊎ HasRisen (L.Sink.faults link.old) (L.Sink.faults link.new) }
    ensures reads { L.Source.faults link.old ≤ L.Source.faults link.new }
    ensures writes { L.Sink.faults link.old ≤ L.Sink.faults link.new }
    ensures empty { L.Sink.empty_writes link.new ≡ L.Sink.empty_writes link.old }
    ensures counts { BodyCounts (prepend_known carry.old (L.Source.left link.old))
        (prepend_known carry.new (L.Source.left link.new)) (L.Sink.written link.old)
        (L.Sink.written link.new) carry.new head.now (L.Source.faults link.old)
        (L.Source.faults link.new) (L.Sink.faults link.old) (L.Sink.faults link.new) result }
{
    if let Some(row) = head.refused {
        return BodyTurn::Refused { row };
    }
    let length = head.length as usize;
    let Ok(mut body) = Vec::with_capacity(alloc, length) else {
        return BodyTurn::NoMemory;
    };
    if write_interim(link, head.expects).is_err() {
        return BodyTurn::LinkFault;
    }
    'pieces: while body.len() < length {
        match carry.ready(link) {
            Err(Failed) => return BodyTurn::LinkFault,
            Ok(0) => return BodyTurn::Cut,
            Ok(_) => {}
        }
        let count = carry.len().min(length - body.len());
        move_front(carry, &mut body, count);
    }
    BodyTurn::Body(body)
}

// Writes the interim line if it is due.
fn write_interim<S: Sink>(sink: &mut S, due: bool) -> Result<(), Failed>
    ensures whole { OnOk result
        (Appends (S.written sink.old) (S.written sink.new) (interim_of due)) }
    ensures part { OnErr result
        (AppendsProperPart (S.written sink.old) (S.written sink.new) (interim_of due)) }
    ensures due { OnErr result (IsTrue due) }
    ensures cause { HasCause (S.faults sink.old) (S.faults sink.new) result }
    ensures count { IsCounted (S.faults sink.old) (S.faults sink.new) result }
    ensures empty { S.empty_writes sink.new ≡ S.empty_writes sink.old }
    ensures beside { S.beside sink.new ≡ S.beside sink.old }
{
    write_all(sink, interim(due))
}

// A client that asks for it waits for this line before it sends the body (RFC 9110, section 10.1.1).
fn interim(due: bool) -> &'static [u8]
    ensures { result.now ≡ interim_of due }
{
    if due { INTERIM } else { b"" }
}

// Moves the first bytes of the carry to the end of the body.
fn move_front(carry: &mut Carry, body: &mut Vec<u8>, count: usize)
    requires count { count ≤ length carry.old }
    requires room { vec_len body.old + count ≤ vec_capacity body.old }
    ensures items { body.new.items ≡ body.old.items ++ take count carry.old }
    ensures size { vec_len body.new ≡ vec_len body.old + count }
    ensures rest { carry.new ≡ drop count carry.old }
    ensures capacity { vec_capacity body.old ≤ vec_capacity body.new }
{
    body.extend_from_slice(&carry.as_slice()[..count]).unwrap();
    carry.take_front(count);
}
