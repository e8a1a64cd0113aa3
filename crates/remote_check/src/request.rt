// The request for a certificate.
ghost use Rattle.std.specs.Prelude.{◌≡◌, ◌≤◌, ◌+◌, ◌++◌, length};
ghost use Rattle.arrayvec.specs.ArrayVec.{array_vec_len};
ghost use Rattle.remote_check.specs.Requests.{request_of};

use arrayvec::ArrayVec;
use itoa::Buffer;

// The most bytes of a request: those of its fixed text, ten digits, and a key.
pub(crate) const REQUEST_ROOM: usize = 160;

/// What names a certificate of a host, and proves that its reader may have it.
#[derive(Clone, Copy, Debug)]
pub struct Words {
    /// The number of the instance.
    pub id: u32,
    /// The key of a member, or of the organiser.
    pub key: [u8; 64],
}

// The text of the request.
pub(crate) fn request_text(words: &Words) -> ArrayVec<u8, REQUEST_ROOM>
    ensures { result.items ≡ request_of words.now }
{
    let mut text = ArrayVec::new();
    let mut digits = Buffer::new();
    add(&mut text, b"GET /instances/");
    add(&mut text, digits.format(words.id).as_bytes());
    add(
        &mut text,
        b"/certificate HTTP/1.1\r\nHost: 127.0.0.1\r\nx-key: ",
    );
    add(&mut text, &words.key);
    add(&mut text, b"\r\nConnection: close\r\n\r\n");
    text
}

// The room is that of the longest request, so a piece always fits.
fn add(text: &mut ArrayVec<u8, REQUEST_ROOM>, piece: &[u8])
    requires { array_vec_len text.old + length piece.now ≤ REQUEST_ROOM }
    ensures items { text.new.items ≡ text.old.items ++ piece.now }
    ensures len { array_vec_len text.new ≡ array_vec_len text.old + length piece.now }
{
    let Ok(()) = text.try_extend_from_slice(piece) else {
        unreachable!()
    };
}
