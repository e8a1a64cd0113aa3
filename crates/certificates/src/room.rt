// Puts bytes of a certificate after others in a buffer, if there is room for them.
ghost use Rattle.certificates.specs.Puts.{Puts};

// Puts some bytes after the first `used` bytes of a buffer, and returns how many bytes are used then. Bytes that don't fit are only
// counted.
pub(crate) fn put(text: &mut [u8], used: usize, more: &[u8]) -> usize
    ensures { Puts more.now used text.old text.new result }
{
    let Some(end) = used.checked_add(more.len()) else {
        return usize::MAX;
    };
    if end <= text.len() {
        text[used..end].copy_from_slice(more);
    }
    end
}
