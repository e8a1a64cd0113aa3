// The text of the reply that says, as JSON, at which place the host's file stops being a journal.
ghost use Rattle.std.specs.Prelude.{◌≡◌, ◌≤◌, ◌+◌, ◌++◌, length};
ghost use Rattle.reply_texts.specs.Refusals.{service_text};
ghost use Rattle.reply_texts.specs.declared.damage.TheConstants.{DAMAGE_ROOM};
ghost use Rattle.reply_texts.specs.declared.refusals.ServiceRefusal.TheVariants.{StoreDamaged};

use arrayvec::ArrayVec;
use itoa::Buffer;

/// The room for such a text, in bytes.
pub const DAMAGE_ROOM: usize = 80;

/// Such a text, in room that takes no memory.
pub type DamageText = ArrayVec<u8, DAMAGE_ROOM>;

/// The text of the refusal where the file isn't a journal at this place. It takes no memory.
pub fn damage_text(place: u64) -> DamageText
    ensures { result.items ≡ service_text (StoreDamaged place) }
{
    let mut buffer = Buffer::new();
    let mut text = DamageText::new();
    put(&mut text, b"{\"code\":\"store_damaged\",\"place\":");
    put(&mut text, buffer.format(place).as_bytes());
    put(&mut text, b"}");
    text
}

// The room is that of the longest text, so the bytes always fit.
fn put(text: &mut DamageText, bytes: &[u8])
    requires { length text.old.items + length bytes.now ≤ DAMAGE_ROOM }
    ensures bytes { text.new.items ≡ text.old.items ++ bytes.now }
    ensures size { length text.new.items ≡ length text.old.items + length bytes.now }
{
    let _ = text.try_extend_from_slice(bytes);
}
