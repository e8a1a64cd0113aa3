// Keys of members and organisers: how they are made, and whose key one is.
ghost use Rattle.std.specs.Prelude.{◌≡◌, ◌<◌, ◌≤◌, length, IfSome, nat_eq};
ghost use Rattle.std.specs.Cmp.Lexicographic.{pointwise};
ghost use Rattle.std.specs.List.{position_from};
ghost use Rattle.bid_rules.specs.declared.limits.TheConstants.{MEMBER_ROOM};
ghost use Rattle.sealed_core.specs.declared.limits.TheConstants.{KEY_ROOM};
ghost use Rattle.sealed_core.specs.Keys.{key_text, keys_of};

use crate::limits::KEY_ROOM;
use arrayvec::ArrayVec;
use itoa::Buffer;
use sha2::{Digest, Sha256};

/// What a caller shows: any 64 bytes.
pub type Key = [u8; 64];

/// The key of a member of an instance, 0 for the organiser: the lower-case hexadecimal digits of the SHA-256 of the secret and
/// the text `ID/MEMBER`.
#[tactic(auto, unfolding(crate::specs::Keys::key_text))]
pub fn key_of(secret: &[u8; 32], id: u32, member: u8) -> Key
    ensures { result ≡ key_text secret.now id member }
{
    let mut hasher = Sha256::new();
    hasher.update(secret.as_slice());
    let mut buffer = Buffer::new();
    hasher.update(buffer.format(id));
    hasher.update("/");
    hasher.update(buffer.format(member));
    let digest = hasher.finalize();
    let mut key = [0u8; 64];
    let _ = hex::encode_to_slice(digest.as_slice(), &mut key);
    key
}

// The keys of the organiser and of this many members.
pub(crate) fn keys_of(secret: &[u8; 32], id: u32, members: u8) -> ArrayVec<Key, KEY_ROOM>
    requires { members ≤ MEMBER_ROOM }
    ensures { result.items ≡ keys_of secret.now id members }
{
    let mut keys = ArrayVec::new();
    for member in 0..members + 1 {
        keys.push(key_of(secret, id, member));
    }
    keys
}

// The first place at which this key stands: the number of the organiser or member whom it belongs to.
pub(crate) fn holder_of(keys: &[Key], key: &Key) -> Option<u8>
    requires { length keys.now ≤ KEY_ROOM }
    ensures first { result ≡ position_from (λ own. pointwise nat_eq own key.now) 0 keys.now }
    ensures among { IfSome result (λ place. place < length keys.now) }
{
    for place in 0..keys.len() {
        if keys[place].as_slice() == key.as_slice() {
            return Some(place as u8);
        }
    }
    None
}
