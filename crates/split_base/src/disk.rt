// A file as the journal sees it: what a read gives, and what a crash may leave of it.
ghost use Rattle.std.specs.Prelude.{◌≡◌, ◌≤◌, ◌↔◌, ◌+◌, ◌-◌, ◌^◌, min, List, ℕ, length, take, drop, IfOk, OnOk};
ghost use Rattle.split_base.specs.Faults.{HasCause, IsCounted};
ghost use Rattle.split_base.specs.Disk.{Only, Each, Tears, IsWritten, IsSameOutside, IsStableTo, LeavesOnly, Rests, MayTear};

use crate::Failed;

/// One file. Places and sizes are in bytes, and places count from 0.
///
/// Between two successful syncs, each written range and everything past the end that was stable may
/// hold any bytes after a crash; other bytes stay. After a successful sync a crash leaves what a read
/// gives. All this is promised only for an honest disk, except that what a read gives is promised for
/// any disk that reveals its bytes. The disk in memory is both.
pub trait Disk {
    /// The disk reveals its bytes: a read gives those that `seen` shows, and no call of `size`,
    /// `read_at` or `sync` changes any of them.
    ghost tells: { Self → Type 0 };

    /// The disk reveals its bytes, and keeps what a sync has made stable.
    ghost is_honest: { Self → Type 0 };

    /// The bytes that a read gives.
    ghost seen: { Self → List ℕ };

    /// The images: what a crash at this moment may leave.
    ghost images: { Self → List ℕ → Type 0 };

    /// The moment, a number that never falls: each completed write or sync raises it by one, and
    /// `size` and reads leave it unchanged.
    ghost moment: { Self → ℕ };

    /// What a crash, during a call or between two calls, might have left at that moment or later.
    ghost left_since: { Self → ℕ → List ℕ → Type 0 };

    /// How many of its calls have failed.
    ghost faults: { Self → ℕ };

    /// The file's size, at most 2^63.
    ///
    /// `Failed` is returned only if the count of faults has risen, by one. No byte changes.
    fn size(&mut self) -> Result<u64, Failed>
        ensures cause { HasCause (faults self.old) (faults self.new) result }
        ensures counted { IsCounted (faults self.old) (faults self.new) result }
        ensures least { IfOk result (λ n. n ≤ 2 ^ 63) }
        ensures honest { is_honest self.old ↔ is_honest self.new }
        ensures still { tells self.old → tells self.new × (seen self.new ≡ seen self.old) }
        ensures told { tells self.old → IfOk result (λ n. n ≡ length (seen self.old)) }
        ensures tick { is_honest self.old → moment self.new ≡ moment self.old }
        ensures rests { is_honest self.old
            → Rests seen images moment left_since self.old self.new };

    /// Copies the bytes from this place on to the front of `into`, up to the end of the buffer or of
    /// the file, and returns how many there were.
    ///
    /// `Failed` is returned only if the count of faults has risen, by one. No byte of the file
    /// changes.
    fn read_at(&mut self, place: u64, into: &mut [u8]) -> Result<usize, Failed>
        ensures cause { HasCause (faults self.old) (faults self.new) result }
        ensures counted { IsCounted (faults self.old) (faults self.new) result }
        ensures count { IfOk result (λ n. n ≤ length into.old) }
        ensures least { IfOk result (λ n. n ≤ 2 ^ 63 - place) }
        ensures honest { is_honest self.old ↔ is_honest self.new }
        ensures still { tells self.old → tells self.new × (seen self.new ≡ seen self.old) }
        ensures told { tells self.old
            → IfOk result (λ n. n ≡ min (length into.old) (length (seen self.old) - place)) }
        ensures bytes { tells self.old
            → IfOk result (λ n. take n into.new ≡ take n (drop place (seen self.old))) }
        ensures tick { is_honest self.old → moment self.new ≡ moment self.old }
        ensures rests { is_honest self.old
            → Rests seen images moment left_since self.old self.new };

    /// Writes the bytes at the place, over what is there and past the end.
    ///
    /// `Failed` is returned only if the count of faults has risen, by one. Until the next sync, a
    /// crash may leave any bytes in the range and past the stable end, even after `Failed`. All other
    /// bytes stay the same, for reads as well.
    fn write_at(&mut self, place: u64, bytes: &[u8]) -> Result<(), Failed>
        ensures cause { HasCause (faults self.old) (faults self.new) result }
        ensures counted { IsCounted (faults self.old) (faults self.new) result }
        ensures least { OnOk result (place + length bytes.now ≤ 2 ^ 63) }
        ensures honest { is_honest self.old ↔ is_honest self.new }
        ensures written { is_honest self.old
            → OnOk result (IsWritten (seen self.old) place bytes.now (seen self.new)) }
        ensures stays { is_honest self.old → (end : ℕ) → IsStableTo (images self.old) end
            → IsSameOutside place (length bytes.now) end (seen self.old) (seen self.new) }
        ensures tick { is_honest self.old → OnOk result (moment self.new ≡ moment self.old + 1) }
        ensures tears { is_honest self.old
            → MayTear images moment left_since place (length bytes.now) self.old self.new };

    /// Makes what a read gives stable: from then on, a crash leaves exactly that.
    ///
    /// `Failed` is returned only if the count of faults has risen, by one. In that case a crash leaves
    /// what it might have left before.
    fn sync(&mut self) -> Result<(), Failed>
        ensures cause { HasCause (faults self.old) (faults self.new) result }
        ensures counted { IsCounted (faults self.old) (faults self.new) result }
        ensures honest { is_honest self.old ↔ is_honest self.new }
        ensures still { tells self.old → tells self.new × (seen self.new ≡ seen self.old) }
        ensures durable { is_honest self.old
            → OnOk result (Only (seen self.old) (images self.new)) }
        ensures tick { is_honest self.old → OnOk result (moment self.new ≡ moment self.old + 1) }
        ensures rests { is_honest self.old
            → Rests seen images moment left_since self.old self.new };

    /// An honest disk reveals its bytes.
    ghost honest_tells: { (disk : Self) → is_honest disk → tells disk };

    /// What a crash may leave now counts among what it might have left since an earlier moment.
    ghost counts_now: { (disk : Self) (t : ℕ) (c : List ℕ) → is_honest disk → t ≤ moment disk → images disk c → left_since disk t c };

    /// What a crash might have left since this very moment is what it may leave now.
    ghost only_now: { (disk : Self) (c : List ℕ) → is_honest disk → left_since disk (moment disk) c → images disk c };

    /// The bytes that a read gives are one of the images.
    ghost seen_is_image: { (disk : Self) → is_honest disk → images disk (seen disk) };
}

/// Writes the bytes at the place and syncs: two calls of the disk.
///
/// `Failed` is returned only if the disk's count of faults has risen. A call that fails is not tried
/// again: the count has risen by one then, and not at all after `Ok`. A crash during or after the call
/// leaves an earlier image, with any bytes in the range and past the stable end; all other bytes stay
/// the same, for reads as well. After `Ok` there is exactly one image, which holds the bytes. The call
/// takes no memory.
pub fn write_synced<D: Disk>(disk: &mut D, place: u64, bytes: &[u8]) -> Result<(), Failed>
    ensures cause { HasCause (D.faults disk.old) (D.faults disk.new) result }
    ensures counted { IsCounted (D.faults disk.old) (D.faults disk.new) result }
    ensures least { OnOk result (place + length bytes.now ≤ 2 ^ 63) }
    ensures honest { D.is_honest disk.old ↔ D.is_honest disk.new }
    ensures written { D.is_honest disk.old
        → OnOk result (IsWritten (D.seen disk.old) place bytes.now (D.seen disk.new)) }
    ensures stays { D.is_honest disk.old → (end : ℕ) → IsStableTo (D.images disk.old) end
        → IsSameOutside place (length bytes.now) end (D.seen disk.old) (D.seen disk.new) }
    ensures durable { D.is_honest disk.old
        → OnOk result (Only (D.seen disk.new) (D.images disk.new)) }
    ensures tick { D.is_honest disk.old → OnOk result (D.moment disk.new ≡ D.moment disk.old + 2) }
    ensures crash { D.is_honest disk.old
        → Each (D.images disk.new) (Tears (D.images disk.old) place (length bytes.now)) }
    ensures any_moment { D.is_honest disk.old → LeavesOnly D.moment D.left_since disk.old disk.new
        (Tears (D.images disk.old) place (length bytes.now)) }
{
    disk.write_at(place, bytes)?;
    disk.sync()
}
