// The bytes of a journal that were read ahead.
ghost use Rattle.std.specs.Prelude.{◌≡◌, ◌≤◌, ◌↔◌, ◌+◌, ◌-◌, ◌^◌, ◌++◌, [], length, take, drop, OnOk, OnErr};
ghost use Rattle.split_base.specs.Faults.{HasCause, IsCounted};
ghost use Rattle.split_base.specs.Disk.{Rests};
ghost use Rattle.gate_log.specs.declared.limits.TheConstants.{PIECE};

use crate::limits::PIECE;
use split_base::{Disk, Failed};

// The bytes from `from` to `to` of a piece, with room after them.
#[derive(Drop)]
pub(crate) struct Ahead {
    piece: [u8; PIECE],
    from: usize,
    to: usize,
    ghost ordered: { from ≤ to },
    ghost within: { to ≤ PIECE },
}

impl Ahead {
    ghost use Rattle.gate_log.specs.Ahead.{bytes_of, room_of};

    // Nothing has been read ahead yet.
    pub(crate) fn new() -> Self
        ensures { bytes_of result ≡ [] }
    {
        Ahead {
            piece: [0; PIECE],
            from: 0,
            to: 0,
        }
    }

    // An append changes the file, so what was read ahead is read again.
    pub(crate) fn clear(&mut self)
        ensures { bytes_of self.new ≡ [] }
    {
        self.from = 0;
        self.to = 0;
    }

    // What was read ahead and not passed yet.
    pub(crate) fn bytes(&self) -> &[u8]
        ensures { result.now ≡ bytes_of self.now }
    {
        &self.piece[self.from..self.to]
    }

    // Passes these bytes, which were understood and aren't looked at again.
    pub(crate) fn pass(&mut self, count: usize)
        requires { count ≤ length (bytes_of self.old) }
        ensures { bytes_of self.new ≡ drop count (bytes_of self.old) }
    {
        self.from += count;
    }

    // Makes room behind what is left, so that more can be read in one call.
    fn move_to_front(&mut self)
        ensures bytes { bytes_of self.new ≡ bytes_of self.old }
        ensures room { room_of self.new + length (bytes_of self.new) ≡ PIECE }
    {
        let (from, to) = (self.from, self.to);
        self.piece.copy_within(from..to, 0);
        self.from = 0;
        self.to = to - from;
    }

    // Reads on after the bytes that were read ahead from this place, as far as there is room. A fault
    // leaves what was there before.
    pub(crate) fn read_on<D: Disk>(&mut self, disk: &mut D, place: u64) -> Result<(), Failed>
        requires { place + length (bytes_of self.old) ≤ 2 ^ 63 }
        ensures cause { HasCause (D.faults disk.old) (D.faults disk.new) result }
        ensures counted { IsCounted (D.faults disk.old) (D.faults disk.new) result }
        ensures tick { D.is_honest disk.old → D.moment disk.new ≡ D.moment disk.old }
        ensures honest { D.is_honest disk.old ↔ D.is_honest disk.new }
        ensures still { D.tells disk.old → D.tells disk.new × (D.seen disk.new ≡ D.seen disk.old) }
        ensures rests { D.is_honest disk.old
            → Rests D.seen D.images D.moment D.left_since disk.old disk.new }
        ensures refused { OnErr result (bytes_of self.new ≡ bytes_of self.old) }
        ensures most { OnOk result (place + length (bytes_of self.new) ≤ 2 ^ 63) }
        ensures told { D.tells disk.old
            → OnOk result (bytes_of self.new
            ≡ bytes_of self.old
            ++ take (PIECE - length (bytes_of self.old))
            (drop (place + length (bytes_of self.old)) (D.seen disk.old))) }
    {
        self.move_to_front();
        let end = self.to;
        let count = disk.read_at(place + end as u64, &mut self.piece[end..])?;
        self.to = end + count;
        Ok(())
    }
}
