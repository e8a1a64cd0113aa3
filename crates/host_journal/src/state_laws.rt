// Laws about the states of a host before a disk, which hold on any disk.
ghost use Rattle.std.specs.Prelude.{◌≡◌, ◌⊎◌, ℕ, List, [], ◌∷◌, ◌++◌, Some};
ghost use Rattle.split_base.specs.Disk.{Each, LeavesOnly};
ghost use Rattle.sealed_core.specs.Host.{EventView};
ghost use Rattle.host_journal.specs.States.{HasState, IsEither, IsFile, Passes, State, ready_with};
ghost use Rattle.host_journal.specs.declared.serving.Serving.{Serving};

use split_base::Disk;

/// On an honest disk each image is a file of the state that a serving is in.
pub fn files_law<D: Disk>()
    ensures { (serving : Serving) (disk : D) (s : State) → HasState D.Disk serving disk s
        → D.is_honest disk → Each (D.images disk) (IsFile s) }
{}

/// A disk that isn't called passes from a state to the same. If one state becomes another and this a third, as by the opening of a file and
/// then an append, a crash at any moment leaves a file of one of the three. If each file of the second is one of the first, the disk passes
/// from the first to the third. So it is if a host that waits opens its file: each file of its events is one of the state before.
pub fn passing_law<D: Disk>()
    ensures still { (serving : Serving) (disk : D) (s : State) → HasState D.Disk serving disk s
        → Passes D.Disk disk s disk s }
    ensures between { (disk between after : D) (s settled new : State)
        → Passes D.Disk disk s between settled → Passes D.Disk between settled after new
        → D.is_honest disk
        → LeavesOnly D.moment D.left_since disk after (λ file.
        IsEither s settled file ⊎ IsFile new file) }
    ensures joined { (disk between after : D) (s settled new : State)
        → Passes D.Disk disk s between settled → Passes D.Disk between settled after new
        → (D.is_honest disk → (file : List ℕ) → IsFile settled file → IsFile s file)
        → Passes D.Disk disk s after new }
    ensures opened { (s : State) (event : EventView) (secret : List ℕ) (kept : List EventView)
        → s.waiting ≡ Some event → secret ≡ s.secret
        → (kept ≡ s.kept) ⊎ (kept ≡ s.kept ++ event ∷ []) → (file : List ℕ)
        → IsFile (ready_with secret kept) file → IsFile s file }
{}
