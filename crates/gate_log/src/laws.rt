// Laws about what a journal's file means, which hold for every file.
ghost use Rattle.std.specs.Prelude.{◌≡◌, ◌⊎◌, ◌<◌, ◌^◌, [], ℕ, List, All, length};
ghost use Rattle.gate_log.specs.Records.{Stands, Begins, BeginWith, place_after};
ghost use Rattle.gate_log.specs.Faults.{GoesOn, HasMeaning, IsFault, IsFaultAfter, IsHeaderFault};

/// A file has exactly one meaning: it is a journal with one version, one secret and one list of
/// bodies, or it isn't a journal and has its first fault at one place.
pub fn journal_law()
    ensures one_meaning { (v w : ℕ) (secret word : List ℕ) (bodies others : List (List ℕ))
        (file : List ℕ) → Stands v secret bodies file → Stands w word others file
        → (v ≡ w) × (secret ≡ word) × (bodies ≡ others) }
    ensures no_fault { (v place : ℕ) (secret : List ℕ) (bodies : List (List ℕ)) (file : List ℕ)
        → Stands v secret bodies file → IsFault place file → ⊥ }
    ensures one_fault { (p q : ℕ) (file : List ℕ) → IsFault p file → IsFault q file → p ≡ q }
    ensures meaning { (file : List ℕ) → All (λ b. b < 2 ^ 8) file → HasMeaning file }
{}

/// What a file begins with fits together: a journal, and likewise a file with a fault after its
/// records, begins with its own records and with no others, and a file that begins with records
/// has a whole header. A file begins with a header or has a fault there; and after the records
/// that it begins with, it ends as a journal, has a fault, or goes on with one more record.
pub fn beginning_law()
    ensures stands { (v : ℕ) (secret : List ℕ) (bodies : List (List ℕ)) (file : List ℕ)
        → Stands v secret bodies file → Begins v secret bodies file }
    ensures fault { (v place : ℕ) (secret : List ℕ) (bodies : List (List ℕ)) (file : List ℕ)
        → IsFaultAfter v secret bodies place file → Begins v secret bodies file }
    ensures one { (v w : ℕ) (secret word : List ℕ) (bodies others : List (List ℕ)) (file : List ℕ)
        → Begins v secret bodies file → Begins w word others file
        → (v ≡ w) × (secret ≡ word) × (BeginWith bodies others ⊎ BeginWith others bodies) }
    ensures stands_last { (v w : ℕ) (secret word : List ℕ) (bodies others : List (List ℕ))
        (file : List ℕ) → Stands v secret bodies file → Begins w word others file
        → BeginWith bodies others }
    ensures fault_last { (v w place : ℕ) (secret word : List ℕ) (bodies others : List (List ℕ))
        (file : List ℕ) → IsFaultAfter v secret bodies place file → Begins w word others file
        → BeginWith bodies others }
    ensures header_or_fault { (file : List ℕ)
        → ((place : ℕ) × IsHeaderFault place file)
        ⊎ ((v : ℕ) × (secret : List ℕ) × Begins v secret [] file) }
    ensures goes_on { (v : ℕ) (secret : List ℕ) (bodies : List (List ℕ)) (file : List ℕ)
        → All (λ b. b < 2 ^ 8) file → Begins v secret bodies file → GoesOn v secret bodies file }
    ensures within { (v : ℕ) (secret : List ℕ) (bodies : List (List ℕ)) (file : List ℕ)
        → Begins v secret bodies file → place_after bodies < length file }
    ensures header { (v place : ℕ) (secret : List ℕ) (bodies : List (List ℕ)) (file : List ℕ)
        → Begins v secret bodies file → IsHeaderFault place file → ⊥ }
{}
