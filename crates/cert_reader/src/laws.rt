// Laws about the text of certificates and of adjusted winner, above all that it has one meaning, and that other bytes have one first broken line.
// Each is the contract of a function that does nothing.
ghost use Rattle.std.specs.Prelude.{◌≡◌, ◌≤◌, ℕ, All, Bool, List, ◌+◌, ◌++◌, length};
ghost use Rattle.bid_rules.specs.Fractions.{Fraction};
ghost use Rattle.split_frac.specs.Texts.{numbers_text};
ghost use Rattle.cert_reader.specs.declared.certificate.Certificate.{Certificate};
ghost use Rattle.cert_reader.specs.declared.forms.Counts.{Counts};
ghost use Rattle.cert_reader.specs.declared.forms.Word.{Word};
ghost use Rattle.cert_reader.specs.declared.limits.TheConstants.{MOST_BESIDE_MARKS};
ghost use Rattle.cert_reader.specs.Forms.{Pairs, forms_of};
ghost use Rattle.cert_reader.specs.Layout.{PairView};
ghost use Rattle.cert_reader.specs.Numbers.{IsNumber};
ghost use Rattle.cert_reader.specs.Pairs.{IsPairText};
ghost use Rattle.cert_reader.specs.Reading.{IsRead, Reading};
ghost use Rattle.cert_reader.specs.Shapes.{HasRows};
ghost use Rattle.cert_reader.specs.Stream.{IsPlain};
ghost use Rattle.cert_reader.specs.Text.{CanSayAll, IsBrokenText, IsBrokenTextOf, IsText, Said};
ghost use Rattle.cert_reader.specs.Views.{CertificateView, counts_of, marks_of, said_of, view_of};
ghost use Rattle.cert_reader.specs.Words.{word_text};

/// A text has one meaning: its counts and what its lines say are unique, and two certificates with this text are the same, and so are two views that have all
/// rows. No text has a broken line. Other bytes have exactly one first broken line. What has been read of a text so far can be completed to a whole text.
/// Without the marks of a tree a text is short.
pub fn text_law()
    ensures once { (bytes : List ℕ) (counts other : Counts) (said more : List Said)
        → IsText bytes counts said → IsText bytes other more → (other ≡ counts) × (more ≡ said) }
    ensures fields { (bytes : List ℕ) (certificate other : Certificate)
        → IsText bytes (counts_of (view_of certificate)) (said_of (view_of certificate))
        → IsText bytes (counts_of (view_of other)) (said_of (view_of other))
        → view_of other ≡ view_of certificate }
    ensures views { (bytes : List ℕ) (view other : CertificateView) → HasRows view → HasRows other
        → IsText bytes (counts_of view) (said_of view)
        → IsText bytes (counts_of other) (said_of other) → other ≡ view }
    ensures whole { (bytes : List ℕ) (counts : Counts) (said : List Said) (line : ℕ)
        → IsText bytes counts said → IsBrokenText bytes line → ⊥ }
    ensures broken { (bytes : List ℕ) (line other : ℕ) → IsBrokenText bytes line
        → IsBrokenText bytes other → other ≡ line }
    ensures short { (bytes : List ℕ) (view : CertificateView)
        → IsText bytes (counts_of view) (said_of view)
        → length bytes ≤ MOST_BESIDE_MARKS + length (marks_of view) }
    ensures completed { (reading : Reading) (taken : List ℕ) (said : List Said)
        → IsRead reading taken said
        → (rest : List Said) × CanSayAll (forms_of reading.counts) (said ++ rest) }
{}

/// The text of a pair has one meaning: two views with this text are the same. No such text has a broken line. Other bytes have exactly one first broken line.
/// The text is short, and it isn't certificate text.
pub fn pair_law()
    ensures once { (bytes : List ℕ) (view other : PairView) → IsPairText bytes view
        → IsPairText bytes other → other ≡ view }
    ensures whole { (bytes : List ℕ) (view : PairView) (line : ℕ) → IsPairText bytes view
        → IsBrokenTextOf Pairs bytes line → ⊥ }
    ensures broken { (bytes : List ℕ) (line other : ℕ) → IsBrokenTextOf Pairs bytes line
        → IsBrokenTextOf Pairs bytes other → other ≡ line }
    ensures short { (bytes : List ℕ) (view : PairView) → IsPairText bytes view
        → length bytes ≤ MOST_BESIDE_MARKS }
    ensures apart { (bytes : List ℕ) (view : PairView) (counts : Counts) (said : List Said)
        → IsPairText bytes view → IsText bytes counts said → ⊥ }
{}

/// A line of a word and numbers has no LF before its end, and the numbers of a line are unique.
pub fn numbers_law()
    ensures plain { (word : Word) (whole : Bool) (numbers : List Fraction)
        → All (IsNumber whole) numbers → IsPlain (word_text word ++ numbers_text numbers) }
    ensures once { (whole : Bool) (numbers others : List Fraction) → All (IsNumber whole) numbers
        → All (IsNumber whole) others → numbers_text numbers ≡ numbers_text others
        → numbers ≡ others }
{}
