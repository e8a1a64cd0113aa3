// Laws about the text of an estate, and about its lines of weights and prices.
ghost use Rattle.std.specs.Prelude.{◌≡◌, ◌≤◌, ℕ, List, [], ◌∷◌, ◌++◌, All, length, map};
ghost use Rattle.estate_texts.specs.Given.{CanGive, GivenLine, given_content};
ghost use Rattle.estate_texts.specs.Lines.{lines_text};
ghost use Rattle.estate_texts.specs.Steps.{BeginsWithAllGiven, BeginsWithGiven};
ghost use Rattle.estate_texts.specs.Texts.{EstateView, IsEstateText};

use cert_reader::numbers_law;

/// Lines of weights and prices have one meaning: where bytes are such lines, the first lines that are read are theirs, and the others follow. They are read one
/// by one.
pub fn given_law()
    ensures front { (players : ℕ) (bytes rest : List ℕ) (given others : List GivenLine)
        → BeginsWithAllGiven players bytes given rest → All (CanGive players) others
        → bytes ≡ lines_text (map given_content others) → (more : List GivenLine) × (others ≡ given ++ more)
        × (rest ≡ lines_text (map given_content more)) }
    ensures more { (players : ℕ) (bytes rest after : List ℕ) (given : List GivenLine)
        (line : GivenLine) → BeginsWithAllGiven players bytes given rest
        → BeginsWithGiven players rest line after
        → BeginsWithAllGiven players bytes (given ++ line ∷ []) after }
    ensures one { (players : ℕ) (bytes rest : List ℕ) (given : GivenLine)
        (others : List GivenLine) → BeginsWithGiven players bytes given rest
        → All (CanGive players) others → bytes ≡ lines_text (map given_content others)
        → 1 ≤ length others }
{
    numbers_law();
}

/// Bytes are the text of at most one estate.
pub fn estate_text_law()
    ensures { (bytes : List ℕ) (view other : EstateView) → IsEstateText bytes view
        → IsEstateText bytes other → view ≡ other }
{
    numbers_law();
}
