// Laws that hold of all fractions. Each is the contract of a function that does nothing.
ghost use Rattle.std.specs.Prelude.{◌≡◌, ◌↔◌, ℕ, ℤ, pos, ◌+ℤ◌, ◌-ℤ◌, ◌*ℤ◌, ◌<ℤ◌, ◌+◌, ◌*◌, ◌/◌, ◌<◌, ◌≤◌, unsigned_abs};
ghost use Rattle.std.specs.Int.{◌∣◌};
ghost use Rattle.std.specs.Ordering.{ordering_reverse};
ghost use Rattle.std.specs.declared.cmp.Ordering.TheVariants.{Less, Equal};
ghost use Rattle.split_frac.specs.Frac.{HasValue, IsSum, IsDifference, IsFloor, frac_cmp, fraction_of};
ghost use Rattle.split_frac.specs.declared.frac.Frac.{Frac};

/// Each value has at most one fraction: two fractions whose cross products agree are equal, and so are two with the same
/// numerator and denominator. It is the least of all ways to write its value: its denominator divides theirs, and its
/// numerator is no greater.
pub fn value_law()
    ensures value { (a b : Frac) → a.num *ℤ pos b.den ≡ b.num *ℤ pos a.den → a ≡ b }
    ensures pair { (a b : Frac) → fraction_of a ≡ fraction_of b → a ≡ b }
    ensures divides { (a : Frac) (num : ℤ) (den : ℕ) → HasValue a num den → a.den ∣ den }
    ensures size { (a : Frac) (num : ℤ) (den : ℕ) → 0 < den → HasValue a num den
        → unsigned_abs a.num ≤ unsigned_abs num }
{}

/// Every quotient has a fraction: for any whole number and any number of parts above 0, there is a fraction whose value
/// is the one divided by the other.
pub fn quotient_law()
    ensures { (num : ℤ) (den : ℕ) → 0 < den → (a : Frac) × HasValue a num den }
{}

/// The order is that of the values, and it is a total order: swapping the arguments reverses it, it says "equal" only for
/// equal fractions, and it is transitive.
pub fn order_law()
    ensures less { (a b : Frac) → frac_cmp a b ≡ Less
        ↔ ((a.num *ℤ pos b.den) <ℤ (b.num *ℤ pos a.den)) }
    ensures equal { (a b : Frac) → frac_cmp a b ≡ Equal ↔ a ≡ b }
    ensures reversed { (a b : Frac) → frac_cmp b a ≡ ordering_reverse (frac_cmp a b) }
    ensures transitive { (a b c : Frac) → frac_cmp a b ≡ Less → frac_cmp b c ≡ Less
        → frac_cmp a c ≡ Less }
{}

/// A common multiple of the denominators of two fractions is a multiple of the denominator of their sum and of their
/// difference, whose numerators are at most what the two numerators over that multiple add up to. Callers of `add` and
/// `sub` use this to show that the result stays in its range.
pub fn sum_law()
    ensures sum { (a b c : Frac) (multiple : ℕ) → a.den ∣ multiple → b.den ∣ multiple → IsSum a b c
        → c.den ∣ multiple }
    ensures difference { (a b c : Frac) (multiple : ℕ) → a.den ∣ multiple → b.den ∣ multiple
        → IsDifference a b c → c.den ∣ multiple }
    ensures sum_size { (a b c : Frac) (multiple : ℕ) → 0 < multiple → a.den ∣ multiple
        → b.den ∣ multiple → IsSum a b c
        → unsigned_abs c.num
        ≤ unsigned_abs a.num * (multiple / a.den) + unsigned_abs b.num * (multiple / b.den) }
    ensures difference_size { (a b c : Frac) (multiple : ℕ) → 0 < multiple → a.den ∣ multiple
        → b.den ∣ multiple → IsDifference a b c
        → unsigned_abs c.num
        ≤ unsigned_abs a.num * (multiple / a.den) + unsigned_abs b.num * (multiple / b.den) }
{}

/// Two fractions that are whole numbers of k-ths have a sum and a difference of this many k-ths.
pub fn parts_law()
    ensures sum { (a b c : Frac) (x y : ℤ) (k : ℕ) → HasValue a x k → HasValue b y k → IsSum a b c
        → HasValue c (x +ℤ y) k }
    ensures difference { (a b c : Frac) (x y : ℤ) (k : ℕ) → HasValue a x k → HasValue b y k
        → IsDifference a b c → HasValue c (x -ℤ y) k }
{}

/// A fraction has at most one floor.
pub fn floor_law()
    ensures { (a : Frac) (x y : ℤ) → IsFloor a x → IsFloor a y → x ≡ y }
{}
