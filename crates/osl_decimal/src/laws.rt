//! What ties the texts of numbers to their numbers. The functions do nothing: their contracts are
//! the laws.
ghost use Rattle.std.specs.Prelude.{◌≡◌, ℕ, List, ℤ, FitsSigned, Some};
ghost use Rattle.std.specs.Int.{w32};
ghost use Rattle.osl_value.specs.Numbers.{IsInRange};
ghost use Rattle.osl_decimal.specs.Decimal.{fx_of, int_of};
ghost use Rattle.osl_decimal.specs.Canonical.{fx_text, int_text, IsCanonicalFx, IsCanonicalInt};

/// What is written of a number is read as the same number.
pub fn reading_undoes_writing()
    ensures fx { (x : ℤ) → IsInRange x → fx_of (fx_text x) ≡ Some x }
    ensures int { (n : ℤ) → FitsSigned w32 n → int_of (int_text n) ≡ Some n }
{}

/// Of the texts that are read as a number, the one that is written keeps the rules of the canonical
/// text, and no other does.
pub fn canonical_text_is_unique()
    ensures written_fx { (x : ℤ) → IsInRange x → IsCanonicalFx (fx_text x) }
    ensures only_fx { (text : List ℕ) (x : ℤ) → IsCanonicalFx text → fx_of text ≡ Some x
        → text ≡ fx_text x }
    ensures written_int { (n : ℤ) → FitsSigned w32 n → IsCanonicalInt (int_text n) }
    ensures only_int { (text : List ℕ) (n : ℤ) → IsCanonicalInt text → int_of text ≡ Some n
        → text ≡ int_text n }
{}
