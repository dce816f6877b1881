//! What holds of the number of a text. The function does nothing: its contract is the law.
ghost use Rattle.std.specs.Prelude.{◌≡◌, ℕ, List, ◌++◌};
ghost use Rattle.osl_demo.specs.Fold.{fold_from};

/// A text may be given in pieces: the number goes on at the second where the first ended.
pub fn pieces_follow_on()
    ensures { (h : ℕ) (first second : List ℕ)
        → fold_from h (first ++ second) ≡ fold_from (fold_from h first) second }
{}
