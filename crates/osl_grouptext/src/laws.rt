//! What ties writing and reading together. The functions do nothing: their contracts are the laws.

ghost use Rattle.std.specs.Prelude.{◌≡◌, ℕ, List, [], ◌∷◌, ◌++◌, codes, Some};
ghost use Rattle.std.specs.List.{AllByRecursion};
ghost use Rattle.osl_valuetext.specs.Words.{Line};
ghost use Rattle.osl_lines.specs.Lines.{line_text};
ghost use Rattle.osl_network.specs.declared.statement.Statement.{Statement};
ghost use Rattle.osl_grouptext.specs.Fits.{Fits};
ghost use Rattle.osl_grouptext.specs.Pieces.{words};
ghost use Rattle.osl_grouptext.specs.Statements.{statement_words, statement_at};
ghost use Rattle.osl_grouptext.specs.Whole.{IsWhole};

/// The words that are written of a statement are read as that statement.
pub fn words_are_read()
    ensures { (statement : Statement) → Fits statement → statement_at (statement_words statement) ≡ Some statement }
{}

/// Words that are each one piece, written in a line with `;` after them, are found again, and then those of the text after
/// the line.
pub fn words_are_found()
    ensures { (word : List ℕ) (line : Line) (rest : List ℕ) → IsWhole word → AllByRecursion IsWhole line
        → words (line_text (word ∷ line ++ codes ";" ∷ []) ++ rest) ≡ (word ∷ line ++ codes ";" ∷ []) ++ words rest }
{}
