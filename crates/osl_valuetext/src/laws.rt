//! What ties words to what they spell. The functions do nothing: their contracts are the laws.

ghost use Rattle.std.specs.Prelude.{◌≡◌, ◌≢◌, ◌≤◌, ◌↔◌, ℕ, ℤ, List, Some, true};
ghost use Rattle.std.specs.List.{All, list_all};
ghost use Rattle.osl_value.specs.declared.types.Base.{Base};
ghost use Rattle.osl_value.specs.declared.types.Base.TheVariants.{Closure};
ghost use Rattle.osl_value.specs.declared.types.Ty.{Ty};
ghost use Rattle.osl_value.specs.Plain.{Plain, IsNumberOf, IsPlain};
ghost use Rattle.osl_value.specs.Types.{longest_array};
ghost use Rattle.osl_valuetext.specs.declared.number.Spelling.{Spelling};
ghost use Rattle.osl_valuetext.specs.Words.{Line, type_text, string_text, number_text, value_words};
ghost use Rattle.osl_valuetext.specs.Literals.{string_at, text_at, number_at, value_at};
ghost use Rattle.osl_valuetext.specs.Types.{type_at};
ghost use Rattle.osl_valuetext.specs.Identifiers.{Pair, pair_at, PairWord};
ghost use Rattle.osl_valuetext.specs.Spells.{IsByte, StringWord, TextWord, are_bytes, is_text, TypeWord, Literal, ValueWords};

use crate::number::Spelling;
use osl_value::{Text, Value};

/// What a word, or words, mean is just what they spell. So a string and a type have one word each, and a number in its
/// canonical spelling, and a value has as many words as its type wants.
pub fn meaning_is_spelling()
    ensures strings { (word bytes : List ℕ) → (string_at word ≡ Some bytes) ↔ StringWord word bytes }
    ensures texts { (word text : List ℕ) → (text_at word ≡ Some text) ↔ TextWord word text }
    ensures types { (word : List ℕ) (ty : Ty) → (type_at word ≡ Some ty) ↔ TypeWord word ty }
    ensures numbers { (spelling : Spelling) (base : Base) (word : List ℕ) (n : ℤ)
        → (number_at spelling base word ≡ Some n) ↔ Literal spelling base word n }
    ensures values { (spelling : Spelling) (ty : Ty) (words : Line) (v : Plain)
        → (value_at spelling ty words ≡ Some v) ↔ ((v.ty ≡ ty) × ValueWords spelling words v) }
    ensures pairs { (word : List ℕ) (pair : Pair) → (pair_at word ≡ Some pair) ↔ PairWord word pair }
{}

/// What is written is read as the same, in each spelling.
pub fn reading_undoes_writing()
    ensures strings { (bytes : List ℕ) → All IsByte bytes → string_at (string_text bytes) ≡ Some bytes }
    ensures types { (ty : Ty) → ty.base ≢ Closure → ty.len ≤ longest_array → type_at (type_text ty) ≡ Some ty }
    ensures numbers { (spelling : Spelling) (base : Base) (n : ℤ) → IsNumberOf base n
        → number_at spelling base (number_text base n) ≡ Some n }
    ensures values { (spelling : Spelling) (v : Plain) → IsPlain v.ty v.nums v.texts → list_all is_text v.texts ≡ true
        → value_at spelling v.ty (value_words v.ty.base v.nums v.texts) ≡ Some v }
{}

/// They are bytes.
pub fn are_bytes(bytes: &[u8])
    ensures { are_bytes bytes.now ≡ true }
{
    let _len = bytes.len();
}

/// A string of the language is bytes, at most 512.
fn is_text(text: &Text)
    ensures { is_text text.now ≡ true }
{
    are_bytes(text.bytes());
}

/// So are strings of the language.
pub fn are_texts(texts: &[Text])
    ensures { list_all is_text texts.now ≡ true }
{
    for text in texts {
        is_text(text);
    }
}

/// What is written of a value is read as the same value.
pub fn value_is_read(spelling: Spelling, value: &Value)
    ensures { value_at spelling value.now.ty (value_words value.now.ty.base value.now.nums value.now.texts)
        ≡ Some value.now }
{
    let _ty = value.ty();
    let _spelling = spelling;
    are_texts(value.texts());
}
