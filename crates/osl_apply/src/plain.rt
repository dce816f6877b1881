// What is read of values.

ghost use Rattle.std.specs.Prelude.{◌≡◌, ◌≢◌, ◌+◌, ◌≤◌, IsTrue, false, length, MatchOption, [], ◌∷◌};
ghost use Rattle.osl_value.specs.AnyValue.{Of, with_numbers, with_text, items_at, is_one_triple};
ghost use Rattle.osl_value.specs.Laws.{int_value};
ghost use Rattle.osl_value.specs.Types.{is_only, only};

use osl_closure::Node;
use osl_value::{Base, Fx, Text, Ty, Value};

/// The int that a value is, if it is one.
pub fn int_of(value: &Value) -> Option<i32>
    ensures { MatchOption result (is_only Base.Int value.now.ty ≡ false) (λ n. Of value.now ≡ int_value n) }
{
    if value.ty() == Ty::only(Base::Int) {
        return Some(value.int_at(0));
    }
    None
}

/// The float that a value is.
pub fn float_of(value: &Value) -> Fx
    requires { IsTrue (is_only Base.Float value.now.ty) }
    ensures { Of value.now ≡ with_numbers (only Base.Float) (result ∷ []) }
{
    let _ty = value.ty();
    value.float_at(0)
}

/// The string that a value is.
pub fn text_of(value: &Value) -> &Text
    requires { IsTrue (is_only Base.Str value.now.ty) }
    ensures { Of value.now ≡ with_text (only Base.Str) result.now }
{
    let _ty = value.ty();
    &value.texts()[0]
}

/// The floats of a value that is a triple.
pub fn triple_of(value: &Value) -> [Fx; 3]
    requires { IsTrue (is_one_triple value.now.ty) }
    ensures { Of value.now ≡ with_numbers value.now.ty result }
{
    let _ty = value.ty();
    triple_at(value, 0)
}

/// The floats of a value that is a matrix.
pub fn matrix_of(value: &Value) -> [Fx; 16]
    requires { IsTrue (is_only Base.Matrix value.now.ty) }
    ensures { Of value.now ≡ with_numbers (only Base.Matrix) result }
{
    let _ty = value.ty();
    matrix_at(value, 0)
}

/// Three floats of a value, from a place on.
pub fn triple_at(value: &Value, from: usize) -> [Fx; 3]
    requires floats { value.now.ty.base ≢ Base.Int }
    requires within { from + 3 ≤ length value.now.nums }
    ensures { result ≡ items_at 3 from value.now.nums }
{
    let _nums = value.nums();
    [
        value.float_at(from),
        value.float_at(from + 1),
        value.float_at(from + 2),
    ]
}

/// Sixteen floats of a value, from a place on.
pub fn matrix_at(value: &Value, from: usize) -> [Fx; 16]
    requires floats { value.now.ty.base ≢ Base.Int }
    requires within { from + 16 ≤ length value.now.nums }
    ensures { result ≡ items_at 16 from value.now.nums }
{
    let _nums = value.nums();
    let mut matrix = [Fx::ZERO; 16];
    for k in 0..16usize {
        matrix[k] = value.float_at(from + k);
    }
    matrix
}

/// A value is no closure.
pub fn no_closure<'a>(value: &Value) -> Node<'a>
    requires { IsTrue (is_only Base.Closure value.now.ty) }
    ensures { ⊥ }
{
    let _ty = value.ty();
    unreachable!()
}
