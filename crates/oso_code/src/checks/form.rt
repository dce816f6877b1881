//! The forms of an operation's arguments: which types fit.

ghost use Rattle.std.specs.Prelude.{◌≡◌, ◌&&◌, ◌==◌, ℕ, map, length};
ghost use Rattle.std.specs.List.{list_all};
ghost use Rattle.std.specs.Cmp.Lexicographic.{pointwise};
ghost use Rattle.osl_value.specs.AnyValue.{is_number, is_one_triple, is_array};
ghost use Rattle.osl_value.specs.Forms.{fits};
ghost use Rattle.osl_value.specs.Types.{is_only};
ghost use Rattle.oso_code.specs.Ops.{type_at};

use crate::symbol::Symbol;
use osl_value::{Base, Ty};

/// A form of an argument, or of what is written.
#[derive(Clone, Copy, Debug, PartialEq, Eq)]
pub enum Form {
    Int,
    Float,

    /// An int or a float.
    Number,

    /// A float or a triple.
    Floats,
    Triple,
    Point,
    Normal,
    Matrix,
    Str,
    Closure,

    /// What a closure is multiplied by: a number or a color.
    Factor,
}

impl Form {
    ghost use Rattle.oso_code.specs.Allowed.{form_of};

    /// Whether the type has this form.
    pub fn fits(self, ty: Ty) -> bool
        ensures { result ≡ fits (form_of self) ty }
    {
        match self {
            Form::Int => is_only(Base::Int, ty),
            Form::Float => is_only(Base::Float, ty),
            Form::Number => is_number(ty),
            Form::Floats => is_only(Base::Float, ty) || is_one_triple(ty),
            Form::Triple => is_one_triple(ty),
            Form::Point => is_only(Base::Point, ty),
            Form::Normal => is_only(Base::Normal, ty),
            Form::Matrix => is_only(Base::Matrix, ty),
            Form::Str => is_only(Base::Str, ty),
            Form::Closure => is_only(Base::Closure, ty),
            Form::Factor => is_number(ty) || is_only(Base::Color, ty),
        }
    }
}

/// Whether it is the base type alone, and no array.
pub fn is_only(base: Base, ty: Ty) -> bool
    ensures { result ≡ is_only base ty }
{
    ty == Ty::only(base)
}

/// Whether it is an int or a float.
pub fn is_number(ty: Ty) -> bool
    ensures { result ≡ is_number ty }
{
    is_only(Base::Int, ty) || is_only(Base::Float, ty)
}

/// Whether it is a triple, and no array.
pub fn is_one_triple(ty: Ty) -> bool
    ensures { result ≡ is_one_triple ty }
{
    ty.base.is_triple() && ty.len == 0
}

/// The type of a symbol, and an int where there is none.
pub fn type_at(symbols: &[Symbol], number: u32) -> Ty
    ensures { result ≡ type_at symbols.now number }
{
    match symbols.get(number as usize) {
        Some(symbol) => symbol.ty,
        None => Ty::only(Base::Int),
    }
}

ghost use Rattle.oso_code.specs.Allowed.{form_of};

/// Whether the symbols' types have these forms, one by one.
pub fn fit(forms: &[Form], symbols: &[Symbol], args: &[u32]) -> bool
    ensures { result ≡ pointwise fits (map form_of forms.now) (map (type_at symbols.now) args.now) }
{
    match (forms, args) {
        ([], []) => true,
        ([form, forms @ ..], [arg, args @ ..]) => {
            form.fits(type_at(symbols, *arg)) && fit(forms, symbols, args)
        }
        _ => false,
    }
}

/// Whether there are so many, and each has the form.
pub fn are(form: Form, count: usize, symbols: &[Symbol], args: &[u32]) -> bool
    ensures { result ≡ (length args.now == count) && list_all (fits (form_of form)) (map (type_at symbols.now) args.now) }
{
    args.len() == count && all_fit(form, symbols, args)
}

fn all_fit(form: Form, symbols: &[Symbol], args: &[u32]) -> bool
    ensures { result ≡ list_all (λ arg. fits (form_of form) (type_at symbols.now arg)) args.now }
{
    args.iter().all(|arg| form.fits(type_at(symbols, *arg)))
}
