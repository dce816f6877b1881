//! Which types an operation with a value takes, and which it writes: the table of operations, as a test.

ghost use Rattle.std.specs.Prelude.{◌≡◌, ◌&&◌, map, length, replicate};
ghost use Rattle.std.specs.Cmp.Lexicographic.{pointwise};
ghost use Rattle.std.specs.List.{list_any};
ghost use Rattle.osl_value.specs.AnyValue.{is_array, is_assignable};
ghost use Rattle.osl_value.specs.Apply.{is_allowed, takes_ints, takes_floats, takes_other, is_float_part};
ghost use Rattle.osl_value.specs.Forms.{ANumber, fits};
ghost use Rattle.osl_value.specs.Numbers.{arity};
ghost use Rattle.oso_code.specs.Allowed.{form_of};
ghost use Rattle.osl_value.specs.Table.{table, Assigned, ElementRead, ElementWritten, LengthRead};
ghost use Rattle.oso_code.specs.Ops.{type_at};

use crate::checks::form::{Form, are, fit, is_number, is_one_triple, is_only, type_at};
use crate::symbol::Symbol;
use osl_value::{Base, OpName, Ty};

/// How many ints an operation takes that takes ints alone and gives one, and 0 where it does not.
fn int_arity(name: OpName) -> usize
    ensures { result ≡ arity (table name).ints }
{
    match name {
        OpName::Neg | OpName::Compl | OpName::Not | OpName::Abs => 1,
        OpName::Add
        | OpName::Sub
        | OpName::Mul
        | OpName::Div
        | OpName::IRem
        | OpName::BitAnd
        | OpName::BitOr
        | OpName::Xor
        | OpName::Shl
        | OpName::Shr
        | OpName::Eq
        | OpName::Neq
        | OpName::Lt
        | OpName::Gt
        | OpName::Le
        | OpName::Ge
        | OpName::Min
        | OpName::Max => 2,
        OpName::Clamp => 3,
        _ => 0,
    }
}

/// How many floats or triples an operation takes component by component, and 0 where it does not.
fn float_arity(name: OpName) -> usize
    ensures { result ≡ arity (table name).floats }
{
    match name {
        OpName::Neg
        | OpName::Abs
        | OpName::Sign
        | OpName::Floor
        | OpName::Ceil
        | OpName::Round
        | OpName::Trunc
        | OpName::Sqrt
        | OpName::InverseSqrt => 1,
        OpName::Add
        | OpName::Sub
        | OpName::Mul
        | OpName::Div
        | OpName::Min
        | OpName::Max
        | OpName::Fmod
        | OpName::Mod
        | OpName::Step => 2,
        OpName::Clamp | OpName::Mix | OpName::SmoothStep => 3,
        _ => 0,
    }
}

/// Ints alone.
fn takes_ints(name: OpName, ty: Ty, symbols: &[Symbol], args: &[u32]) -> bool
    ensures { result ≡ takes_ints (table name) ty (map (type_at symbols.now) args.now) }
{
    let arity = int_arity(name);
    arity != 0 && is_only(Base::Int, ty) && are(Form::Int, arity, symbols, args)
}

/// Floats for a float; floats and triples for a triple.
fn takes_floats(name: OpName, ty: Ty, symbols: &[Symbol], args: &[u32]) -> bool
    ensures { result ≡ takes_floats (table name) ty (map (type_at symbols.now) args.now) }
{
    let arity = float_arity(name);
    if is_only(Base::Float, ty) {
        arity != 0 && are(Form::Float, arity, symbols, args)
    } else {
        arity != 0 && is_one_triple(ty) && are(Form::Floats, arity, symbols, args)
    }
}

/// Whether a value of the type `from` may be assigned to a variable of the type `ty`.
fn is_assignable(ty: Ty, from: Ty) -> bool
    ensures { result ≡ is_assignable ty from }
{
    ty == from
        || is_only(Base::Float, ty) && is_only(Base::Int, from)
        || is_one_triple(ty) && (is_number(from) || is_one_triple(from))
}

/// Whether it is an array of anything but closures.
fn is_array(ty: Ty) -> bool
    ensures { result ≡ is_array ty }
{
    ty.len != 0 && ty.base != Base::Closure
}

fn assigns(ty: Ty, symbols: &[Symbol], args: &[u32]) -> bool
    ensures { result ≡ takes_other ty (map (type_at symbols.now) args.now) Assigned }
{
    match args {
        [from] => is_assignable(ty, type_at(symbols, *from)),
        _ => false,
    }
}

/// An array and an index, and an element is written.
fn reads_element(ty: Ty, symbols: &[Symbol], args: &[u32]) -> bool
    ensures { result ≡ takes_other ty (map (type_at symbols.now) args.now) ElementRead }
{
    match args {
        [array, index] => {
            let array = type_at(symbols, *array);
            is_array(array)
                && is_only(Base::Int, type_at(symbols, *index))
                && ty == Ty::only(array.base)
        }
        _ => false,
    }
}

/// An array, an index and an element, and the array is written.
fn writes_element(ty: Ty, symbols: &[Symbol], args: &[u32]) -> bool
    ensures { result ≡ takes_other ty (map (type_at symbols.now) args.now) ElementWritten }
{
    match args {
        [array, index, element] => {
            let array = type_at(symbols, *array);
            is_array(array)
                && is_only(Base::Int, type_at(symbols, *index))
                && type_at(symbols, *element) == Ty::only(array.base)
                && ty == array
        }
        _ => false,
    }
}

fn reads_length(ty: Ty, symbols: &[Symbol], args: &[u32]) -> bool
    ensures { result ≡ takes_other ty (map (type_at symbols.now) args.now) LengthRead }
{
    match args {
        [array] => is_array(type_at(symbols, *array)) && is_only(Base::Int, ty),
        _ => false,
    }
}

/// Arguments of these forms, and one is written.
fn on(forms: &[Form], written: Form, ty: Ty, symbols: &[Symbol], args: &[u32]) -> bool
    ensures { result ≡ fits (form_of written) ty && pointwise fits (map form_of forms.now) (map (type_at symbols.now) args.now) }
{
    written.fits(ty) && fit(forms, symbols, args)
}

/// So many numbers.
fn made(count: usize, written: Form, ty: Ty, symbols: &[Symbol], args: &[u32]) -> bool
    ensures { result ≡ fits (form_of written) ty && pointwise fits (replicate count ANumber) (map (type_at symbols.now) args.now) }
{
    written.fits(ty) && are(Form::Number, count, symbols, args)
}

/// Other arguments than ints alone or floats component by component.
fn takes_others(name: OpName, ty: Ty, symbols: &[Symbol], args: &[u32]) -> bool
    ensures { result ≡ list_any (takes_other ty (map (type_at symbols.now) args.now)) (table name).others }
{
    match name {
        OpName::Assign => assigns(ty, symbols, args),
        OpName::Empty => on(&[], Form::Closure, ty, symbols, args),
        OpName::ToInt => on(&[Form::Float], Form::Int, ty, symbols, args),
        OpName::Add => on(
            &[Form::Closure, Form::Closure],
            Form::Closure,
            ty,
            symbols,
            args,
        ),
        OpName::Mul => on(
            &[Form::Matrix, Form::Matrix],
            Form::Matrix,
            ty,
            symbols,
            args,
        ) || on(
            &[Form::Factor, Form::Closure],
            Form::Closure,
            ty,
            symbols,
            args,
        ) || on(
            &[Form::Closure, Form::Factor],
            Form::Closure,
            ty,
            symbols,
            args,
        ),
        OpName::Not => on(&[Form::Float], Form::Int, ty, symbols, args),
        OpName::Eq | OpName::Neq => on(&[Form::Floats, Form::Floats], Form::Int, ty, symbols, args)
            || on(&[Form::Matrix, Form::Matrix], Form::Int, ty, symbols, args)
            || on(&[Form::Str, Form::Str], Form::Int, ty, symbols, args),
        OpName::Lt | OpName::Gt | OpName::Le | OpName::Ge => on(
            &[Form::Float, Form::Float],
            Form::Int,
            ty,
            symbols,
            args,
        ),
        OpName::ARef => reads_element(ty, symbols, args),
        OpName::AAssign => writes_element(ty, symbols, args),
        OpName::ArrayLength => reads_length(ty, symbols, args),
        OpName::CompRef => on(&[Form::Triple, Form::Int], Form::Float, ty, symbols, args),
        OpName::CompAssign => on(
            &[Form::Triple, Form::Int, Form::Float],
            Form::Triple,
            ty,
            symbols,
            args,
        ),
        OpName::MxCompRef => on(
            &[Form::Matrix, Form::Int, Form::Int],
            Form::Float,
            ty,
            symbols,
            args,
        ),
        OpName::MxCompAssign => on(
            &[Form::Matrix, Form::Int, Form::Int, Form::Float],
            Form::Matrix,
            ty,
            symbols,
            args,
        ),
        OpName::Triple => made(3, Form::Triple, ty, symbols, args),
        OpName::Matrix => on(&[Form::Number], Form::Matrix, ty, symbols, args)
            || made(16, Form::Matrix, ty, symbols, args),
        OpName::Dot | OpName::Distance => on(
            &[Form::Triple, Form::Triple],
            Form::Float,
            ty,
            symbols,
            args,
        ),
        OpName::Cross => on(
            &[Form::Triple, Form::Triple],
            Form::Triple,
            ty,
            symbols,
            args,
        ),
        OpName::Length => on(&[Form::Triple], Form::Float, ty, symbols, args),
        OpName::Normalize => on(&[Form::Triple], Form::Triple, ty, symbols, args),
        OpName::Transpose => on(&[Form::Matrix], Form::Matrix, ty, symbols, args),
        OpName::Transform => on(
            &[Form::Matrix, Form::Triple],
            Form::Point,
            ty,
            symbols,
            args,
        ) || on(
            &[Form::Matrix, Form::Triple],
            Form::Triple,
            ty,
            symbols,
            args,
        ),
        OpName::Concat => on(&[Form::Str, Form::Str], Form::Str, ty, symbols, args),
        OpName::StrLen => on(&[Form::Str], Form::Int, ty, symbols, args),
        OpName::StartsWith | OpName::EndsWith => on(
            &[Form::Str, Form::Str],
            Form::Int,
            ty,
            symbols,
            args,
        ),
        OpName::SubStr => on(
            &[Form::Str, Form::Int, Form::Int],
            Form::Str,
            ty,
            symbols,
            args,
        ),
        OpName::GetChar => on(&[Form::Str, Form::Int], Form::Int, ty, symbols, args),
        OpName::ClEmission | OpName::ClBackground | OpName::ClHoldout | OpName::ClTransparent => on(
            &[],
            Form::Closure,
            ty,
            symbols,
            args,
        ),
        OpName::ClDiffuse | OpName::ClTranslucent => on(
            &[Form::Normal],
            Form::Closure,
            ty,
            symbols,
            args,
        ),
        OpName::ClOrenNayar | OpName::ClReflection | OpName::ClRefraction => on(
            &[Form::Normal, Form::Number],
            Form::Closure,
            ty,
            symbols,
            args,
        ),
        OpName::ClDebug => on(&[Form::Str], Form::Closure, ty, symbols, args),
        _ => false,
    }
}

/// Whether an operation takes symbols of these types and writes the type `ty`.
#[tactic(auto, unfolding(osl_value::specs::Apply::is_allowed))]
pub fn is_allowed(name: OpName, ty: Ty, symbols: &[Symbol], args: &[u32]) -> bool
    ensures { result ≡ is_allowed name ty (map (type_at symbols.now) args.now) }
{
    takes_ints(name, ty, symbols, args)
        || takes_floats(name, ty, symbols, args)
        || takes_others(name, ty, symbols, args)
}
