//! Tests of types.

ghost use Rattle.std.specs.Prelude.{◌≡◌};
ghost use Rattle.osl_value.specs.AnyValue as spec;
ghost use Rattle.osl_value.specs.Types.{is_only};

use osl_value::{Base, Ty};

/// Whether it is this base type and no array.
pub fn is_only(base: Base, ty: Ty) -> bool
    ensures { result ≡ is_only base ty }
{
    ty == Ty::only(base)
}

/// Whether it is an array. No closure is one.
pub fn is_array(ty: Ty) -> bool
    ensures { result ≡ spec.is_array ty }
{
    ty.len != 0 && ty.base != Base::Closure
}

/// The type of an array's elements.
pub fn element_type(ty: Ty) -> Ty
    ensures { result ≡ spec.element_type ty }
{
    Ty::only(ty.base)
}
