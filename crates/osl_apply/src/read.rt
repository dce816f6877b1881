// What is read of slots.

use crate::plain::{float_of, int_of, matrix_of, no_closure, text_of, triple_of};
use crate::slot::{Kind, Slot};
use osl_closure::Node;
use osl_value::{Base, Fx, Text};

/// The floats of an operand that is a float or a triple.
#[derive(Clone, Copy)]
pub enum Floats {
    One([Fx; 1]),
    Three([Fx; 3]),
}

impl Floats {
    ghost use Rattle.std.specs.Prelude.{◌≡◌};
    ghost use Rattle.osl_value.specs.Geometry.{repeated};
    ghost use Rattle.osl_apply.specs.Operands.{floats_in};

    pub fn as_slice(&self) -> &[Fx]
        ensures { result.now ≡ floats_in self.now }
    {
        match self {
            Floats::One(floats) => floats,
            Floats::Three(floats) => floats,
        }
    }

    /// A triple's floats, or a float three times.
    pub fn spread(self) -> [Fx; 3]
        ensures { result ≡ repeated 3 (floats_in self) }
    {
        match self {
            Floats::One(floats) => [floats[0]; 3],
            Floats::Three(floats) => floats,
        }
    }
}

impl<'a> Slot<'a> {
    ghost use Rattle.std.specs.Prelude.{◌≡◌, ◌||◌, false, length, IsTrue, MatchOption, [], ◌∷◌};
    ghost use Rattle.osl_value.specs.AnyValue.{Parts, type_of, numbers_of, floats_of, with_numbers, with_text, is_number, is_one_triple, converted};
    ghost use Rattle.osl_value.specs.declared.types.Ty.{Ty};
    ghost use Rattle.osl_value.specs.Geometry.{repeated};
    ghost use Rattle.osl_value.specs.Forms.{AnInt, AFloat, ANumber, Floats as AreFloats, ATriple, AMatrix, AString, AClosure, fits};
    ghost use Rattle.osl_value.specs.Laws.{int_value};
    ghost use Rattle.osl_value.specs.Types.{is_only, only, number_count};
    ghost use Rattle.osl_apply.specs.Slots.{seen};
    ghost use Rattle.osl_apply.specs.Operands.{floats_in};

    /// Its int, if it is one.
    pub fn as_int(&self) -> Option<i32>
        ensures { MatchOption result (fits AnInt (type_of (seen self.now)) ≡ false) (λ n. seen self.now ≡ int_value n) }
    {
        match self {
            Slot::Int(n) => Some(*n),
            Slot::Whole(value) => int_of(value),
            Slot::Lent(value) => int_of(value),
            Slot::Float(_) | Slot::Triple(_, _) | Slot::Str(_) | Slot::Closure(_) => None,
        }
    }

    /// The int that it is.
    pub fn int(&self) -> i32
        requires { IsTrue (fits AnInt (type_of (seen self.now))) }
        ensures { seen self.now ≡ int_value result }
    {
        self.as_int().unwrap()
    }

    /// The float that it is.
    pub fn float(&self) -> Fx
        requires { IsTrue (fits AFloat (type_of (seen self.now))) }
        ensures { seen self.now ≡ with_numbers (only Base.Float) (result ∷ []) }
    {
        match self {
            Slot::Float(x) => *x,
            Slot::Whole(value) => float_of(value),
            Slot::Lent(value) => float_of(value),
            Slot::Int(_) | Slot::Triple(_, _) | Slot::Str(_) | Slot::Closure(_) => unreachable!(),
        }
    }

    /// The float that it is, or that its int is.
    pub fn number(&self) -> Fx
        requires { IsTrue (fits ANumber (type_of (seen self.now))) }
        ensures floats { floats_of (seen self.now) ≡ result ∷ [] }
        ensures value { converted (only Base.Float) (seen self.now) ≡ with_numbers (only Base.Float) (result ∷ []) }
    {
        match self.as_int() {
            Some(n) => Fx::from_int(n),
            None => self.float(),
        }
    }

    /// The three floats of the triple that it is.
    pub fn triple(&self) -> [Fx; 3]
        requires { IsTrue (fits ATriple (type_of (seen self.now))) }
        ensures { seen self.now ≡ with_numbers (type_of (seen self.now)) result }
    {
        match self {
            Slot::Triple(_, floats) => *floats,
            Slot::Whole(value) => triple_of(value),
            Slot::Lent(value) => triple_of(value),
            Slot::Int(_) | Slot::Float(_) | Slot::Str(_) | Slot::Closure(_) => unreachable!(),
        }
    }

    /// The floats of the float or the triple that it is.
    pub fn floats(&self) -> Floats
        requires { IsTrue (fits AreFloats (type_of (seen self.now))) }
        ensures floats { numbers_of (seen self.now) ≡ floats_in result }
        ensures count { length (floats_in result) ≡ number_count (type_of (seen self.now)) }
    {
        if self.ty().base == Base::Float {
            return Floats::One([self.float()]);
        }
        Floats::Three(self.triple())
    }

    /// The floats of the number or of the triple that it is, an int as a float.
    pub fn promoted(&self) -> Floats
        requires { IsTrue (is_number (type_of (seen self.now)) || is_one_triple (type_of (seen self.now))) }
        ensures floats { floats_of (seen self.now) ≡ floats_in result }
        ensures value { (ty : Ty) → IsTrue (is_one_triple ty) → converted ty (seen self.now) ≡ with_numbers ty (repeated 3 (floats_in result)) }
    {
        match self.ty().base {
            Base::Int | Base::Float => Floats::One([self.number()]),
            _ => Floats::Three(self.triple()),
        }
    }

    /// The sixteen floats of the matrix that it is.
    pub fn matrix(&self) -> [Fx; 16]
        requires { IsTrue (fits AMatrix (type_of (seen self.now))) }
        ensures { seen self.now ≡ with_numbers (only Base.Matrix) result }
    {
        match self {
            Slot::Whole(value) => matrix_of(value),
            Slot::Lent(value) => matrix_of(value),
            Slot::Int(_) | Slot::Float(_) | Slot::Triple(_, _) | Slot::Str(_) | Slot::Closure(_) =>
                unreachable!(),
        }
    }

    /// The string that it is.
    pub fn text(&self) -> &Text
        requires { IsTrue (fits AString (type_of (seen self.now))) }
        ensures { seen self.now ≡ with_text (only Base.Str) result.now }
    {
        match self {
            Slot::Str(text) => text,
            Slot::Whole(value) => text_of(value),
            Slot::Lent(value) => text_of(value),
            Slot::Int(_) | Slot::Float(_) | Slot::Triple(_, _) | Slot::Closure(_) => unreachable!(),
        }
    }

    /// The closure that it is.
    pub fn node(&self) -> Node<'a>
        requires { IsTrue (fits AClosure (type_of (seen self.now))) }
        ensures { seen self.now ≡ Parts result }
    {
        match self {
            Slot::Closure(node) => node.share(),
            Slot::Whole(value) => no_closure(value),
            Slot::Lent(value) => no_closure(value),
            Slot::Int(_) | Slot::Float(_) | Slot::Triple(_, _) | Slot::Str(_) => unreachable!(),
        }
    }
}
