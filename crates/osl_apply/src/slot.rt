ghost use Rattle.std.specs.Prelude.{◌≡◌};
ghost use Rattle.osl_value.specs.Types.{is_only};

use osl_closure::Node;
use osl_value::{Base, Fx, Text, Ty, Value};

/// A kind of triple.
#[derive(Clone, Copy, Debug, PartialEq, Eq)]
pub enum Kind {
    Color,
    Point,
    Vector,
    Normal,
}

/// What a symbol holds.
#[derive(Drop)]
pub enum Slot<'a> {
    Int(i32),
    Float(Fx),
    Triple(Kind, [Fx; 3]),
    Str(Text),

    /// A value of any type: a matrix, or an array.
    Whole(Box<Value>),

    /// A value that is read where it lies, and not copied.
    Lent(&'a Value),
    Closure(Node<'a>),
}

/// Whether a type is `int`.
pub fn is_int(ty: Ty) -> bool
    ensures { result ≡ is_only Base.Int ty }
{
    matches!(ty.base, Base::Int) && ty.len == 0
}

/// Whether a type is `matrix`.
pub fn is_matrix(ty: Ty) -> bool
    ensures { result ≡ is_only Base.Matrix ty }
{
    matches!(ty.base, Base::Matrix) && ty.len == 0
}

/// Whether a type is that of closures.
pub fn is_closure(ty: Ty) -> bool
    ensures { result ≡ is_only Base.Closure ty }
{
    matches!(ty.base, Base::Closure) && ty.len == 0
}

impl Kind {
    ghost use Rattle.std.specs.Prelude.{◌≡◌, false, MatchOption};
    ghost use Rattle.osl_value.specs.Types.{is_triple};
    ghost use Rattle.osl_apply.specs.Slots.{base_of};

    /// The base type of this kind.
    pub fn base(self) -> Base
        ensures { result ≡ base_of self }
    {
        match self {
            Kind::Color => Base::Color,
            Kind::Point => Base::Point,
            Kind::Vector => Base::Vector,
            Kind::Normal => Base::Normal,
        }
    }

    /// The kind of a base type, which is none where it is no triple.
    pub fn of(base: Base) -> Option<Kind>
        ensures { MatchOption result (is_triple base ≡ false) (λ kind. base_of kind ≡ base) }
    {
        match base {
            Base::Color => Some(Kind::Color),
            Base::Point => Some(Kind::Point),
            Base::Vector => Some(Kind::Vector),
            Base::Normal => Some(Kind::Normal),
            Base::Int | Base::Float | Base::Matrix | Base::Str | Base::Closure => None,
        }
    }
}

impl<'a> Slot<'a> {
    ghost use Rattle.std.specs.Prelude.{◌≡◌, ◌≤◌};
    ghost use Rattle.osl_value.specs.AnyValue.{type_of};
    ghost use Rattle.osl_value.specs.Types.{longest_array};
    ghost use Rattle.osl_apply.specs.Slots.{seen};

    /// The type of its value.
    pub fn ty(&self) -> Ty
        ensures value { result ≡ type_of (seen self.now) }
        ensures short { result.len ≤ longest_array }
    {
        match self {
            Slot::Int(_) => Ty::only(Base::Int),
            Slot::Float(_) => Ty::only(Base::Float),
            Slot::Triple(kind, _) => Ty::only(kind.base()),
            Slot::Str(_) => Ty::only(Base::Str),
            Slot::Whole(value) => value.ty(),
            Slot::Lent(value) => value.ty(),
            Slot::Closure(_) => Ty::only(Base::Closure),
        }
    }
}
