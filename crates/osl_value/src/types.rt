ghost use Rattle.std.specs.Prelude.{◌≡◌, ◌<◌, ◌^◌};
ghost use Rattle.osl_value.specs.Types.{base_name, only, is_triple, element_count, number_count, text_count, slot_count};

/// What an element of a type is made of (OSL specification, "Data types").
#[derive(Clone, Copy, Debug, PartialEq, Eq)]
pub enum Base {
    Int,
    Float,
    Color,
    Point,
    Vector,
    Normal,
    Matrix,
    Str,
    Closure,
}

/// A type of the language that is no structure.
#[derive(Clone, Copy, Debug, PartialEq, Eq)]
pub struct Ty {
    pub base: Base,

    /// The array's length, 0 where the type is no array.
    pub len: u32,
}

impl Base {
    /// The type's words in the language; `closure color` are two.
    pub fn name(self) -> &'static str
        ensures { result.now ≡ base_name self }
    {
        match self {
            Base::Int => "int",
            Base::Float => "float",
            Base::Color => "color",
            Base::Point => "point",
            Base::Vector => "vector",
            Base::Normal => "normal",
            Base::Matrix => "matrix",
            Base::Str => "string",
            Base::Closure => "closure color",
        }
    }

    /// Whether it is `color`, `point`, `vector` or `normal`, which are three floats each.
    pub fn is_triple(self) -> bool
        ensures { result ≡ is_triple self }
    {
        matches!(
            self,
            Base::Color | Base::Point | Base::Vector | Base::Normal
        )
    }
}

impl Ty {
    /// The type that is this base type and no array.
    pub fn only(base: Base) -> Ty
        ensures { result ≡ only base }
    {
        Ty { base, len: 0 }
    }

    /// How many elements a value has: the array's length, or 1.
    pub fn element_count(self) -> usize
        ensures { result ≡ element_count self }
    {
        if self.len == 0 { 1 } else { self.len as usize }
    }

    /// How many numbers a value holds.
    pub fn number_count(self) -> usize
        ensures { result ≡ number_count self }
    {
        let in_element = match self.base {
            Base::Int | Base::Float => 1,
            Base::Color | Base::Point | Base::Vector | Base::Normal => 3,
            Base::Matrix => 16,
            Base::Str | Base::Closure => 0,
        };
        self.element_count() * in_element
    }

    /// How many texts a value holds.
    pub fn text_count(self) -> usize
        ensures { result ≡ text_count self }
    {
        match self.base {
            Base::Str => self.element_count(),
            _ => 0,
        }
    }

    /// The slots that a value takes up: 1 for an int, a float or a closure, 3 for a triple, 16 for
    /// a matrix, 32 for a string, and an array's length times as many.
    pub fn slot_count(self) -> u64
        ensures value { result ≡ slot_count self }
        ensures small { result < 2 ^ 40 }
    {
        let in_element = match self.base {
            Base::Int | Base::Float | Base::Closure => 1,
            Base::Color | Base::Point | Base::Vector | Base::Normal => 3,
            Base::Matrix => 16,
            Base::Str => 32,
        };
        self.element_count() as u64 * in_element
    }
}
