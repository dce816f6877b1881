ghost use Rattle.std.specs.Prelude.{◌≡◌, ◌≢◌, IfSome, IfNone};
ghost use Rattle.std.specs.List.{All};
ghost use Rattle.osl_value.specs.OpText.{name_of};
ghost use Rattle.osl_value.specs.Table.{is_control, updates};

/// An operation of the code. Its name in text is the one in lower case that `name` gives.
#[derive(Clone, Copy, Debug, PartialEq, Eq)]
pub enum OpName {
    // Copies and conversions.
    Assign,
    Empty,
    ToInt,

    // Arithmetic of numbers, matrices and closures.
    Add,
    Sub,
    Mul,
    Div,
    IRem,
    Neg,

    // Bits and truth of ints.
    Compl,
    BitAnd,
    BitOr,
    Xor,
    Shl,
    Shr,
    Not,

    // Comparisons.
    Eq,
    Neq,
    Lt,
    Gt,
    Le,
    Ge,

    // Elements of arrays, components of triples and matrices.
    ARef,
    AAssign,
    ArrayLength,
    CompRef,
    CompAssign,
    MxCompRef,
    MxCompAssign,
    Triple,
    Matrix,

    // Componentwise functions.
    Abs,
    Sign,
    Floor,
    Ceil,
    Round,
    Trunc,
    Sqrt,
    InverseSqrt,
    Min,
    Max,
    Fmod,
    Mod,
    Step,
    Clamp,
    Mix,
    SmoothStep,

    // Geometry.
    Dot,
    Cross,
    Length,
    Distance,
    Normalize,
    Transpose,
    Transform,

    // Strings.
    Concat,
    StrLen,
    StartsWith,
    EndsWith,
    SubStr,
    GetChar,

    // Closure primitives.
    ClEmission,
    ClBackground,
    ClHoldout,
    ClTransparent,
    ClDiffuse,
    ClTranslucent,
    ClOrenNayar,
    ClReflection,
    ClRefraction,
    ClDebug,

    // Control.
    If,
    For,
    While,
    DoWhile,
    FunctionCall,
    Break,
    Continue,
    Return,
    Exit,
}

impl OpName {
    /// All operations.
    pub const ALL: [OpName; 79] = [
        OpName::Assign,
        OpName::Empty,
        OpName::ToInt,
        OpName::Add,
        OpName::Sub,
        OpName::Mul,
        OpName::Div,
        OpName::IRem,
        OpName::Neg,
        OpName::Compl,
        OpName::BitAnd,
        OpName::BitOr,
        OpName::Xor,
        OpName::Shl,
        OpName::Shr,
        OpName::Not,
        OpName::Eq,
        OpName::Neq,
        OpName::Lt,
        OpName::Gt,
        OpName::Le,
        OpName::Ge,
        OpName::ARef,
        OpName::AAssign,
        OpName::ArrayLength,
        OpName::CompRef,
        OpName::CompAssign,
        OpName::MxCompRef,
        OpName::MxCompAssign,
        OpName::Triple,
        OpName::Matrix,
        OpName::Abs,
        OpName::Sign,
        OpName::Floor,
        OpName::Ceil,
        OpName::Round,
        OpName::Trunc,
        OpName::Sqrt,
        OpName::InverseSqrt,
        OpName::Min,
        OpName::Max,
        OpName::Fmod,
        OpName::Mod,
        OpName::Step,
        OpName::Clamp,
        OpName::Mix,
        OpName::SmoothStep,
        OpName::Dot,
        OpName::Cross,
        OpName::Length,
        OpName::Distance,
        OpName::Normalize,
        OpName::Transpose,
        OpName::Transform,
        OpName::Concat,
        OpName::StrLen,
        OpName::StartsWith,
        OpName::EndsWith,
        OpName::SubStr,
        OpName::GetChar,
        OpName::ClEmission,
        OpName::ClBackground,
        OpName::ClHoldout,
        OpName::ClTransparent,
        OpName::ClDiffuse,
        OpName::ClTranslucent,
        OpName::ClOrenNayar,
        OpName::ClReflection,
        OpName::ClRefraction,
        OpName::ClDebug,
        OpName::If,
        OpName::For,
        OpName::While,
        OpName::DoWhile,
        OpName::FunctionCall,
        OpName::Break,
        OpName::Continue,
        OpName::Return,
        OpName::Exit,
    ];

    /// The name in the text of code.
    pub fn name(self) -> &'static str
        ensures { result.now ≡ name_of self }
    {
        match self {
            OpName::Assign => "assign",
            OpName::Empty => "empty",
            OpName::ToInt => "toint",
            OpName::Add => "add",
            OpName::Sub => "sub",
            OpName::Mul => "mul",
            OpName::Div => "div",
            OpName::IRem => "irem",
            OpName::Neg => "neg",
            OpName::Compl => "compl",
            OpName::BitAnd => "bitand",
            OpName::BitOr => "bitor",
            OpName::Xor => "xor",
            OpName::Shl => "shl",
            OpName::Shr => "shr",
            OpName::Not => "not",
            OpName::Eq => "eq",
            OpName::Neq => "neq",
            OpName::Lt => "lt",
            OpName::Gt => "gt",
            OpName::Le => "le",
            OpName::Ge => "ge",
            OpName::ARef => "aref",
            OpName::AAssign => "aassign",
            OpName::ArrayLength => "arraylength",
            OpName::CompRef => "compref",
            OpName::CompAssign => "compassign",
            OpName::MxCompRef => "mxcompref",
            OpName::MxCompAssign => "mxcompassign",
            OpName::Triple => "triple",
            OpName::Matrix => "matrix",
            OpName::Abs => "abs",
            OpName::Sign => "sign",
            OpName::Floor => "floor",
            OpName::Ceil => "ceil",
            OpName::Round => "round",
            OpName::Trunc => "trunc",
            OpName::Sqrt => "sqrt",
            OpName::InverseSqrt => "inversesqrt",
            OpName::Min => "min",
            OpName::Max => "max",
            OpName::Fmod => "fmod",
            OpName::Mod => "mod",
            OpName::Step => "step",
            OpName::Clamp => "clamp",
            OpName::Mix => "mix",
            OpName::SmoothStep => "smoothstep",
            OpName::Dot => "dot",
            OpName::Cross => "cross",
            OpName::Length => "length",
            OpName::Distance => "distance",
            OpName::Normalize => "normalize",
            OpName::Transpose => "transpose",
            OpName::Transform => "transform",
            OpName::Concat => "concat",
            OpName::StrLen => "strlen",
            OpName::StartsWith => "startswith",
            OpName::EndsWith => "endswith",
            OpName::SubStr => "substr",
            OpName::GetChar => "getchar",
            OpName::ClEmission => "cl_emission",
            OpName::ClBackground => "cl_background",
            OpName::ClHoldout => "cl_holdout",
            OpName::ClTransparent => "cl_transparent",
            OpName::ClDiffuse => "cl_diffuse",
            OpName::ClTranslucent => "cl_translucent",
            OpName::ClOrenNayar => "cl_oren_nayar",
            OpName::ClReflection => "cl_reflection",
            OpName::ClRefraction => "cl_refraction",
            OpName::ClDebug => "cl_debug",
            OpName::If => "if",
            OpName::For => "for",
            OpName::While => "while",
            OpName::DoWhile => "dowhile",
            OpName::FunctionCall => "functioncall",
            OpName::Break => "break",
            OpName::Continue => "continue",
            OpName::Return => "return",
            OpName::Exit => "exit",
        }
    }

    /// Whether it steers the run and has no value of its own.
    pub fn is_control(self) -> bool
        ensures { result ≡ is_control self }
    {
        matches!(
            self,
            OpName::If
                | OpName::For
                | OpName::While
                | OpName::DoWhile
                | OpName::FunctionCall
                | OpName::Break
                | OpName::Continue
                | OpName::Return
                | OpName::Exit
        )
    }

    /// Whether it reads its first argument before it writes it.
    pub fn updates(self) -> bool
        ensures { result ≡ updates self }
    {
        matches!(
            self,
            OpName::AAssign | OpName::CompAssign | OpName::MxCompAssign
        )
    }

    /// The operation of this name, or `None` where none has it.
    pub fn from_name(name: &[u8]) -> Option<OpName>
        ensures found { IfSome result (λ op. name_of op ≡ name.now) }
        ensures none { IfNone result ((op : _) → name_of op ≢ name.now) }
    {
        find_named(&OpName::ALL, name)
    }
}

/// The first of these operations that has this name.
fn find_named(ops: &[OpName], name: &[u8]) -> Option<OpName>
    ensures found { IfSome result (λ op. name_of op ≡ name.now) }
    ensures none { IfNone result (All (λ op. name_of op ≢ name.now) ops.now) }
{
    for op in ops {
        if op.name().as_bytes() == name {
            return Some(*op);
        }
    }
    None
}
