//! What terminals stand for.

ghost use Rattle.std.specs.Prelude.{◌≡◌, ◌≤◌};
ghost use Rattle.osl_tree.specs.Terminals as spec;
ghost use Rattle.osl_tree.specs.Reading.{operator, storing, suffix_of};
ghost use Rattle.osl_tree.specs.StatementReading.{start_of};

use crate::expr::{AssignOp, BaseType, BinaryOp, PrefixOp, Suffix};
use crate::stmt::Start;
use crate::terminal::{Keyword, Terminal};
use crate::token::Punct;
use osl_value::ShaderKind;

impl BinaryOp {
    /// How tightly the operator binds: 2 for the loosest, 11 for the tightest.
    pub fn level(self) -> u8
        ensures value { result ≡ spec.level self }
        ensures small { result ≤ 11 }
    {
        match self {
            BinaryOp::Or => 2,
            BinaryOp::And => 3,
            BinaryOp::BitOr => 4,
            BinaryOp::BitXor => 5,
            BinaryOp::BitAnd => 6,
            BinaryOp::Equal | BinaryOp::NotEqual => 7,
            BinaryOp::Less | BinaryOp::LessEqual | BinaryOp::Greater | BinaryOp::GreaterEqual => 8,
            BinaryOp::ShiftLeft | BinaryOp::ShiftRight => 9,
            BinaryOp::Add | BinaryOp::Subtract => 10,
            BinaryOp::Multiply | BinaryOp::Divide | BinaryOp::Remainder => 11,
        }
    }
}

impl Terminal {
    /// The type that this one word names.
    pub fn base(self) -> Option<BaseType>
        ensures { result ≡ spec.base_of self }
    {
        match self {
            Terminal::Keyword(Keyword::Int) => Some(BaseType::Int),
            Terminal::Keyword(Keyword::Float) => Some(BaseType::Float),
            Terminal::Keyword(Keyword::Color) => Some(BaseType::Color),
            Terminal::Keyword(Keyword::Point) => Some(BaseType::Point),
            Terminal::Keyword(Keyword::Vector) => Some(BaseType::Vector),
            Terminal::Keyword(Keyword::Normal) => Some(BaseType::Normal),
            Terminal::Keyword(Keyword::Matrix) => Some(BaseType::Matrix),
            Terminal::Keyword(Keyword::Str) => Some(BaseType::Str),
            _ => None,
        }
    }

    /// The operator that it is before an operand.
    pub fn prefix(self) -> Option<PrefixOp>
        ensures { result ≡ spec.prefix_of self }
    {
        match self {
            Terminal::Punct(Punct::Minus) => Some(PrefixOp::Minus),
            Terminal::Punct(Punct::Plus) => Some(PrefixOp::Plus),
            Terminal::Punct(Punct::Tilde) => Some(PrefixOp::Complement),
            Terminal::Punct(Punct::Bang) | Terminal::Keyword(Keyword::Not) => Some(PrefixOp::Not),
            Terminal::Punct(Punct::Increment) => Some(PrefixOp::Increment),
            Terminal::Punct(Punct::Decrement) => Some(PrefixOp::Decrement),
            _ => None,
        }
    }

    /// What it begins after an operand.
    pub fn suffix(self) -> Option<Suffix>
        ensures { result ≡ suffix_of self }
    {
        match self {
            Terminal::Punct(Punct::OpenBracket) => Some(Suffix::Index),
            Terminal::Punct(Punct::Dot) => Some(Suffix::Field),
            Terminal::Punct(Punct::Increment) => Some(Suffix::Increment),
            Terminal::Punct(Punct::Decrement) => Some(Suffix::Decrement),
            _ => None,
        }
    }

    fn binary(self) -> Option<BinaryOp>
        ensures { result ≡ spec.binary_of self }
    {
        match self {
            Terminal::Punct(Punct::OrOr) | Terminal::Keyword(Keyword::Or) => Some(BinaryOp::Or),
            Terminal::Punct(Punct::AndAnd) | Terminal::Keyword(Keyword::And) => Some(BinaryOp::And),
            Terminal::Punct(Punct::Or) => Some(BinaryOp::BitOr),
            Terminal::Punct(Punct::Xor) => Some(BinaryOp::BitXor),
            Terminal::Punct(Punct::And) => Some(BinaryOp::BitAnd),
            Terminal::Punct(Punct::Equal) => Some(BinaryOp::Equal),
            Terminal::Punct(Punct::NotEqual) => Some(BinaryOp::NotEqual),
            Terminal::Punct(Punct::Less) => Some(BinaryOp::Less),
            Terminal::Punct(Punct::LessEqual) => Some(BinaryOp::LessEqual),
            Terminal::Punct(Punct::Greater) => Some(BinaryOp::Greater),
            Terminal::Punct(Punct::GreaterEqual) => Some(BinaryOp::GreaterEqual),
            Terminal::Punct(Punct::ShiftLeft) => Some(BinaryOp::ShiftLeft),
            Terminal::Punct(Punct::ShiftRight) => Some(BinaryOp::ShiftRight),
            Terminal::Punct(Punct::Plus) => Some(BinaryOp::Add),
            Terminal::Punct(Punct::Minus) => Some(BinaryOp::Subtract),
            Terminal::Punct(Punct::Star) => Some(BinaryOp::Multiply),
            Terminal::Punct(Punct::Slash) => Some(BinaryOp::Divide),
            Terminal::Punct(Punct::Percent) => Some(BinaryOp::Remainder),
            _ => None,
        }
    }

    /// The operator that it is between two operands, if it binds at least so tightly.
    pub fn operator(self, least: u8) -> Option<BinaryOp>
        ensures { result ≡ operator least self }
    {
        match self.binary() {
            Some(op) => { if least <= op.level() { Some(op) } else { None } }
            None => None,
        }
    }

    fn assign(self) -> Option<AssignOp>
        ensures { result ≡ spec.assign_of self }
    {
        match self {
            Terminal::Punct(Punct::Assign) => Some(AssignOp::Set),
            Terminal::Punct(Punct::PlusAssign) => Some(AssignOp::Add),
            Terminal::Punct(Punct::MinusAssign) => Some(AssignOp::Subtract),
            Terminal::Punct(Punct::StarAssign) => Some(AssignOp::Multiply),
            Terminal::Punct(Punct::SlashAssign) => Some(AssignOp::Divide),
            Terminal::Punct(Punct::ShiftLeftAssign) => Some(AssignOp::ShiftLeft),
            Terminal::Punct(Punct::ShiftRightAssign) => Some(AssignOp::ShiftRight),
            Terminal::Punct(Punct::AndAssign) => Some(AssignOp::BitAnd),
            Terminal::Punct(Punct::OrAssign) => Some(AssignOp::BitOr),
            Terminal::Punct(Punct::XorAssign) => Some(AssignOp::BitXor),
            _ => None,
        }
    }

    /// The assignment that it is, in an expression of level 0 alone.
    pub fn storing(self, level: u8) -> Option<AssignOp>
        ensures { result ≡ storing level self }
    {
        if level == 0 { self.assign() } else { None }
    }

    /// How a statement begins whose first terminal this is.
    pub fn start(self) -> Option<Start>
        ensures { result ≡ start_of self }
    {
        match self {
            Terminal::Punct(Punct::Semicolon) => Some(Start::Empty),
            Terminal::Punct(Punct::OpenBrace) => Some(Start::Block),
            Terminal::Keyword(Keyword::Break) => Some(Start::Break),
            Terminal::Keyword(Keyword::Continue) => Some(Start::Continue),
            Terminal::Keyword(Keyword::Return) => Some(Start::Return),
            Terminal::Keyword(Keyword::If) => Some(Start::If),
            Terminal::Keyword(Keyword::While) => Some(Start::While),
            Terminal::Keyword(Keyword::Do) => Some(Start::Do),
            Terminal::Keyword(Keyword::For) => Some(Start::For),
            _ => None,
        }
    }

    /// The kind of shader that it begins.
    pub fn kind(self) -> Option<ShaderKind>
        ensures { result ≡ spec.kind_of self }
    {
        match self {
            Terminal::Keyword(Keyword::Surface) => Some(ShaderKind::Surface),
            Terminal::Keyword(Keyword::Displacement) => Some(ShaderKind::Displacement),
            Terminal::Keyword(Keyword::Volume) => Some(ShaderKind::Volume),
            Terminal::Keyword(Keyword::Shader) => Some(ShaderKind::Shader),
            _ => None,
        }
    }
}
