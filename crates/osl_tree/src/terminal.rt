//! Terminals of the grammar: punctuation marks and keywords.

ghost use Rattle.std.specs.Prelude.{◌≡◌};
ghost use Rattle.osl_tree.specs.Lexemes.{word_of, reserved};
ghost use Rattle.osl_tree.specs.Parser.{same_terminal};

use crate::token::Punct;

/// A reserved word.
#[derive(Clone, Copy, Debug, PartialEq, Eq)]
pub enum Keyword {
    Struct,
    Int,
    Float,
    Color,
    Point,
    Vector,
    Normal,
    Matrix,
    /// `string`
    Str,
    Closure,
    Void,
    Output,
    Surface,
    Displacement,
    Volume,
    Shader,
    Break,
    Continue,
    Return,
    If,
    Else,
    While,
    Do,
    For,
    Not,
    And,
    Or,
}

/// A terminal of the grammar: a punctuation mark or a keyword, which is a reserved word.
#[derive(Clone, Copy, Debug, PartialEq, Eq)]
pub enum Terminal {
    Punct(Punct),
    Keyword(Keyword),
}

/// Every reserved word.
const KEYWORDS: [Keyword; 27] = [
    Keyword::Struct,
    Keyword::Int,
    Keyword::Float,
    Keyword::Color,
    Keyword::Point,
    Keyword::Vector,
    Keyword::Normal,
    Keyword::Matrix,
    Keyword::Str,
    Keyword::Closure,
    Keyword::Void,
    Keyword::Output,
    Keyword::Surface,
    Keyword::Displacement,
    Keyword::Volume,
    Keyword::Shader,
    Keyword::Break,
    Keyword::Continue,
    Keyword::Return,
    Keyword::If,
    Keyword::Else,
    Keyword::While,
    Keyword::Do,
    Keyword::For,
    Keyword::Not,
    Keyword::And,
    Keyword::Or,
];

impl Keyword {
    /// The word.
    pub fn spelling(self) -> &'static [u8]
        ensures { result.now ≡ word_of self }
    {
        match self {
            Keyword::Struct => b"struct",
            Keyword::Int => b"int",
            Keyword::Float => b"float",
            Keyword::Color => b"color",
            Keyword::Point => b"point",
            Keyword::Vector => b"vector",
            Keyword::Normal => b"normal",
            Keyword::Matrix => b"matrix",
            Keyword::Str => b"string",
            Keyword::Closure => b"closure",
            Keyword::Void => b"void",
            Keyword::Output => b"output",
            Keyword::Surface => b"surface",
            Keyword::Displacement => b"displacement",
            Keyword::Volume => b"volume",
            Keyword::Shader => b"shader",
            Keyword::Break => b"break",
            Keyword::Continue => b"continue",
            Keyword::Return => b"return",
            Keyword::If => b"if",
            Keyword::Else => b"else",
            Keyword::While => b"while",
            Keyword::Do => b"do",
            Keyword::For => b"for",
            Keyword::Not => b"not",
            Keyword::And => b"and",
            Keyword::Or => b"or",
        }
    }

    /// The reserved word that is spelled so.
    #[tactic(auto, unfolding(crate::specs::Lexemes::reserved))]
    pub fn of(text: &[u8]) -> Option<Keyword>
        ensures { result ≡ reserved text.now }
    {
        KEYWORDS
            .iter()
            .copied()
            .find(|word| word.spelling() == text)
    }
}

impl Terminal {
    /// Whether the two are the same.
    #[tactic(auto, unfolding(crate::specs::Parser::same_terminal))]
    pub fn is(self, other: Terminal) -> bool
        ensures { result ≡ same_terminal self other }
    {
        match (self, other) {
            (Terminal::Punct(one), Terminal::Punct(two)) => one == two,
            (Terminal::Keyword(one), Terminal::Keyword(two)) => one == two,
            _ => false,
        }
    }
}
