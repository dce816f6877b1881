//! A cursor over the tokens of a source. Contracts see it as the tokens that are left, with their
//! texts.

ghost use Rattle.std.specs.Prelude.{◌≡◌, ◌&&◌, length, drop};
ghost use Rattle.osl_tree.specs.Lexemes as lexical;
ghost use Rattle.osl_tree.specs.Terminals as terminals;
ghost use Rattle.osl_tree.specs.Parser as spec;
ghost use Rattle.osl_tree.specs.Reading as reading;
ghost use Rattle.osl_tree.specs.StatementReading as statements;
ghost use Rattle.osl_parse.specs.Reads.{Reads, is_end};
ghost use Rattle.osl_tree.specs.Sources.{LieWithin};

use crate::error::SyntaxError;
use crate::escape::unescaped;
use osl_tree::expr::{AssignOp, BaseType, BinaryOp, Expr, PrefixOp, Suffix};
use osl_tree::stmt::{Start, TypeName};
use osl_tree::terminal::{Keyword, Terminal};
use osl_tree::token::{Punct, Token, TokenKind};
use osl_value::ShaderKind;
use sqlite_items::Items;
use std::alloc::Global;
use std::marker::Model;

/// The tokens that are left of a source.
#[derive(Drop)]
pub struct Tokens<'a> {
    source: &'a [u8],
    rest: &'a [Token],
}

impl<'a> Model for Tokens<'a> {
    ghost use Rattle.std.specs.Prelude.{List};
    ghost use Rattle.osl_tree.specs.Lexeme.{Lexeme};

    ghost Value = { List Lexeme };

    ghost use Rattle.osl_tree.specs.Lexemes.{lexemes};
    ghost use Rattle.osl_tree.specs.Sources.{LieWithin};

    ghost view = { λ t. lexemes t.source.now t.rest.now };

    ghost invariant = { λ t. LieWithin t.source.now t.rest.now };
}

/// What is between the quotes of a string.
fn inside(text: &[u8]) -> &[u8]
    ensures { result.now ≡ lexical.inside text.now }
{
    if text.len() < 2 {
        return &[];
    }
    &text[1..text.len() - 1]
}

impl<'a> Tokens<'a> {
    /// All tokens of a source, which lie within it.
    pub fn new(source: &'a [u8], tokens: &'a [Token]) -> Tokens<'a>
        requires { LieWithin source.now tokens.now }
        ensures { result ≡ lexical.lexemes source.now tokens.now }
    {
        Tokens {
            source,
            rest: tokens,
        }
    }

    /// How many tokens are left.
    pub fn len(&self) -> usize
        ensures { result ≡ length self.now }
    {
        self.rest.len()
    }

    /// Whether no token is left.
    pub fn is_empty(&self) -> bool
        ensures { result ≡ is_end self.now }
    {
        let [_, ..] = self.rest else {
            return true;
        };
        false
    }

    fn skip(&mut self)
        ensures { self.new ≡ spec.rest self.old }
    {
        if let [_, rest @ ..] = self.rest {
            self.rest = rest;
        }
    }

    fn skip_two(&mut self)
        ensures { self.new ≡ drop 2 self.old }
    {
        self.skip();
        self.skip();
    }

    /// The terminal that comes next.
    fn terminal(&self) -> Option<Terminal>
        ensures { result ≡ spec.of_terminal Some (spec.first self.now) }
    {
        let [token, ..] = self.rest else {
            return None;
        };
        match token.kind {
            TokenKind::Word => match Keyword::of(
                &self.source[token.start as usize..token.end as usize],
            ) {
                Some(word) => Some(Terminal::Keyword(word)),
                None => None,
            },
            TokenKind::Punct(mark) => Some(Terminal::Punct(mark)),
            _ => None,
        }
    }

    /// Whether a name comes next.
    pub fn is_name(&self) -> bool
        ensures { result ≡ spec.is_name (spec.first self.now) }
    {
        let [token, ..] = self.rest else {
            return false;
        };
        match token.kind {
            TokenKind::Word => Keyword::of(
                &self.source[token.start as usize..token.end as usize],
            ).is_none(),
            _ => false,
        }
    }

    /// Whether this terminal comes next.
    #[tactic(auto, unfolding(osl_tree::specs::Parser::sees))]
    pub fn sees(&self, terminal: Terminal) -> bool
        ensures { result ≡ spec.sees terminal self.now }
    {
        match self.terminal() {
            Some(found) => found.is(terminal),
            None => false,
        }
    }

    /// Takes this terminal, if it comes next.
    pub fn eat(&mut self, terminal: Terminal) -> bool
        ensures { spec.eat terminal self.old ≡ Some (result, self.new) }
    {
        let sees = self.sees(terminal);
        if sees {
            self.skip();
        }
        sees
    }

    /// Takes this terminal, which must come next.
    #[tactic(auto, unfolding(osl_tree::specs::Parser::expect))]
    pub fn expect(&mut self, terminal: Terminal) -> Result<(), SyntaxError>
        ensures { Reads (spec.expect terminal self.old) result self.new }
    {
        if !self.sees(terminal) {
            return Err(SyntaxError::NoTree);
        }
        self.skip();
        Ok(())
    }

    /// Takes a name.
    #[tactic(auto, unfolding(osl_tree::specs::Parser::name))]
    pub fn name(&mut self, alloc: Global) -> Result<Items<u8>, SyntaxError>
        ensures { Reads (spec.name self.old) result self.new }
    {
        let [token, rest @ ..] = self.rest else {
            return Err(SyntaxError::NoTree);
        };
        let TokenKind::Word = token.kind else {
            return Err(SyntaxError::NoTree);
        };
        let text = &self.source[token.start as usize..token.end as usize];
        if Keyword::of(text).is_some() {
            return Err(SyntaxError::NoTree);
        }
        let name = Items::from_slice(alloc, text)?;
        self.rest = rest;
        Ok(name)
    }

    /// Takes a number or a string.
    pub fn literal(&mut self, alloc: Global) -> Result<Option<Expr>, SyntaxError>
        ensures { Reads (reading.take_literal self.old) result self.new }
    {
        let [token, rest @ ..] = self.rest else {
            return Ok(None);
        };
        let found = match token.kind {
            TokenKind::Int(number) => Expr::Int(number),
            TokenKind::Float(number) => Expr::Float(number),
            TokenKind::Str => {
                let text = &self.source[token.start as usize..token.end as usize];
                Expr::Text(unescaped(alloc, inside(text))?)
            }
            TokenKind::Word | TokenKind::Punct(_) => return Ok(None),
        };
        self.rest = rest;
        Ok(Some(found))
    }

    /// Takes an int.
    #[tactic(auto, unfolding(osl_tree::specs::Parser::int))]
    pub fn int(&mut self) -> Result<i32, SyntaxError>
        ensures { Reads (spec.int self.old) result self.new }
    {
        let [token, rest @ ..] = self.rest else {
            return Err(SyntaxError::NoTree);
        };
        match token.kind {
            TokenKind::Int(number) => {
                self.rest = rest;
                Ok(number)
            }
            _ => Err(SyntaxError::NoTree),
        }
    }

    /// Takes an operator that binds at least so tightly.
    pub fn operator(&mut self, least: u8) -> Option<BinaryOp>
        ensures { spec.take_as (reading.operator least) self.old ≡ Some (result, self.new) }
    {
        let op = self.terminal()?.operator(least)?;
        self.skip();
        Some(op)
    }

    /// Takes an assignment, at level 0 alone.
    pub fn storing(&mut self, level: u8) -> Option<AssignOp>
        ensures { spec.take_as (reading.storing level) self.old ≡ Some (result, self.new) }
    {
        let op = self.terminal()?.storing(level)?;
        self.skip();
        Some(op)
    }

    /// Takes an operator that comes before its operand.
    pub fn prefix(&mut self) -> Option<PrefixOp>
        ensures { spec.take_as terminals.prefix_of self.old ≡ Some (result, self.new) }
    {
        let op = self.terminal()?.prefix()?;
        self.skip();
        Some(op)
    }

    /// Takes what goes on after an operand.
    pub fn suffix(&mut self) -> Option<Suffix>
        ensures { spec.take_as reading.suffix_of self.old ≡ Some (result, self.new) }
    {
        let suffix = self.terminal()?.suffix()?;
        self.skip();
        Some(suffix)
    }

    /// Takes the terminal that a statement begins with.
    pub fn start(&mut self) -> Option<Start>
        ensures { spec.take_as statements.start_of self.old ≡ Some (result, self.new) }
    {
        let start = self.terminal()?.start()?;
        self.skip();
        Some(start)
    }

    /// Takes the kind of a shader.
    pub fn kind(&mut self) -> Option<ShaderKind>
        ensures { spec.take_as terminals.kind_of self.old ≡ Some (result, self.new) }
    {
        let kind = self.terminal()?.kind()?;
        self.skip();
        Some(kind)
    }

    /// A cursor at the same place.
    fn ahead(&self) -> Tokens<'a>
        ensures { result ≡ self.now }
    {
        Tokens {
            source: self.source,
            rest: self.rest,
        }
    }

    /// The type that the next word names by itself.
    fn base_word(&self) -> Option<BaseType>
        ensures { result ≡ spec.of_terminal terminals.base_of (spec.first self.now) }
    {
        self.terminal()?.base()
    }

    /// Whether `closure color` comes next.
    fn sees_closure(&self) -> bool
        ensures { result ≡ (spec.sees (Terminal.Keyword Keyword.Closure) self.now && spec.sees (Terminal.Keyword Keyword.Color) (spec.rest self.now)) }
    {
        if !self.sees(Terminal::Keyword(Keyword::Closure)) {
            return false;
        }
        let mut ahead = self.ahead();
        ahead.skip();
        ahead.sees(Terminal::Keyword(Keyword::Color))
    }

    /// Takes a type that reserved words name; the number is how many they are.
    #[tactic(auto, unfolding(osl_tree::specs::Parser::base_at))]
    pub fn base(&mut self) -> Option<(BaseType, u32)>
        ensures { spec.take_base self.old ≡ Some (result, self.new) }
    {
        if let Some(base) = self.base_word() {
            self.skip();
            return Some((base, 1));
        }
        if !self.sees_closure() {
            return None;
        }
        self.skip_two();
        Some((BaseType::Closure, 2))
    }

    /// Takes a type that reserved words name, in parentheses.
    #[tactic(auto, unfolding(osl_tree::specs::Parser::cast_of))]
    pub fn cast(&mut self) -> Option<(BaseType, u32)>
        ensures { spec.take_cast self.old ≡ Some (result, self.new) }
    {
        let mut ahead = self.ahead();
        if !ahead.eat(Terminal::Punct(Punct::OpenParen)) {
            return None;
        }
        let to = ahead.base()?;
        if !ahead.eat(Terminal::Punct(Punct::CloseParen)) {
            return None;
        }
        *self = ahead;
        Some(to)
    }

    /// Takes a type; the number is its height.
    #[tactic(auto, unfolding(osl_tree::specs::Parser::type_name))]
    pub fn type_name(&mut self, alloc: Global) -> Result<(TypeName, u32), SyntaxError>
        ensures { Reads (spec.type_name self.old) result self.new }
    {
        if let Some((base, height)) = self.base() {
            return Ok((TypeName::Base(base), height));
        }
        let name = self.name(alloc)?;
        Ok((TypeName::Struct(name), 1))
    }

    /// Whether a type and a name come next, which begin a declaration.
    #[tactic(auto, unfolding(osl_tree::specs::Parser::declares))]
    pub fn declares(&self) -> bool
        ensures { result ≡ spec.declares self.now }
    {
        let mut ahead = self.ahead();
        if ahead.base().is_none() {
            if !ahead.is_name() {
                return false;
            }
            ahead.skip();
        }
        ahead.is_name()
    }
}
