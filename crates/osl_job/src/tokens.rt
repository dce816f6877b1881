//! A cursor over the tokens of a source. Contracts see it as the tokens that are left, with their texts.

ghost use Rattle.std.specs.Prelude.{◌≡◌};
ghost use Rattle.std.specs.Option.{option_map};
ghost use Rattle.osl_tree.specs.Lexemes.{lexemes};
ghost use Rattle.osl_tree.specs.Parser as parser;
ghost use Rattle.osl_tree.specs.Sources.{LieWithin};
ghost use Rattle.osl_job.specs.Reader.{Reads, is_end};
ghost use Rattle.osl_job.specs.Small as spec;

use crate::text::ReadStop;
use osl_tree::terminal::{Keyword, Terminal};
use osl_tree::token::{Token, TokenKind};
use osl_value::Fx;
use std::marker::Model;

#[derive(Drop)]
pub struct Tokens<'a> {
    source: &'a [u8],
    rest: &'a [Token],
}

impl<'a> Model for Tokens<'a> {
    ghost use Rattle.std.specs.Prelude.{List};
    ghost use Rattle.osl_tree.specs.Lexeme.{Lexeme};
    ghost use Rattle.osl_tree.specs.Lexemes.{lexemes};
    ghost use Rattle.osl_tree.specs.Sources.{LieWithin};

    ghost Value = { List Lexeme };

    ghost view = { λ t. lexemes t.source.now t.rest.now };

    ghost invariant = { λ t. LieWithin t.source.now t.rest.now };
}

impl<'a> Tokens<'a> {
    pub fn new(source: &'a [u8], tokens: &'a [Token]) -> Tokens<'a>
        requires { LieWithin source.now tokens.now }
        ensures { result ≡ lexemes source.now tokens.now }
    {
        Tokens {
            source,
            rest: tokens,
        }
    }

    /// Whether no token is left.
    pub fn is_end(&self) -> bool
        ensures { result ≡ is_end self.now }
    {
        self.rest.is_empty()
    }

    /// Goes past the token that comes next.
    pub fn skip(&mut self)
        ensures { self.new ≡ parser.rest self.old }
    {
        if let [_, rest @ ..] = self.rest {
            self.rest = rest;
        }
    }

    /// The mark or the reserved word that comes next.
    pub fn mark(&self) -> Option<Terminal>
        ensures { result ≡ parser.of_terminal Some (parser.first self.now) }
    {
        let [token, ..] = self.rest else {
            return None;
        };
        match token.kind {
            TokenKind::Word => {
                let text = &self.source[token.start as usize..token.end as usize];
                match Keyword::of(text) {
                    Some(word) => Some(Terminal::Keyword(word)),
                    None => None,
                }
            }
            TokenKind::Punct(mark) => Some(Terminal::Punct(mark)),
            _ => None,
        }
    }

    /// The name that comes next.
    pub fn name(&self) -> Option<&'a [u8]>
        ensures { option_map (λ name. name.now) result ≡ parser.name_of (parser.first self.now) }
    {
        let [token, ..] = self.rest else {
            return None;
        };
        let TokenKind::Word = token.kind else {
            return None;
        };
        let text = &self.source[token.start as usize..token.end as usize];
        match Keyword::of(text) {
            Some(_) => None,
            None => Some(text),
        }
    }

    /// The float that comes next.
    pub fn float(&self) -> Option<Fx>
        ensures { result ≡ spec.float_of (parser.first self.now) }
    {
        let [token, ..] = self.rest else {
            return None;
        };
        match token.kind {
            TokenKind::Float(value) => Some(value),
            _ => None,
        }
    }

    /// The float that comes next, or the int taken as a float.
    pub fn number(&self) -> Option<Fx>
        ensures { result ≡ spec.number_of (parser.first self.now) }
    {
        let [token, ..] = self.rest else {
            return None;
        };
        match token.kind {
            TokenKind::Float(value) => Some(value),
            TokenKind::Int(value) => Some(Fx::from_int(value)),
            _ => None,
        }
    }

    #[tactic(auto, unfolding(osl_tree::specs::Parser::sees))]
    fn sees(&self, mark: Terminal) -> bool
        ensures { result ≡ parser.sees mark self.now }
    {
        match self.mark() {
            Some(found) => found.is(mark),
            None => false,
        }
    }

    /// Takes a mark, if it comes next.
    pub fn eat(&mut self, mark: Terminal) -> bool
        ensures { parser.eat mark self.old ≡ Some (result, self.new) }
    {
        let sees = self.sees(mark);
        if sees {
            self.skip();
        }
        sees
    }

    /// Takes a mark, which must come next.
    #[tactic(auto, unfolding(osl_tree::specs::Parser::expect))]
    pub fn expect(&mut self, mark: Terminal) -> Result<(), ReadStop>
        ensures { Reads (parser.expect mark self.old) result self.new }
    {
        if !self.sees(mark) {
            return Err(ReadStop::NotBuilt);
        }
        self.skip();
        Ok(())
    }
}
