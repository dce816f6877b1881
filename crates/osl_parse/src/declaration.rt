//! Declarations and the parts of statements that hold no statement. The number `room` says how high
//! the parts of a node may be.

ghost use Rattle.std.specs.Prelude.{◌≡◌, ◌<◌};
ghost use Rattle.osl_tree.specs.Parser as parser;
ghost use Rattle.osl_tree.specs.Reading as exprs;
ghost use Rattle.osl_tree.specs.StatementReading as spec;
ghost use Rattle.osl_parse.specs.Reads.{Reads};

use crate::error::SyntaxError;
use crate::expr::{expr, node};
use crate::list::{Listed, list};
use crate::tokens::Tokens;
use osl_tree::expr::Expr;
use osl_tree::stmt::{Declaration, ForStart, Init, Item, Var};
use osl_tree::terminal::Terminal;
use osl_tree::token::Punct;
use sqlite_items::Items;
use std::alloc::Global;

/// A name and the length of an array.
#[tactic(auto, unfolding(osl_tree::specs::StatementReading::item))]
pub fn item(alloc: Global, tokens: &mut Tokens<'_>) -> Result<(Item, u32), SyntaxError>
    ensures { Reads (spec.item tokens.old) result tokens.new }
{
    let name = tokens.name(alloc)?;
    if !tokens.eat(Terminal::Punct(Punct::OpenBracket)) {
        return Ok((Item { name, len: None }, 1));
    }
    let len = tokens.int()?;
    tokens.expect(Terminal::Punct(Punct::CloseBracket))?;
    Ok((
        Item {
            name,
            len: Some(len),
        },
        3,
    ))
}

impl Listed for Expr {
    ghost reading = { λ room. exprs.expr room 0 };

    fn read(alloc: Global, tokens: &mut Tokens<'_>, room: u32) -> Result<(Expr, u32), SyntaxError> {
        expr(alloc, tokens, room, 0)
    }
}

/// A value that a variable or a parameter begins with.
#[tactic(auto, unfolding(osl_tree::specs::StatementReading::init))]
pub fn init(alloc: Global, tokens: &mut Tokens<'_>, room: u32) -> Result<(Init, u32), SyntaxError>
    requires { room < 256 }
    ensures { Reads (spec.init room tokens.old) result tokens.new }
{
    if !tokens.eat(Terminal::Punct(Punct::OpenBrace)) {
        let (value, height) = expr(alloc, tokens, room, 0)?;
        return Ok((Init::Expr(value), height));
    }
    let (values, height) = list(alloc, tokens, room)?;
    tokens.expect(Terminal::Punct(Punct::CloseBrace))?;
    let height = node(room, height)?;
    Ok((Init::List(values), height))
}

impl Listed for Var {
    ghost reading = { spec.var };

    #[tactic(auto, unfolding(osl_tree::specs::StatementReading::var))]
    fn read(alloc: Global, tokens: &mut Tokens<'_>, room: u32) -> Result<(Var, u32), SyntaxError> {
        let (item, first) = item(alloc, tokens)?;
        if !tokens.eat(Terminal::Punct(Punct::Assign)) {
            return Ok((Var { item, init: None }, first));
        }
        let (value, second) = init(alloc, tokens, room)?;
        let height = node(room, first.max(second))?;
        Ok((
            Var {
                item,
                init: Some(value),
            },
            height,
        ))
    }
}

/// A declaration of variables, with its semicolon.
#[tactic(auto, unfolding(osl_tree::specs::StatementReading::declaration))]
pub fn declaration(
    alloc: Global,
    tokens: &mut Tokens<'_>,
    room: u32,
) -> Result<(Declaration, u32), SyntaxError>
    requires { room < 256 }
    ensures { Reads (spec.declaration room tokens.old) result tokens.new }
{
    let (ty, first) = tokens.type_name(alloc)?;
    let (vars, second) = list(alloc, tokens, room)?;
    tokens.expect(Terminal::Punct(Punct::Semicolon))?;
    let height = node(room, first.max(second))?;
    Ok((Declaration { ty, vars }, height))
}

/// An expression, or nothing where `close` stands.
#[tactic(auto, unfolding(osl_tree::specs::StatementReading::maybe))]
pub fn maybe(
    alloc: Global,
    tokens: &mut Tokens<'_>,
    room: u32,
    close: Terminal,
) -> Result<(Option<Expr>, u32), SyntaxError>
    requires { room < 256 }
    ensures { Reads (spec.maybe room close tokens.old) result tokens.new }
{
    if tokens.sees(close) {
        return Ok((None, 1));
    }
    let (found, height) = expr(alloc, tokens, room, 0)?;
    Ok((Some(found), height))
}

/// A condition with its parentheses.
#[tactic(auto, unfolding(osl_tree::specs::StatementReading::condition))]
pub fn condition(
    alloc: Global,
    tokens: &mut Tokens<'_>,
    room: u32,
) -> Result<(Expr, u32), SyntaxError>
    requires { room < 256 }
    ensures { Reads (spec.condition room tokens.old) result tokens.new }
{
    tokens.expect(Terminal::Punct(Punct::OpenParen))?;
    let found = expr(alloc, tokens, room, 0)?;
    tokens.expect(Terminal::Punct(Punct::CloseParen))?;
    Ok(found)
}

/// What a `for` begins with, with its semicolon.
#[tactic(auto, unfolding(osl_tree::specs::StatementReading::for_start))]
pub fn for_start(
    alloc: Global,
    tokens: &mut Tokens<'_>,
    room: u32,
) -> Result<(ForStart, u32), SyntaxError>
    requires { room < 256 }
    ensures { Reads (spec.for_start room tokens.old) result tokens.new }
{
    if tokens.eat(Terminal::Punct(Punct::Semicolon)) {
        return Ok((ForStart::Nothing, 1));
    }
    if tokens.declares() {
        let (found, height) = declaration(alloc, tokens, room)?;
        return Ok((ForStart::Declare(found), height));
    }
    let (found, height) = expr(alloc, tokens, room, 0)?;
    tokens.expect(Terminal::Punct(Punct::Semicolon))?;
    Ok((ForStart::Expr(found), height))
}
