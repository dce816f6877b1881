//! Lists with commas between their items.

ghost use Rattle.std.specs.Prelude.{◌<◌};
ghost use Rattle.osl_tree.specs.Parser as parser;
ghost use Rattle.osl_parse.specs.Reads.{Reads};

use crate::error::SyntaxError;
use crate::tokens::Tokens;
use osl_tree::terminal::Terminal;
use osl_tree::token::Punct;
use sqlite_items::Items;
use std::alloc::Global;

/// What is in a list with commas.
pub trait Listed: Sized + Drop {
    ghost use Rattle.std.specs.Prelude.{ℕ};
    ghost use Rattle.osl_tree.specs.Parser.{Parser};

    /// What is read of one item, whose parts are no higher than the number.
    ghost reading: { ℕ → Parser (Self × ℕ) };

    /// Reads one item, and its height.
    fn read(alloc: Global, tokens: &mut Tokens<'_>, room: u32) -> Result<(Self, u32), SyntaxError>
        requires { room < 256 }
        ensures { Reads (reading room tokens.old) result tokens.new };
}

/// One item or more, and the height of the highest.
#[tactic(auto, unfolding(osl_tree::specs::Parser::listed, osl_tree::specs::Parser::listed_from))]
pub fn list<T: Listed>(
    alloc: Global,
    tokens: &mut Tokens<'_>,
    room: u32,
) -> Result<(Items<T>, u32), SyntaxError>
    requires { room < 256 }
    ensures { Reads (parser.listed (T.reading room) tokens.old) result tokens.new }
{
    let mut items = Items::new(alloc);
    let mut height = 1;
    for _turn in 0..tokens.len() {
        let (item, its_height) = T::read(alloc, tokens, room)?;
        items.push(item)?;
        height = height.max(its_height);
        if !tokens.eat(Terminal::Punct(Punct::Comma)) {
            return Ok((items, height));
        }
    }
    Err(SyntaxError::NoTree)
}

/// The same, but a comma may follow the last; there `close` closes the list.
#[tactic(auto, unfolding(osl_tree::specs::Parser::trailed, osl_tree::specs::Parser::trailed_from))]
pub fn trailed<T: Listed>(
    alloc: Global,
    tokens: &mut Tokens<'_>,
    room: u32,
    close: Terminal,
) -> Result<(Items<T>, u32), SyntaxError>
    requires { room < 256 }
    ensures { Reads (parser.trailed close (T.reading room) tokens.old) result tokens.new }
{
    let mut items = Items::new(alloc);
    let mut height = 1;
    for _turn in 0..tokens.len() {
        let (item, its_height) = T::read(alloc, tokens, room)?;
        items.push(item)?;
        height = height.max(its_height);
        if !tokens.eat(Terminal::Punct(Punct::Comma)) {
            return Ok((items, height));
        }
        if tokens.sees(close) {
            return Ok((items, height));
        }
    }
    Err(SyntaxError::NoTree)
}
