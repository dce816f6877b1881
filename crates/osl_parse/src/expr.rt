//! Expressions, by precedence climbing. The rules take the reader of the parts as a parameter, so
//! that each is proved by itself.

ghost use Rattle.std.specs.Prelude.{[], ◌+◌, ◌≡◌, ◌<◌, ◌≤◌, IfOk};
ghost use Rattle.osl_tree.specs.Parser as parser;
ghost use Rattle.osl_tree.specs.Reading as spec;
ghost use Rattle.osl_parse.specs.Reads.{Reads, Parses};
ghost use Rattle.osl_parse.specs.Nests.{Nests};

use crate::error::SyntaxError;
use crate::tokens::Tokens;
use osl_tree::expr::{AssignOp, BaseType, BinaryOp, Expr, PostfixOp, Suffix};
use osl_tree::terminal::Terminal;
use osl_tree::token::Punct;
use sqlite_items::{Boxed, Items};
use std::alloc::{AllocError, Global};

/// The level of a unary expression. Level 0 takes assignments too, 1 takes `?:`, and 2 to 11 take the
/// binary operators that bind at least so tightly.
const UNARY: u8 = 12;

/// The height of a node over parts of this height, which may be no higher than `room`.
#[tactic(auto, unfolding(osl_tree::specs::Parser::height_over))]
pub fn node(room: u32, height: u32) -> Result<u32, SyntaxError>
    requires { room < 256 }
    ensures { Parses (parser.height_over room height) result }
{
    if height > room {
        return Err(SyntaxError::NoTree);
    }
    Ok(height + 1)
}

fn join(alloc: Global, op: BinaryOp, x: Expr, y: Expr) -> Result<Expr, AllocError>
    ensures { IfOk result (λ e. e ≡ Expr.Binary op x y) }
{
    Ok(Expr::Binary(op, Boxed::new(alloc, x)?, Boxed::new(alloc, y)?))
}

fn assign(alloc: Global, op: AssignOp, x: Expr, y: Expr) -> Result<Expr, AllocError>
    ensures { IfOk result (λ e. e ≡ Expr.Assign op x y) }
{
    Ok(Expr::Assign(op, Boxed::new(alloc, x)?, Boxed::new(alloc, y)?))
}

fn choice(alloc: Global, x: Expr, y: Expr, z: Expr) -> Result<Expr, AllocError>
    ensures { IfOk result (λ e. e ≡ Expr.Choice x y z) }
{
    Ok(Expr::Choice(
        Boxed::new(alloc, x)?,
        Boxed::new(alloc, y)?,
        Boxed::new(alloc, z)?,
    ))
}

/// The rules of expressions, by a reader of their parts.
#[derive(Clone, Copy)]
pub struct Grammar<F> {
    alloc: Global,
    /// How high a part may be.
    room: u32,
    /// Reads an expression of a level that is no higher than a number.
    expr: F,
}

impl<F: Fn(Global, &mut Tokens<'_>, u32, u8) -> Result<(Expr, u32), SyntaxError>> Grammar<F> {
    /// A part, of this level.
    fn part(&self, tokens: &mut Tokens<'_>, level: u8) -> Result<(Expr, u32), SyntaxError>
        requires { Nests self.now.room (F.pre self.now.expr) (F.post self.now.expr) }
        ensures { Reads (spec.expr self.now.room level tokens.old) result tokens.new }
    {
        (self.expr)(self.alloc, tokens, self.room, level)
    }

    /// The height of a node over parts of this height.
    fn node(&self, height: u32) -> Result<u32, SyntaxError>
        requires { Nests self.now.room (F.pre self.now.expr) (F.post self.now.expr) }
        ensures { Parses (parser.height_over self.now.room height) result }
    {
        node(self.room, height)
    }

    /// One or more expressions with commas between them.
    #[tactic(auto, unfolding(osl_tree::specs::Parser::listed, osl_tree::specs::Parser::listed_from))]
    fn list(&self, tokens: &mut Tokens<'_>) -> Result<(Items<Expr>, u32), SyntaxError>
        requires { Nests self.now.room (F.pre self.now.expr) (F.post self.now.expr) }
        ensures { Reads (parser.listed (spec.expr self.now.room 0) tokens.old) result tokens.new }
    {
        let mut items = Items::new(self.alloc);
        let mut height = 1;
        for _turn in 0..tokens.len() {
            let (item, its_height) = self.part(tokens, 0)?;
            items.push(item)?;
            height = height.max(its_height);
            if !tokens.eat(Terminal::Punct(Punct::Comma)) {
                return Ok((items, height));
            }
        }
        Err(SyntaxError::NoTree)
    }

    /// The arguments of a call or a constructor, with their parentheses.
    #[tactic(auto, unfolding(osl_tree::specs::Reading::arguments))]
    fn arguments(&self, tokens: &mut Tokens<'_>) -> Result<(Items<Expr>, u32), SyntaxError>
        requires { Nests self.now.room (F.pre self.now.expr) (F.post self.now.expr) }
        ensures { Reads (spec.arguments (spec.expr self.now.room) self.now.room tokens.old) result tokens.new }
    {
        tokens.expect(Terminal::Punct(Punct::OpenParen))?;
        if tokens.eat(Terminal::Punct(Punct::CloseParen)) {
            return Ok((Items::new(self.alloc), 1));
        }
        let found = self.list(tokens)?;
        tokens.expect(Terminal::Punct(Punct::CloseParen))?;
        Ok(found)
    }

    /// A name or a call, after the name.
    #[tactic(auto, unfolding(osl_tree::specs::Reading::word))]
    fn word(&self, tokens: &mut Tokens<'_>, name: Items<u8>) -> Result<(Expr, u32), SyntaxError>
        requires { Nests self.now.room (F.pre self.now.expr) (F.post self.now.expr) }
        ensures { Reads (spec.word (spec.expr self.now.room) self.now.room name tokens.old) result tokens.new }
    {
        if !tokens.sees(Terminal::Punct(Punct::OpenParen)) {
            return Ok((Expr::Name(name), 1));
        }
        let (arguments, height) = self.arguments(tokens)?;
        let height = self.node(height)?;
        Ok((Expr::Call(name, arguments), height))
    }

    /// An expression in parentheses, after the first of them.
    #[tactic(auto, unfolding(osl_tree::specs::Reading::parenthesised))]
    fn parenthesised(&self, tokens: &mut Tokens<'_>) -> Result<(Expr, u32), SyntaxError>
        requires { Nests self.now.room (F.pre self.now.expr) (F.post self.now.expr) }
        ensures { Reads (spec.parenthesised (spec.expr self.now.room) self.now.room tokens.old) result tokens.new }
    {
        let (inside, height) = self.part(tokens, 0)?;
        tokens.expect(Terminal::Punct(Punct::CloseParen))?;
        let height = self.node(height)?;
        Ok((Expr::Paren(Boxed::new(self.alloc, inside)?), height))
    }

    #[tactic(auto, unfolding(osl_tree::specs::Reading::name_or_paren))]
    fn name_or_paren(&self, tokens: &mut Tokens<'_>) -> Result<(Expr, u32), SyntaxError>
        requires { Nests self.now.room (F.pre self.now.expr) (F.post self.now.expr) }
        ensures { Reads (spec.name_or_paren (spec.expr self.now.room) self.now.room tokens.old) result tokens.new }
    {
        if tokens.is_name() {
            let name = tokens.name(self.alloc)?;
            return self.word(tokens, name);
        }
        tokens.expect(Terminal::Punct(Punct::OpenParen))?;
        self.parenthesised(tokens)
    }

    #[tactic(auto, unfolding(osl_tree::specs::Reading::primary))]
    fn primary(&self, tokens: &mut Tokens<'_>) -> Result<(Expr, u32), SyntaxError>
        requires { Nests self.now.room (F.pre self.now.expr) (F.post self.now.expr) }
        ensures { Reads (spec.primary (spec.expr self.now.room) self.now.room tokens.old) result tokens.new }
    {
        let Some((to, words)) = tokens.base() else {
            return match tokens.literal(self.alloc)? {
                Some(found) => Ok((found, 1)),
                None => self.name_or_paren(tokens),
            };
        };
        let (arguments, height) = self.arguments(tokens)?;
        let height = self.node(words.max(height))?;
        Ok((Expr::Construct(to, arguments), height))
    }

    /// An element of what was found, after the bracket.
    #[tactic(auto, unfolding(osl_tree::specs::Reading::index))]
    fn index(&self, tokens: &mut Tokens<'_>, found: (Expr, u32)) -> Result<(Expr, u32), SyntaxError>
        requires { Nests self.now.room (F.pre self.now.expr) (F.post self.now.expr) }
        ensures { Reads (spec.index (spec.expr self.now.room) self.now.room found tokens.old) result tokens.new }
    {
        let (x, first) = found;
        let (y, second) = self.part(tokens, 0)?;
        tokens.expect(Terminal::Punct(Punct::CloseBracket))?;
        let height = self.node(first.max(second))?;
        let indexed = Expr::Index(Boxed::new(self.alloc, x)?, Boxed::new(self.alloc, y)?);
        Ok((indexed, height))
    }

    /// A field of what was found, after the point.
    #[tactic(auto, unfolding(osl_tree::specs::Reading::field))]
    fn field(&self, tokens: &mut Tokens<'_>, found: (Expr, u32)) -> Result<(Expr, u32), SyntaxError>
        requires { Nests self.now.room (F.pre self.now.expr) (F.post self.now.expr) }
        ensures { Reads (spec.field (spec.expr self.now.room) self.now.room found tokens.old) result tokens.new }
    {
        let (x, height) = found;
        let name = tokens.name(self.alloc)?;
        let height = self.node(height)?;
        Ok((Expr::Field(Boxed::new(self.alloc, x)?, name), height))
    }

    /// What was found, with `++` or `--` after it.
    #[tactic(auto, unfolding(osl_tree::specs::Reading::stepped))]
    fn stepped(
        &self,
        tokens: &Tokens<'_>,
        op: PostfixOp,
        found: (Expr, u32),
    ) -> Result<(Expr, u32), SyntaxError>
        requires { Nests self.now.room (F.pre self.now.expr) (F.post self.now.expr) }
        ensures { Reads (spec.stepped (spec.expr self.now.room) self.now.room op found tokens.now) result tokens.now }
    {
        let (x, height) = found;
        let height = self.node(height)?;
        Ok((Expr::Postfix(op, Boxed::new(self.alloc, x)?), height))
    }

    fn suffixed(
        &self,
        tokens: &mut Tokens<'_>,
        found: (Expr, u32),
        suffix: Suffix,
    ) -> Result<(Expr, u32), SyntaxError>
        requires { Nests self.now.room (F.pre self.now.expr) (F.post self.now.expr) }
        ensures { Reads (spec.suffixed (spec.expr self.now.room) self.now.room found suffix tokens.old) result tokens.new }
    {
        match suffix {
            Suffix::Index => self.index(tokens, found),
            Suffix::Field => self.field(tokens, found),
            Suffix::Increment => self.stepped(tokens, PostfixOp::Increment, found),
            Suffix::Decrement => self.stepped(tokens, PostfixOp::Decrement, found),
        }
    }

    #[tactic(auto, unfolding(osl_tree::specs::Reading::postfix, osl_tree::specs::Reading::postfix_from))]
    fn postfix(&self, tokens: &mut Tokens<'_>) -> Result<(Expr, u32), SyntaxError>
        requires { Nests self.now.room (F.pre self.now.expr) (F.post self.now.expr) }
        ensures { Reads (spec.postfix (spec.expr self.now.room) self.now.room tokens.old) result tokens.new }
    {
        let mut found = self.primary(tokens)?;
        for _turn in 0..self.room + 1 {
            let Some(suffix) = tokens.suffix() else {
                return Ok(found);
            };
            found = self.suffixed(tokens, found, suffix)?;
        }
        Err(SyntaxError::NoTree)
    }

    #[tactic(auto, unfolding(osl_tree::specs::Reading::unary))]
    fn unary(&self, tokens: &mut Tokens<'_>) -> Result<(Expr, u32), SyntaxError>
        requires { Nests self.now.room (F.pre self.now.expr) (F.post self.now.expr) }
        ensures { Reads (spec.unary (spec.expr self.now.room) self.now.room tokens.old) result tokens.new }
    {
        if let Some(op) = tokens.prefix() {
            let (x, height) = self.part(tokens, UNARY)?;
            let height = self.node(height)?;
            return Ok((Expr::Prefix(op, Boxed::new(self.alloc, x)?), height));
        }
        if let Some((to, words)) = tokens.cast() {
            let (x, height) = self.part(tokens, UNARY)?;
            let height = self.node(words.max(height))?;
            return Ok((Expr::Cast(to, Boxed::new(self.alloc, x)?), height));
        }
        self.postfix(tokens)
    }

    /// The first operand with the operators after it that bind at least so tightly, each level joined
    /// to the left.
    #[tactic(auto, unfolding(osl_tree::specs::Reading::climb))]
    fn climb(
        &self,
        tokens: &mut Tokens<'_>,
        least: u8,
        first: (Expr, u32),
    ) -> Result<(Expr, u32), SyntaxError>
        requires { Nests self.now.room (F.pre self.now.expr) (F.post self.now.expr) }
        ensures { Reads (spec.climb (spec.expr self.now.room) self.now.room (self.now.room + 1) least first tokens.old) result tokens.new }
    {
        let mut found = first;
        for _turn in 0..self.room + 1 {
            let Some(op) = tokens.operator(least) else {
                return Ok(found);
            };
            let (y, its_height) = self.part(tokens, op.level() + 1)?;
            let (x, height) = found;
            let height = self.node(height.max(its_height))?;
            found = (join(self.alloc, op, x, y)?, height);
        }
        Err(SyntaxError::NoTree)
    }

    /// What was found, or the `?:` that it is the condition of.
    #[tactic(auto, unfolding(osl_tree::specs::Reading::chosen))]
    fn chosen(
        &self,
        tokens: &mut Tokens<'_>,
        found: (Expr, u32),
    ) -> Result<(Expr, u32), SyntaxError>
        requires { Nests self.now.room (F.pre self.now.expr) (F.post self.now.expr) }
        ensures { Reads (spec.chosen (spec.expr self.now.room) self.now.room found tokens.old) result tokens.new }
    {
        if !tokens.eat(Terminal::Punct(Punct::Question)) {
            return Ok(found);
        }
        let (x, first) = found;
        let (y, second) = self.part(tokens, 0)?;
        tokens.expect(Terminal::Punct(Punct::Colon))?;
        let (z, third) = self.part(tokens, 1)?;
        let height = self.node(first.max(second.max(third)))?;
        Ok((choice(self.alloc, x, y, z)?, height))
    }

    #[tactic(auto, unfolding(osl_tree::specs::Reading::binary))]
    fn binary(
        &self,
        tokens: &mut Tokens<'_>,
        level: u8,
        first: (Expr, u32),
    ) -> Result<(Expr, u32), SyntaxError>
        requires { Nests self.now.room (F.pre self.now.expr) (F.post self.now.expr) }
        ensures { Reads (spec.binary (spec.expr self.now.room) self.now.room level first tokens.old) result tokens.new }
    {
        let found = self.climb(tokens, level.max(2), first)?;
        if level <= 1 {
            self.chosen(tokens, found)
        } else {
            Ok(found)
        }
    }

    /// An expression of this level. Its unary part is read first, and only then it shows whether it is
    /// assigned to: nothing is read twice.
    #[tactic(auto, unfolding(osl_tree::specs::Reading::whole))]
    pub fn whole(&self, tokens: &mut Tokens<'_>, level: u8) -> Result<(Expr, u32), SyntaxError>
        requires { Nests self.now.room (F.pre self.now.expr) (F.post self.now.expr) }
        ensures { Reads (spec.whole (spec.expr self.now.room) self.now.room level tokens.old) result tokens.new }
    {
        let first = self.unary(tokens)?;
        let Some(op) = tokens.storing(level) else {
            return self.binary(tokens, level, first);
        };
        let (y, its_height) = self.part(tokens, 0)?;
        let (x, height) = first;
        let height = self.node(height.max(its_height))?;
        Ok((assign(self.alloc, op, x, y)?, height))
    }
}

/// An expression of this level, no higher than `height`, and its height.
pub fn expr(
    alloc: Global,
    tokens: &mut Tokens<'_>,
    height: u32,
    level: u8,
) -> Result<(Expr, u32), SyntaxError>
    requires { height ≤ 256 }
    ensures { Reads (spec.expr height level tokens.old) result tokens.new }
{
    if height == 0 {
        return Err(SyntaxError::NoTree);
    }
    Grammar {
        alloc,
        room: height - 1,
        expr,
    }
    .whole(tokens, level)
}
