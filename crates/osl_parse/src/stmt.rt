//! Declarations and statements. The rules of statements take the reader of the statements inside as
//! a parameter.

ghost use Rattle.std.specs.Prelude.{[], ◌<◌, ◌≤◌, length};
ghost use Rattle.osl_tree.specs.Parser as parser;
ghost use Rattle.osl_tree.specs.Reading as exprs;
ghost use Rattle.osl_tree.specs.StatementReading as spec;
ghost use Rattle.osl_tree.specs.FileReading as files;
ghost use Rattle.osl_parse.specs.Reads.{Reads, Parses};
ghost use Rattle.osl_parse.specs.Nests.{NestsStmt};

use crate::declaration::{condition, declaration, for_start, maybe};
use crate::error::SyntaxError;
use crate::expr::{expr, node};
use crate::tokens::Tokens;
use osl_tree::expr::Expr;
use osl_tree::stmt::{Start, Stmt};
use osl_tree::terminal::{Keyword, Terminal};
use osl_tree::token::Punct;
use sqlite_items::{Boxed, Items};
use std::alloc::Global;

/// The rules of statements, by a reader of the statements inside.
#[derive(Clone, Copy)]
pub struct Statements<F> {
    alloc: Global,
    /// How high a part may be.
    room: u32,
    /// Reads a statement that is no higher than a number.
    stmt: F,
}

impl<F: Fn(Global, &mut Tokens<'_>, u32) -> Result<(Stmt, u32), SyntaxError>> Statements<F> {
    /// A statement inside.
    fn part(&self, tokens: &mut Tokens<'_>) -> Result<(Stmt, u32), SyntaxError>
        requires { NestsStmt self.now.room (F.pre self.now.stmt) (F.post self.now.stmt) }
        ensures { Reads (spec.stmt self.now.room tokens.old) result tokens.new }
    {
        (self.stmt)(self.alloc, tokens, self.room)
    }

    /// The same, as a part of another statement.
    fn inner(&self, tokens: &mut Tokens<'_>) -> Result<(Boxed<Stmt>, u32), SyntaxError>
        requires { NestsStmt self.now.room (F.pre self.now.stmt) (F.post self.now.stmt) }
        ensures { Reads (spec.stmt self.now.room tokens.old) result tokens.new }
    {
        let (found, height) = self.part(tokens)?;
        Ok((Boxed::new(self.alloc, found)?, height))
    }

    /// The height of a node over parts of this height.
    fn node(&self, height: u32) -> Result<u32, SyntaxError>
        requires { NestsStmt self.now.room (F.pre self.now.stmt) (F.post self.now.stmt) }
        ensures { Parses (parser.height_over self.now.room height) result }
    {
        node(self.room, height)
    }

    /// An expression.
    fn inside(&self, tokens: &mut Tokens<'_>) -> Result<(Expr, u32), SyntaxError>
        requires { NestsStmt self.now.room (F.pre self.now.stmt) (F.post self.now.stmt) }
        ensures { Reads (exprs.expr self.now.room 0 tokens.old) result tokens.new }
    {
        expr(self.alloc, tokens, self.room, 0)
    }

    fn condition(&self, tokens: &mut Tokens<'_>) -> Result<(Expr, u32), SyntaxError>
        requires { NestsStmt self.now.room (F.pre self.now.stmt) (F.post self.now.stmt) }
        ensures { Reads (spec.condition self.now.room tokens.old) result tokens.new }
    {
        condition(self.alloc, tokens, self.room)
    }

    fn maybe(
        &self,
        tokens: &mut Tokens<'_>,
        close: Terminal,
    ) -> Result<(Option<Expr>, u32), SyntaxError>
        requires { NestsStmt self.now.room (F.pre self.now.stmt) (F.post self.now.stmt) }
        ensures { Reads (spec.maybe self.now.room close tokens.old) result tokens.new }
    {
        maybe(self.alloc, tokens, self.room, close)
    }

    /// Statements up to the closing brace.
    #[tactic(auto, unfolding(osl_tree::specs::StatementReading::stmts_from))]
    fn all(&self, tokens: &mut Tokens<'_>) -> Result<(Items<Stmt>, u32), SyntaxError>
        requires { NestsStmt self.now.room (F.pre self.now.stmt) (F.post self.now.stmt) }
        ensures { Reads (spec.stmts_from (spec.stmt self.now.room) self.now.room (length tokens.old) [] 1 tokens.old) result tokens.new }
    {
        let mut all = Items::new(self.alloc);
        let mut height = 1;
        for _turn in 0..tokens.len() {
            if tokens.eat(Terminal::Punct(Punct::CloseBrace)) {
                return Ok((all, height));
            }
            let (item, its_height) = self.part(tokens)?;
            all.push(item)?;
            height = height.max(its_height);
        }
        Err(SyntaxError::NoTree)
    }

    /// A block after its brace.
    #[tactic(auto, unfolding(osl_tree::specs::StatementReading::block))]
    pub fn block(&self, tokens: &mut Tokens<'_>) -> Result<(Items<Stmt>, u32), SyntaxError>
        requires { NestsStmt self.now.room (F.pre self.now.stmt) (F.post self.now.stmt) }
        ensures { Reads (spec.block (spec.stmt self.now.room) self.now.room tokens.old) result tokens.new }
    {
        let (all, height) = self.all(tokens)?;
        let height = self.node(height)?;
        Ok((all, height))
    }

    fn block_stmt(&self, tokens: &mut Tokens<'_>) -> Result<(Stmt, u32), SyntaxError>
        requires { NestsStmt self.now.room (F.pre self.now.stmt) (F.post self.now.stmt) }
        ensures { Reads (spec.formed (spec.stmt self.now.room) self.now.room (Some Start.Block) tokens.old) result tokens.new }
    {
        let (all, height) = self.block(tokens)?;
        Ok((Stmt::Block(all), height))
    }

    #[tactic(auto, unfolding(osl_tree::specs::StatementReading::ended))]
    fn break_stmt(&self, tokens: &mut Tokens<'_>) -> Result<(Stmt, u32), SyntaxError>
        requires { NestsStmt self.now.room (F.pre self.now.stmt) (F.post self.now.stmt) }
        ensures { Reads (spec.ended (spec.stmt self.now.room) self.now.room Stmt.Break tokens.old) result tokens.new }
    {
        tokens.expect(Terminal::Punct(Punct::Semicolon))?;
        let height = self.node(1)?;
        Ok((Stmt::Break, height))
    }

    #[tactic(auto, unfolding(osl_tree::specs::StatementReading::ended))]
    fn continue_stmt(&self, tokens: &mut Tokens<'_>) -> Result<(Stmt, u32), SyntaxError>
        requires { NestsStmt self.now.room (F.pre self.now.stmt) (F.post self.now.stmt) }
        ensures { Reads (spec.ended (spec.stmt self.now.room) self.now.room Stmt.Continue tokens.old) result tokens.new }
    {
        tokens.expect(Terminal::Punct(Punct::Semicolon))?;
        let height = self.node(1)?;
        Ok((Stmt::Continue, height))
    }

    #[tactic(auto, unfolding(osl_tree::specs::StatementReading::returned))]
    fn returned(&self, tokens: &mut Tokens<'_>) -> Result<(Stmt, u32), SyntaxError>
        requires { NestsStmt self.now.room (F.pre self.now.stmt) (F.post self.now.stmt) }
        ensures { Reads (spec.returned (spec.stmt self.now.room) self.now.room tokens.old) result tokens.new }
    {
        let (value, height) = self.maybe(tokens, Terminal::Punct(Punct::Semicolon))?;
        tokens.expect(Terminal::Punct(Punct::Semicolon))?;
        let height = self.node(height)?;
        Ok((Stmt::Return(value), height))
    }

    #[tactic(auto, unfolding(osl_tree::specs::StatementReading::choice))]
    fn choice(&self, tokens: &mut Tokens<'_>) -> Result<(Stmt, u32), SyntaxError>
        requires { NestsStmt self.now.room (F.pre self.now.stmt) (F.post self.now.stmt) }
        ensures { Reads (spec.choice (spec.stmt self.now.room) self.now.room tokens.old) result tokens.new }
    {
        let (condition, first) = self.condition(tokens)?;
        let (body, second) = self.inner(tokens)?;
        if !tokens.eat(Terminal::Keyword(Keyword::Else)) {
            let height = self.node(first.max(second))?;
            return Ok((Stmt::If(condition, body, None), height));
        }
        let (other_body, third) = self.inner(tokens)?;
        let height = self.node(first.max(second.max(third)))?;
        Ok((Stmt::If(condition, body, Some(other_body)), height))
    }

    #[tactic(auto, unfolding(osl_tree::specs::StatementReading::while_loop))]
    fn while_loop(&self, tokens: &mut Tokens<'_>) -> Result<(Stmt, u32), SyntaxError>
        requires { NestsStmt self.now.room (F.pre self.now.stmt) (F.post self.now.stmt) }
        ensures { Reads (spec.while_loop (spec.stmt self.now.room) self.now.room tokens.old) result tokens.new }
    {
        let (condition, first) = self.condition(tokens)?;
        let (body, second) = self.inner(tokens)?;
        let height = self.node(first.max(second))?;
        Ok((Stmt::While(condition, body), height))
    }

    #[tactic(auto, unfolding(osl_tree::specs::StatementReading::do_loop))]
    fn do_loop(&self, tokens: &mut Tokens<'_>) -> Result<(Stmt, u32), SyntaxError>
        requires { NestsStmt self.now.room (F.pre self.now.stmt) (F.post self.now.stmt) }
        ensures { Reads (spec.do_loop (spec.stmt self.now.room) self.now.room tokens.old) result tokens.new }
    {
        let (body, first) = self.inner(tokens)?;
        tokens.expect(Terminal::Keyword(Keyword::While))?;
        let (condition, second) = self.condition(tokens)?;
        tokens.expect(Terminal::Punct(Punct::Semicolon))?;
        let height = self.node(first.max(second))?;
        Ok((Stmt::DoWhile(body, condition), height))
    }

    #[tactic(auto, unfolding(osl_tree::specs::StatementReading::for_loop))]
    fn for_loop(&self, tokens: &mut Tokens<'_>) -> Result<(Stmt, u32), SyntaxError>
        requires { NestsStmt self.now.room (F.pre self.now.stmt) (F.post self.now.stmt) }
        ensures { Reads (spec.for_loop (spec.stmt self.now.room) self.now.room tokens.old) result tokens.new }
    {
        tokens.expect(Terminal::Punct(Punct::OpenParen))?;
        let (start, first) = for_start(self.alloc, tokens, self.room)?;
        let (condition, second) = self.maybe(tokens, Terminal::Punct(Punct::Semicolon))?;
        tokens.expect(Terminal::Punct(Punct::Semicolon))?;
        let (step, third) = self.maybe(tokens, Terminal::Punct(Punct::CloseParen))?;
        tokens.expect(Terminal::Punct(Punct::CloseParen))?;
        let (body, fourth) = self.part(tokens)?;
        let height = self.node(first.max(second).max(third.max(fourth)))?;
        let body = Boxed::new(self.alloc, body)?;
        Ok((Stmt::For(start, condition, step, body), height))
    }

    #[tactic(auto, unfolding(osl_tree::specs::StatementReading::plain))]
    fn plain(&self, tokens: &mut Tokens<'_>) -> Result<(Stmt, u32), SyntaxError>
        requires { NestsStmt self.now.room (F.pre self.now.stmt) (F.post self.now.stmt) }
        ensures { Reads (spec.plain (spec.stmt self.now.room) self.now.room tokens.old) result tokens.new }
    {
        let (x, height) = self.inside(tokens)?;
        tokens.expect(Terminal::Punct(Punct::Semicolon))?;
        let height = self.node(height)?;
        Ok((Stmt::Expr(x), height))
    }

    #[tactic(auto, unfolding(osl_tree::specs::StatementReading::other))]
    fn other(&self, tokens: &mut Tokens<'_>) -> Result<(Stmt, u32), SyntaxError>
        requires { NestsStmt self.now.room (F.pre self.now.stmt) (F.post self.now.stmt) }
        ensures { Reads (spec.other (spec.stmt self.now.room) self.now.room tokens.old) result tokens.new }
    {
        if !tokens.declares() {
            return self.plain(tokens);
        }
        let (found, height) = declaration(self.alloc, tokens, self.room)?;
        Ok((Stmt::Declare(found), height))
    }

    fn formed(
        &self,
        tokens: &mut Tokens<'_>,
        start: Option<Start>,
    ) -> Result<(Stmt, u32), SyntaxError>
        requires { NestsStmt self.now.room (F.pre self.now.stmt) (F.post self.now.stmt) }
        ensures { Reads (spec.formed (spec.stmt self.now.room) self.now.room start tokens.old) result tokens.new }
    {
        match start {
            Some(Start::Empty) => Ok((Stmt::Empty, 1)),
            Some(Start::Block) => self.block_stmt(tokens),
            Some(Start::Break) => self.break_stmt(tokens),
            Some(Start::Continue) => self.continue_stmt(tokens),
            Some(Start::Return) => self.returned(tokens),
            Some(Start::If) => self.choice(tokens),
            Some(Start::While) => self.while_loop(tokens),
            Some(Start::Do) => self.do_loop(tokens),
            Some(Start::For) => self.for_loop(tokens),
            None => self.other(tokens),
        }
    }

    #[tactic(auto, unfolding(osl_tree::specs::StatementReading::form))]
    pub fn form(&self, tokens: &mut Tokens<'_>) -> Result<(Stmt, u32), SyntaxError>
        requires { NestsStmt self.now.room (F.pre self.now.stmt) (F.post self.now.stmt) }
        ensures { Reads (spec.form (spec.stmt self.now.room) self.now.room tokens.old) result tokens.new }
    {
        let start = tokens.start();
        self.formed(tokens, start)
    }
}

/// A statement no higher than `height`, and its height.
pub fn stmt(alloc: Global, tokens: &mut Tokens<'_>, height: u32) -> Result<(Stmt, u32), SyntaxError>
    requires { height ≤ 256 }
    ensures { Reads (spec.stmt height tokens.old) result tokens.new }
{
    if height == 0 {
        return Err(SyntaxError::NoTree);
    }
    Statements {
        alloc,
        room: height - 1,
        stmt,
    }
    .form(tokens)
}

/// A block with its braces, whose parts are no higher than `room`, and its height.
#[tactic(auto, unfolding(osl_tree::specs::FileReading::body))]
pub fn body(
    alloc: Global,
    tokens: &mut Tokens<'_>,
    room: u32,
) -> Result<(Items<Stmt>, u32), SyntaxError>
    requires { room < 256 }
    ensures { Reads (files.body room tokens.old) result tokens.new }
{
    tokens.expect(Terminal::Punct(Punct::OpenBrace))?;
    Statements { alloc, room, stmt }.block(tokens)
}
