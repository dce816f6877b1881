//! Typed statements.

use crate::shape::Shape;
use osl_typed::{Declared, TypedExpr, TypedForStart, TypedInit, TypedStmt};
use osl_value::Memory;

impl Shape {
    fn maybe_typed(&mut self, x: &Option<TypedExpr>) -> Result<(), Memory> {
        match x {
            Some(x) => self.typed_expr(x),
            None => self.word(b"_"),
        }
    }

    pub(super) fn typed_init(&mut self, init: &TypedInit) -> Result<(), Memory> {
        match init {
            TypedInit::Expr(x) => self.typed_expr(x),
            TypedInit::List(parts) => {
                self.open("list")?;
                self.typed_exprs(parts.as_slice())?;
                self.close()
            }
        }
    }

    fn declared_name(&mut self, d: &Declared) -> Result<(), Memory> {
        write!(&mut self.text, " ${}:", d.number)?;
        self.bare_kind(d.kind)
    }

    fn declared(&mut self, d: &Declared) -> Result<(), Memory> {
        let Some(init) = &d.init else {
            return self.declared_name(d);
        };
        self.open("let")?;
        self.declared_name(d)?;
        self.typed_init(init)?;
        self.close()
    }

    fn all_declared(&mut self, ds: &[Declared]) -> Result<(), Memory> {
        for d in ds {
            self.declared(d)?;
        }
        Ok(())
    }

    fn typed_start(&mut self, start: &TypedForStart) -> Result<(), Memory> {
        match start {
            TypedForStart::Nothing => self.word(b"_"),
            TypedForStart::Expr(x) => self.typed_expr(x),
            TypedForStart::Declare(ds) => {
                self.open("declare")?;
                self.all_declared(ds.as_slice())?;
                self.close()
            }
        }
    }

    /// What stands before a statement's parts.
    fn typed_stmt_head(&mut self, stmt: &TypedStmt) -> Result<(), Memory> {
        match stmt {
            TypedStmt::Empty => self.word(b"empty"),
            TypedStmt::Break => self.word(b"break"),
            TypedStmt::Continue => self.word(b"continue"),
            TypedStmt::Expr(_) => Ok(()),
            TypedStmt::Declare(_) => self.open("declare"),
            TypedStmt::Block(_) => self.open("block"),
            TypedStmt::Return(_) => self.open("return"),
            TypedStmt::If(_, _, _) => self.open("if"),
            TypedStmt::While(_, _) => self.open("while"),
            TypedStmt::DoWhile(_, _) => self.open("do"),
            TypedStmt::For(_, _, _, _) => self.open("for"),
        }
    }

    #[cycle(typed_stmt)]
    pub fn typed_stmt(&mut self, stmt: &TypedStmt) -> Result<(), Memory> {
        self.typed_stmt_head(stmt)?;
        match stmt {
            TypedStmt::Empty | TypedStmt::Break | TypedStmt::Continue => return Ok(()),
            TypedStmt::Expr(x) => return self.typed_expr(x),
            TypedStmt::Declare(ds) => self.all_declared(ds.as_slice())?,
            TypedStmt::Block(stmts) => self.typed_stmts(stmts.as_slice())?,
            TypedStmt::Return(x) => self.maybe_typed(x)?,
            TypedStmt::If(c, then, other) => {
                self.typed_expr(c)?;
                self.typed_stmt(then.get())?;
                if let Some(other) = other {
                    self.typed_stmt(other.get())?;
                }
            }
            TypedStmt::While(c, body) => {
                self.typed_expr(c)?;
                self.typed_stmt(body.get())?;
            }
            TypedStmt::DoWhile(body, c) => {
                self.typed_stmt(body.get())?;
                self.typed_expr(c)?;
            }
            TypedStmt::For(start, c, step, body) => {
                self.typed_start(start)?;
                self.maybe_typed(c)?;
                self.maybe_typed(step)?;
                self.typed_stmt(body.get())?;
            }
        }
        self.close()
    }

    #[cycle(typed_stmt)]
    pub(super) fn typed_stmts(&mut self, stmts: &[TypedStmt]) -> Result<(), Memory> {
        for stmt in stmts {
            self.typed_stmt(stmt)?;
        }
        Ok(())
    }
}
