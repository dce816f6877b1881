//! Tokens and syntax trees as text.

use super::Shape;
use osl_tree::expr::Expr;
use osl_tree::stmt::{Declaration, ForStart, Init, Item, Stmt, TypeName, Var};
use osl_tree::token::{LexKind, Token, TokenKind};
use osl_tree::tree::{Datum, Definition, Fields, Formal, Param, Tree};
use osl_value::Memory;

impl Shape {
    /// Writes a token's kind or number, and its place.
    pub fn token(&mut self, token: &Token) -> Result<(), Memory> {
        match token.kind {
            TokenKind::Word => self.word(b"Word")?,
            TokenKind::Int(n) => write!(&mut self.text, " {n}")?,
            TokenKind::Float(value) => self.float(value)?,
            TokenKind::Str => self.word(b"Str")?,
            TokenKind::Punct(mark) => write!(&mut self.text, " {mark:?}")?,
        }
        write!(&mut self.text, " {}-{}", token.start, token.end)?;
        Ok(())
    }

    /// Writes a fault, and its place.
    pub fn fault(&mut self, kind: LexKind, at: u32) -> Result<(), Memory> {
        write!(&mut self.text, " {kind:?} {at}")?;
        Ok(())
    }

    fn head(&mut self, x: &Expr) -> Result<(), Memory> {
        match x {
            Expr::Int(n) => write!(&mut self.text, " {n}")?,
            Expr::Float(value) => self.float(*value)?,
            Expr::Text(bytes) => self.string(bytes.as_slice())?,
            Expr::Name(name) => self.word(name.as_slice())?,
            Expr::Call(name, _) => {
                self.open("Call")?;
                self.word(name.as_slice())?;
            }
            Expr::Construct(to, _) => write!(&mut self.text, " ({to:?}")?,
            Expr::Paren(_) => self.open("Paren")?,
            Expr::Index(_, _) => self.open("Index")?,
            Expr::Field(_, _) => self.open("Field")?,
            Expr::Postfix(op, _) => write!(&mut self.text, " (Postfix{op:?}")?,
            Expr::Prefix(op, _) => write!(&mut self.text, " ({op:?}")?,
            Expr::Cast(to, _) => write!(&mut self.text, " (Cast {to:?}")?,
            Expr::Binary(op, _, _) => write!(&mut self.text, " ({op:?}")?,
            Expr::Choice(_, _, _) => self.open("Choice")?,
            Expr::Assign(op, _, _) => write!(&mut self.text, " (Assign{op:?}")?,
        }
        Ok(())
    }

    fn expr(&mut self, x: &Expr) -> Result<(), Memory> {
        self.head(x)?;
        match x {
            Expr::Int(_) | Expr::Float(_) | Expr::Text(_) | Expr::Name(_) => return Ok(()),
            Expr::Call(_, parts) | Expr::Construct(_, parts) => {
                for part in parts.as_slice() {
                    self.expr(part)?;
                }
            }
            Expr::Paren(a) | Expr::Postfix(_, a) | Expr::Prefix(_, a) | Expr::Cast(_, a) => {
                self.expr(a.get())?
            }
            Expr::Field(a, name) => {
                self.expr(a.get())?;
                self.word(name.as_slice())?;
            }
            Expr::Index(a, b) | Expr::Binary(_, a, b) | Expr::Assign(_, a, b) => {
                self.expr(a.get())?;
                self.expr(b.get())?;
            }
            Expr::Choice(a, b, c) => {
                self.expr(a.get())?;
                self.expr(b.get())?;
                self.expr(c.get())?;
            }
        }
        self.close()
    }

    fn maybe(&mut self, x: &Option<Expr>) -> Result<(), Memory> {
        match x {
            Some(x) => self.expr(x)?,
            None => self.text.push_str(" _")?,
        }
        Ok(())
    }

    fn type_name(&mut self, ty: &TypeName) -> Result<(), Memory> {
        match ty {
            TypeName::Base(base) => write!(&mut self.text, " {base:?}")?,
            TypeName::Struct(name) => self.word(name.as_slice())?,
        }
        Ok(())
    }

    fn item(&mut self, item: &Item) -> Result<(), Memory> {
        self.word(item.name.as_slice())?;
        if let Some(len) = item.len {
            write!(&mut self.text, "[{len}]")?;
        }
        Ok(())
    }

    fn init(&mut self, init: &Init) -> Result<(), Memory> {
        match init {
            Init::Expr(x) => self.expr(x),
            Init::List(parts) => {
                self.open("List")?;
                for part in parts.as_slice() {
                    self.expr(part)?;
                }
                self.close()
            }
        }
    }

    fn var(&mut self, var: &Var) -> Result<(), Memory> {
        let Some(init) = &var.init else {
            return self.item(&var.item);
        };
        self.open("Set")?;
        self.item(&var.item)?;
        self.init(init)?;
        self.close()
    }

    fn declaration(&mut self, declaration: &Declaration) -> Result<(), Memory> {
        self.open("Declare")?;
        self.type_name(&declaration.ty)?;
        for var in declaration.vars.as_slice() {
            self.var(var)?;
        }
        self.close()
    }

    fn for_start(&mut self, start: &ForStart) -> Result<(), Memory> {
        match start {
            ForStart::Nothing => self.word(b"_"),
            ForStart::Expr(x) => self.expr(x),
            ForStart::Declare(declaration) => self.declaration(declaration),
        }
    }

    #[cycle(stmt)]
    fn block(&mut self, stmts: &[Stmt]) -> Result<(), Memory> {
        self.open("Block")?;
        for stmt in stmts {
            self.stmt(stmt)?;
        }
        self.close()
    }

    #[cycle(stmt)]
    fn stmt(&mut self, stmt: &Stmt) -> Result<(), Memory> {
        match stmt {
            Stmt::Empty => return self.word(b"Empty"),
            Stmt::Break => return self.word(b"Break"),
            Stmt::Continue => return self.word(b"Continue"),
            Stmt::Expr(x) => return self.expr(x),
            Stmt::Declare(declaration) => return self.declaration(declaration),
            Stmt::Block(stmts) => return self.block(stmts.as_slice()),
            Stmt::Return(x) => {
                self.open("Return")?;
                self.maybe(x)?;
            }
            Stmt::If(x, then, other) => {
                self.open("If")?;
                self.expr(x)?;
                self.stmt(then.get())?;
                if let Some(other) = other {
                    self.stmt(other.get())?;
                }
            }
            Stmt::While(x, body) => {
                self.open("While")?;
                self.expr(x)?;
                self.stmt(body.get())?;
            }
            Stmt::DoWhile(body, x) => {
                self.open("Do")?;
                self.stmt(body.get())?;
                self.expr(x)?;
            }
            Stmt::For(start, x, y, body) => {
                self.open("For")?;
                self.for_start(start)?;
                self.maybe(x)?;
                self.maybe(y)?;
                self.stmt(body.get())?;
            }
        }
        self.close()
    }

    fn fields(&mut self, fields: &Fields) -> Result<(), Memory> {
        self.open("Fields")?;
        self.type_name(&fields.ty)?;
        for item in fields.items.as_slice() {
            self.item(item)?;
        }
        self.close()
    }

    fn formal(&mut self, formal: &Formal) -> Result<(), Memory> {
        self.open(if formal.output { "Output" } else { "Input" })?;
        self.type_name(&formal.ty)?;
        self.item(&formal.item)?;
        self.close()
    }

    fn definition(&mut self, definition: &Definition) -> Result<(), Memory> {
        match definition {
            Definition::Structure(structure) => {
                self.open("Structure")?;
                self.word(structure.name.as_slice())?;
                for fields in structure.fields.as_slice() {
                    self.fields(fields)?;
                }
            }
            Definition::Function(function) => {
                self.open("Function")?;
                match &function.result {
                    Some(ty) => self.type_name(ty)?,
                    None => self.word(b"Void")?,
                }
                self.word(function.name.as_slice())?;
                for formal in function.formals.as_slice() {
                    self.formal(formal)?;
                }
                self.block(function.body.as_slice())?;
            }
        }
        self.close()
    }

    fn metadata(&mut self, data: &[Datum]) -> Result<(), Memory> {
        for datum in data {
            self.open("Datum")?;
            self.type_name(&datum.ty)?;
            self.item(&datum.item)?;
            self.init(&datum.init)?;
            self.close()?;
        }
        Ok(())
    }

    fn param(&mut self, param: &Param) -> Result<(), Memory> {
        self.open(if param.output { "Output" } else { "Input" })?;
        self.type_name(&param.ty)?;
        self.item(&param.item)?;
        self.init(&param.init)?;
        self.metadata(param.metadata.as_slice())?;
        self.close()
    }

    /// Writes a whole tree.
    pub fn tree(&mut self, tree: &Tree) -> Result<(), Memory> {
        for definition in tree.definitions.as_slice() {
            self.definition(definition)?;
        }
        let shader = &tree.shader;
        write!(&mut self.text, " ({:?}", shader.kind)?;
        self.word(shader.name.as_slice())?;
        self.metadata(shader.metadata.as_slice())?;
        for param in shader.params.as_slice() {
            self.param(param)?;
        }
        self.block(shader.body.as_slice())?;
        self.close()
    }
}
