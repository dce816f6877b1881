//! Typed expressions.

use crate::shape::Shape;
use osl_overload::Kind;
use osl_typed::{Argument, Increment, Part, Root, TypedExpr};
use osl_value::{Memory, OpName, Ty};

/// Whether an index or a component is taken.
fn is_part(part: &Part, indices: &[TypedExpr]) -> bool {
    part.component.is_some() || !indices.is_empty()
}

/// How a step is written.
fn step_text(step: Increment) -> &'static str {
    match step {
        Increment::PreIncrement => "++x",
        Increment::PreDecrement => "--x",
        Increment::PostIncrement => "x++",
        Increment::PostDecrement => "x--",
    }
}

/// Variables and parts.
impl Shape {
    fn root(&mut self, root: Root) -> Result<(), Memory> {
        match root {
            Root::Variable(number) => write!(&mut self.text, " ${number}")?,
            Root::Global(global) => self.word(global.name().as_bytes())?,
        }
        Ok(())
    }

    /// The fields of a part, and the kind that they lead to.
    fn fields_of(&mut self, part: &Part) -> Result<(), Memory> {
        for field in part.fields.as_slice() {
            write!(&mut self.text, ".{field}")?;
        }
        self.text.push_str(":")?;
        self.bare_kind(part.kind)
    }

    fn component(&mut self, part: &Part) -> Result<(), Memory> {
        if let Some(component) = part.component {
            write!(&mut self.text, " .{component}")?;
        }
        Ok(())
    }

    /// What stands before the indices of a variable or of a part of one.
    fn place_start(
        &mut self,
        root: Root,
        part: &Part,
        indices: &[TypedExpr],
    ) -> Result<(), Memory> {
        if is_part(part, indices) {
            self.open("part")?;
        }
        self.root(root)?;
        self.fields_of(part)
    }

    /// What stands behind them.
    fn place_end(&mut self, part: &Part, indices: &[TypedExpr]) -> Result<(), Memory> {
        self.component(part)?;
        if is_part(part, indices) {
            self.close()?;
        }
        Ok(())
    }
}

/// Expressions.
impl Shape {
    fn step(&mut self, step: Increment, ty: Ty, root: Root) -> Result<(), Memory> {
        self.open_of(step_text(step), Kind::Value(ty))?;
        self.root(root)?;
        self.close()
    }

    fn update(&mut self, op: OpName, ty: Ty) -> Result<(), Memory> {
        self.open("update")?;
        self.word(op.name().as_bytes())?;
        self.kind(Kind::Value(ty))
    }

    fn call(&mut self, number: u32, kind: Kind) -> Result<(), Memory> {
        write!(&mut self.text, " (call {number}")?;
        self.kind(kind)
    }

    /// What stands before an expression's parts.
    fn typed_head(&mut self, x: &TypedExpr) -> Result<(), Memory> {
        match x {
            TypedExpr::Int(n) => write!(&mut self.text, " {n}")?,
            TypedExpr::Float(value) => self.float(*value)?,
            TypedExpr::Text(bytes) => self.string(bytes.as_slice())?,
            TypedExpr::Exit => self.word(b"exit")?,
            TypedExpr::Step(step, ty, root) => self.step(*step, *ty, *root)?,
            TypedExpr::Variable(root, part, indices) => {
                self.place_start(*root, part, indices.as_slice())?
            }
            TypedExpr::Assign(root, part, indices, _) => {
                self.open("set")?;
                self.place_start(*root, part, indices.as_slice())?;
            }
            TypedExpr::Update(op, ty, root, part, indices, _) => {
                self.update(*op, *ty)?;
                self.place_start(*root, part, indices.as_slice())?;
            }
            TypedExpr::PartOf(kind, _, _, _) => self.open_of("part_of", *kind)?,
            TypedExpr::Call(number, kind, _) => self.call(*number, *kind)?,
            TypedExpr::Paren(kind, _) => self.open_of("paren", *kind)?,
            TypedExpr::Promote(ty, _) => self.open_of("promote", Kind::Value(*ty))?,
            TypedExpr::Apply(op, ty, _) => self.open_of(op.name(), Kind::Value(*ty))?,
            TypedExpr::And(_, _) => self.open("and")?,
            TypedExpr::Or(_, _) => self.open("or")?,
            TypedExpr::Choose(kind, _, _, _) => self.open_of("choose", *kind)?,
        }
        Ok(())
    }

    #[cycle(typed_expr)]
    pub(super) fn typed_expr(&mut self, x: &TypedExpr) -> Result<(), Memory> {
        self.typed_head(x)?;
        match x {
            TypedExpr::Int(_) | TypedExpr::Float(_) | TypedExpr::Text(_) => return Ok(()),
            TypedExpr::Exit | TypedExpr::Step(_, _, _) => return Ok(()),
            TypedExpr::Variable(_, part, indices) => {
                self.typed_exprs(indices.as_slice())?;
                return self.place_end(part, indices.as_slice());
            }
            TypedExpr::Assign(_, part, indices, a) | TypedExpr::Update(.., part, indices, a) => {
                self.typed_exprs(indices.as_slice())?;
                self.place_end(part, indices.as_slice())?;
                self.typed_expr(a.get())?;
            }
            TypedExpr::PartOf(_, a, part, indices) => {
                self.typed_expr(a.get())?;
                self.word(b"it")?;
                self.fields_of(part)?;
                self.typed_exprs(indices.as_slice())?;
                self.component(part)?;
            }
            TypedExpr::Call(_, _, args) => self.arguments(args.as_slice())?,
            TypedExpr::Paren(_, a) | TypedExpr::Promote(_, a) => self.typed_expr(a.get())?,
            TypedExpr::Apply(_, _, parts) => self.typed_exprs(parts.as_slice())?,
            TypedExpr::And(a, b) | TypedExpr::Or(a, b) => {
                self.typed_expr(a.get())?;
                self.typed_expr(b.get())?;
            }
            TypedExpr::Choose(_, c, a, b) => {
                self.typed_expr(c.get())?;
                self.typed_expr(a.get())?;
                self.typed_expr(b.get())?;
            }
        }
        self.close()
    }

    #[cycle(typed_expr)]
    pub(super) fn typed_exprs(&mut self, parts: &[TypedExpr]) -> Result<(), Memory> {
        for part in parts {
            self.typed_expr(part)?;
        }
        Ok(())
    }

    #[cycle(typed_expr)]
    fn argument(&mut self, a: &Argument) -> Result<(), Memory> {
        match a {
            Argument::In(a) => self.typed_expr(a),
            Argument::Out(root, part, indices) => {
                self.open("out")?;
                self.place_start(*root, part, indices.as_slice())?;
                self.typed_exprs(indices.as_slice())?;
                self.place_end(part, indices.as_slice())?;
                self.close()
            }
        }
    }

    #[cycle(typed_expr)]
    fn arguments(&mut self, args: &[Argument]) -> Result<(), Memory> {
        for arg in args {
            self.argument(arg)?;
        }
        Ok(())
    }
}
