//! Typed trees as text.
//!
//! - `$2` is the declared variable of number 2; a global variable stands by its name.
//! - `$2:float` and `u:float` are read or written whole. `$2.1.0:color` is a field of a field: the numbers of the
//!   fields, and the kind that they lead to.
//! - `(part $2:color[4] $3:int .1)` is a component of an element: behind the fields stand the indices, and then the
//!   number of a component that is named. `(part_of struct0 a it.1:int[2] $3:int)` is a part of the value a.
//! - `(promote float 2)`, `(paren float a)`, `(choose float c a b)` and operations, as `(sub float a b)`, have the kind
//!   that they give behind their name; `struct0` is the structure of number 0.
//! - `(set x a)` is `x = a`, `(update sub float x a)` is `x -= a` with the type of the difference, and `(x++ int $2)`
//!   is a step.
//! - `(call 3 void a (out x))` calls the declared function of number 3, with an output argument x.
//! - `(declare $2:int (let $3:float a))` is `int x; float y = a` in one; `(list a b)` is a list in braces, and `_`
//!   stands for an expression that is missing.
//! - `(struct float int)` has kinds of fields, `(function float (formals color (out int)) (frame ..) ..)` gives a
//!   float. `(frame ..)` has the kinds of all variables by their numbers, and the statements stand behind it.
//!
//! So the text says all of a tree but the lengths of its longest name and string, which have rows of their own.

mod exprs;
mod kinds;
mod stmts;

use super::Shape;
use osl_overload::{Formal, Kind};
use osl_typed::{TypedDatum, TypedFunction, TypedParam, TypedShader};
use osl_value::{Memory, ShaderKind};

/// The word of a shader's kind.
fn kind_word(kind: ShaderKind) -> &'static str {
    match kind {
        ShaderKind::Surface => "surface",
        ShaderKind::Displacement => "displacement",
        ShaderKind::Volume => "volume",
        ShaderKind::Shader => "shader",
    }
}

impl Shape {
    fn typed_formal(&mut self, formal: &Formal) -> Result<(), Memory> {
        if !formal.output {
            return self.kind(formal.kind);
        }
        self.open_of("out", formal.kind)?;
        self.close()
    }

    fn typed_function(&mut self, function: &TypedFunction) -> Result<(), Memory> {
        self.open_of("function", function.result)?;
        self.open("formals")?;
        for formal in function.formals.as_slice() {
            self.typed_formal(formal)?;
        }
        self.close()?;
        self.kinds("frame", function.frame.as_slice())?;
        self.typed_stmts(function.body.as_slice())?;
        self.close()
    }

    fn typed_data(&mut self, data: &[TypedDatum]) -> Result<(), Memory> {
        for datum in data {
            self.open_of("datum", Kind::Value(datum.ty))?;
            self.word(datum.name.as_slice())?;
            self.typed_init(&datum.init)?;
            self.close()?;
        }
        Ok(())
    }

    fn typed_param(&mut self, param: &TypedParam) -> Result<(), Memory> {
        let word = if param.output { "output" } else { "input" };
        self.open_of(word, Kind::Value(param.ty))?;
        self.word(param.name.as_slice())?;
        self.typed_init(&param.init)?;
        self.typed_data(param.metadata.as_slice())?;
        self.close()
    }

    /// Writes a whole typed tree.
    pub fn typed_tree(&mut self, shader: &TypedShader) -> Result<(), Memory> {
        for structure in shader.structures.as_slice() {
            self.kinds("struct", structure.fields.as_slice())?;
        }
        for function in shader.functions.as_slice() {
            self.typed_function(function)?;
        }
        self.open(kind_word(shader.kind))?;
        self.word(shader.name.as_slice())?;
        self.typed_data(shader.metadata.as_slice())?;
        for param in shader.params.as_slice() {
            self.typed_param(param)?;
        }
        self.kinds("frame", shader.frame.as_slice())?;
        self.typed_stmts(shader.body.as_slice())?;
        self.close()
    }
}
