//! Rows of sources with what their typed trees say, as text (`src/shape/typed.rt` explains it). Each text was worked
//! out by hand from the rules of typing.

ghost use Rattle.std.specs.Prelude.{◌≤◌, length};

mod calls;
mod examples;
mod expressions;
mod parts;
mod shaders;
mod statements;

use crate::LIMIT;
use crate::shape::Shape;
use crate::typing::typed_of;
use osl_value::Memory;
use std::alloc::Global;
use std::process::Abort;
use std::test::Fail;

/// A source or statements, and the text of the typed tree.
type Row = (&'static str, &'static str);

/// Structures, functions and variables of each type, for statements of a surface shader. The structures are `struct0`
/// and `struct1`, the functions have the numbers 0 to 8, and the variables are, in their order:
/// `$0` r, `$1` i, `$2` j, `$3` f, `$4` g, `$5` c, `$6` d, `$7` p, `$8` v, `$9` n, `$10` m, `$11` l, `$12` t, `$13` w,
/// `$14` k, `$15` h, `$16` is, `$17` fs, `$18` cs, `$19` q, `$20` e. What a row declares begins at `$21`.
const BEFORE: &str =
    "struct pair { float a; color b; int c[2]; }; struct nest { int n; pair p; vector w; };
pair made(float x) { pair y = {x}; return y; }
void give(output float x) { x = 1; }
void swap(output float x, output float y) { float z = x; x = y; y = z; }
void fill(output pair x, output float y[3], int z) { x.a = z; y[0] = z; }
void take(closure color x, output closure color y) { y = x; }
float pick(float x, int y) { return x; }
int pick(int x, float y) { return x; }
color pick(color x, color y) { return y; }
void none() { }
surface s(output float r = 0) {
    int i, j; float f, g; color c, d; point p; vector v; normal n; matrix m, l; string t, w; closure color k, h;
    int is[3]; float fs[3]; color cs[2]; pair q; nest e;
    ";

/// The typed tree of a source as text.
fn tree_of(alloc: Global, source: &str) -> Result<Shape, Memory>
    requires { length source.now ≤ LIMIT }
{
    let mut shape = Shape::new(alloc);
    match typed_of(alloc, source)? {
        Ok(typed) => shape.typed_tree(typed.shader())?,
        Err(_) => shape.word(b"none")?,
    }
    Ok(shape)
}

/// The last statement of a source as text.
fn last_of(alloc: Global, source: &str) -> Result<Shape, Memory>
    requires { length source.now ≤ LIMIT }
{
    let mut shape = Shape::new(alloc);
    match typed_of(alloc, source)? {
        Ok(typed) => match typed.shader().body.as_slice().last() {
            Some(stmt) => shape.typed_stmt(stmt)?,
            None => shape.word(b"empty body")?,
        },
        Err(_) => shape.word(b"none")?,
    }
    Ok(shape)
}

/// Each source has the tree of this text.
fn all_say(rt: &impl Abort, alloc: Global, rows: &[Row]) -> Result<(), Fail> {
    for &(source, text) in rows {
        assert!(rt; source.len() <= LIMIT);
        let found = tree_of(alloc, source)?;
        assert_eq!(rt; found.as_str(), text, "{source}");
    }
    Ok(())
}

/// Statements behind `BEFORE`, in a block of their own, have the trees of these texts.
fn all_say_behind(rt: &impl Abort, alloc: Global, rows: &[Row]) -> Result<(), Fail> {
    for &(stmts, text) in rows {
        let source = format!(in alloc; "{BEFORE}{{ {stmts} }} }}")?;
        assert!(rt; source.len() <= LIMIT);
        let found = last_of(alloc, source.as_str())?;
        let wanted = format!(in alloc; "(block {text})")?;
        assert_eq!(rt; found.as_str(), wanted.as_str(), "{stmts}");
    }
    Ok(())
}
