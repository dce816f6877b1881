//! Rows of sources that have a typing, and of others that have none: each rule of typing at least once either way.

ghost use Rattle.std.specs.Prelude.{◌≤◌, length};

mod assignments;
mod calls;
mod constructors;
mod declarations;
mod functions;
mod operators;
mod parameters;
mod statements;
mod structures;

use crate::LIMIT;
use osl_check::{TypeError, check};
use osl_lex::{LexError, lex};
use osl_parse::{SyntaxError, parse};
use osl_typed::Typed;
use osl_value::Memory;
use std::alloc::Global;
use std::process::Abort;
use std::test::Fail;

/// What became of a source.
#[derive(Clone, Copy, Debug, PartialEq, Eq)]
pub enum Verdict {
    Typed,
    Untyped,
    NoTokens,
    NoTree,
}

/// The typed tree of a source, or the verdict that it has none.
pub(crate) fn typed_of(alloc: Global, source: &str) -> Result<Result<Typed, Verdict>, Memory>
    requires { length source.now ≤ LIMIT }
{
    let tokens = match lex(alloc, source.as_bytes()) {
        Ok(tokens) => tokens,
        Err(LexError::Bad { .. }) => return Ok(Err(Verdict::NoTokens)),
        Err(LexError::Memory) => return Err(Memory),
    };
    let tree = match parse(alloc, source.as_bytes(), tokens.as_slice()) {
        Ok(tree) => tree,
        Err(SyntaxError::NoTree) => return Ok(Err(Verdict::NoTree)),
        Err(SyntaxError::Memory) => return Err(Memory),
    };
    match check(alloc, &tree) {
        Ok(typed) => Ok(Ok(typed)),
        Err(TypeError::NoTyping) => Ok(Err(Verdict::Untyped)),
        Err(TypeError::Memory) => Err(Memory),
    }
}

/// What becomes of a source.
fn verdict_of(alloc: Global, source: &str) -> Result<Verdict, Memory>
    requires { length source.now ≤ LIMIT }
{
    match typed_of(alloc, source)? {
        Ok(_) => Ok(Verdict::Typed),
        Err(verdict) => Ok(verdict),
    }
}

/// Each source has this verdict.
fn all_have(rt: &impl Abort, alloc: Global, sources: &[&str], wanted: Verdict) -> Result<(), Fail> {
    for source in sources {
        assert!(rt; source.len() <= LIMIT);
        let found = verdict_of(alloc, source)?;
        assert_eq!(rt; found, wanted, "{source}");
    }
    Ok(())
}

/// Variables of each type, for statements of a surface shader.
const BEFORE: &str =
    "struct pair { float a; color b; int c[2]; }; struct twin { float a; color b; int c[2]; };
surface s(float given = 1, output float result = 0) {
    int i = 1; float f, g; color c; point p; vector v; normal n; matrix m; string t; closure color k;
    int is[3]; float fs[3], gs[3], hs[4]; color cs[2]; pair q, r; twin o;
    ";

/// One function for each type, each with a result of its own: where `kind` stands tells the type of its argument.
const KINDS: &str =
    "struct of_int { int a; }; struct of_float { int a; }; struct of_color { int a; };
struct of_point { int a; }; struct of_vector { int a; }; struct of_normal { int a; };
struct of_matrix { int a; }; struct of_string { int a; }; struct of_closure { int a; };
struct of_floats { int a; }; struct pair { float a; color b; int c[2]; };
of_int kind(int a) {} of_float kind(float a) {} of_color kind(color a) {}
of_point kind(point a) {} of_vector kind(vector a) {} of_normal kind(normal a) {}
of_matrix kind(matrix a) {} of_string kind(string a) {} of_closure kind(closure color a) {}
of_floats kind(float a[3]) {}
surface s() {
    of_int an_int; of_float a_float; of_color a_color; of_point a_point; of_vector a_vector;
    of_normal a_normal; of_matrix a_matrix; of_string a_string; of_closure a_closure; of_floats floats;
    int i; float f; color c; point p; vector v; normal n; matrix m; string t; closure color k;
    int is[3]; float fs[3], gs[3]; color cs[2]; normal ns[2]; pair q, r;
    ";

/// Each text stands for statements that have this verdict behind this beginning of a source.
fn all_have_behind(
    rt: &impl Abort,
    alloc: Global,
    beginning: &str,
    texts: &[&str],
    wanted: Verdict,
) -> Result<(), Fail> {
    for text in texts {
        let source = format!(in alloc; "{beginning}{text} }}")?;
        assert!(rt; source.len() <= LIMIT);
        let found = verdict_of(alloc, source.as_str())?;
        assert_eq!(rt; found, wanted, "{text}");
    }
    Ok(())
}
