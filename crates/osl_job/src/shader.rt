//! The small form of shaders that is built today, read from a source's tokens.

ghost use Rattle.std.specs.Prelude.{◌≡◌, ◌+◌, ◌<◌, ◌≤◌, true, [], ◌∷◌, length, Some, IfOk, IfSome};
ghost use Rattle.std.specs.List.{list_all};
ghost use Rattle.osl_tree.specs.Lexemes.{lexemes};
ghost use Rattle.osl_tree.specs.Parser.{first, take_as};
ghost use Rattle.osl_job.specs.SmallNames.{fits, assignment_fits, output_named, is_tied};
ghost use Rattle.osl_tree.specs.Sources.{LieWithin};
ghost use Rattle.osl_job.specs.Reader.{Reads, ReadsWhole, OnlyMemory};
ghost use Rattle.osl_job.specs.Small as spec;
ghost use Rattle.osl_job.specs.Small.{AreTied};

use crate::small::{Assignment, Expr, Param, SmallShader, SumOp, find_output, find_param};
use crate::text::ReadStop;
use crate::tokens::Tokens;
use osl_tree::terminal::{Keyword, Terminal};
use osl_tree::token::{Punct, Token};
use osl_value::Fx;
use sqlite_items::{Boxed, Items};
use std::alloc::Global;

/// The longest name, in bytes.
const LONGEST_NAME: usize = 32;

/// The most parameters behind the first.
const MORE_PARAMS: u32 = 15;

/// The most operands of a sum behind the first.
const MORE_OPERANDS: u32 = 15;

/// The most assignments.
const ASSIGNMENTS: u32 = 64;

/// The shader that these tokens of the source spell.
pub fn read_shader(alloc: Global, source: &[u8], tokens: &[Token]) -> Result<SmallShader, ReadStop>
    requires { LieWithin source.now tokens.now }
    ensures read { ReadsWhole (spec.small_shader (lexemes source.now tokens.now)) result }
    ensures tied { IfOk result (λ t. is_tied t ≡ true) }
    ensures few { IfOk result (λ t. length t.params ≤ 16) }
{
    let mut tokens = Tokens::new(source, tokens);
    let shader = shader(alloc, &mut tokens)?;
    if tokens.is_end() {
        Ok(shader)
    } else {
        Err(ReadStop::NotBuilt)
    }
}

fn shader(alloc: Global, tokens: &mut Tokens<'_>) -> Result<SmallShader, ReadStop>
    ensures read { Reads (spec.shader tokens.old) result tokens.new }
    ensures tied { IfOk result (λ t. is_tied t ≡ true) }
    ensures few { IfOk result (λ t. length t.params ≤ 16) }
{
    tokens.expect(Terminal::Keyword(Keyword::Shader))?;
    let name = new_name(alloc, tokens, &[])?;
    tokens.expect(Terminal::Punct(Punct::OpenParen))?;
    let params = params(alloc, tokens)?;
    tokens.expect(Terminal::Punct(Punct::CloseParen))?;
    tokens.expect(Terminal::Punct(Punct::OpenBrace))?;
    let body = assignments(alloc, tokens, params.as_slice(), ASSIGNMENTS)?;
    Ok(SmallShader { name, params, body })
}

/// One parameter, or several behind one another with commas.
fn params(alloc: Global, tokens: &mut Tokens<'_>) -> Result<Items<Param>, ReadStop>
    ensures read { Reads (spec.parameters tokens.old) result tokens.new }
    ensures tied { IfOk result AreTied }
    ensures few { IfOk result (λ params. length params ≤ 16) }
{
    let first = param(alloc, tokens, &[])?;
    let mut params = Items::new(alloc);
    params.push(first)?;
    Ok(more_params(alloc, tokens, MORE_PARAMS, params)?)
}

/// Parameters behind the first ones, so many more at most.
#[tactic(auto, unfolding(crate::specs::Small::more_params))]
fn more_params(
    alloc: Global,
    tokens: &mut Tokens<'_>,
    room: u32,
    first: Items<Param>,
) -> Result<Items<Param>, ReadStop>
    requires fits { length first + room ≤ 16 }
    requires tied { AreTied first }
    ensures read { Reads (spec.more_params room first tokens.old) result tokens.new }
    ensures tied { IfOk result AreTied }
    ensures few { IfOk result (λ params. length params ≤ 16) }
{
    let mut params = first;
    for _turn in 0..room {
        if !tokens.eat(Terminal::Punct(Punct::Comma)) {
            return Ok(params);
        }
        match param(alloc, tokens, params.as_slice()) {
            Ok(next) => params.push(next)?,
            Err(stop) => return Err(stop),
        }
    }
    Ok(params)
}

/// A parameter behind those before it.
fn param(alloc: Global, tokens: &mut Tokens<'_>, before: &[Param]) -> Result<Param, ReadStop>
    requires { length before.now ≤ 16 }
    ensures read { Reads (spec.param before.now tokens.old) result tokens.new }
    ensures tied { IfOk result (λ p. AreTied (p ∷ [])) }
{
    let output = tokens.eat(Terminal::Keyword(Keyword::Output));
    tokens.expect(Terminal::Keyword(Keyword::Float))?;
    let name = new_name(alloc, tokens, before)?;
    tokens.expect(Terminal::Punct(Punct::Assign))?;
    let value = number(tokens)?;
    Ok(Param {
        name,
        output,
        default: Expr::Const(value),
    })
}

/// A name that no parameter before it has.
fn new_name(alloc: Global, tokens: &mut Tokens<'_>, before: &[Param]) -> Result<Items<u8>, ReadStop>
    requires { length before.now ≤ 16 }
    ensures { Reads (spec.named (spec.new_name before.now) tokens.old) result tokens.new }
{
    let Some(found) = tokens.name() else {
        return Err(ReadStop::NotBuilt);
    };
    if find_param(before, found).is_some() || found.len() > LONGEST_NAME {
        return Err(ReadStop::NotBuilt);
    }
    let name = Items::from_slice(alloc, found)?;
    tokens.skip();
    Ok(name)
}

fn number(tokens: &mut Tokens<'_>) -> Result<Fx, ReadStop>
    ensures { Reads (spec.token spec.number_of tokens.old) result tokens.new }
{
    let Some(value) = tokens.number() else {
        return Err(ReadStop::NotBuilt);
    };
    tokens.skip();
    Ok(value)
}

/// Assignments up to the closing brace, so many at most.
#[tactic(auto, unfolding(crate::specs::Small::more_assignments))]
fn assignments(
    alloc: Global,
    tokens: &mut Tokens<'_>,
    params: &[Param],
    room: u32,
) -> Result<Items<Assignment>, ReadStop>
    requires { length params.now ≤ 16 }
    ensures read { Reads (spec.more_assignments params.now room [] tokens.old) result tokens.new }
    ensures tied { IfOk result (λ body. list_all (assignment_fits (length params.now)) body ≡ true) }
{
    let mut body = Items::new(alloc);
    for _turn in 0..room {
        if tokens.eat(Terminal::Punct(Punct::CloseBrace)) {
            return Ok(body);
        }
        let next = assignment(alloc, tokens, params)?;
        body.push(next)?;
    }
    tokens.expect(Terminal::Punct(Punct::CloseBrace))?;
    Ok(body)
}

fn assignment(
    alloc: Global,
    tokens: &mut Tokens<'_>,
    params: &[Param],
) -> Result<Assignment, ReadStop>
    requires { length params.now ≤ 16 }
    ensures read { Reads (spec.assignment params.now tokens.old) result tokens.new }
    ensures tied { IfOk result (λ a. assignment_fits (length params.now) a ≡ true) }
{
    let target = target(tokens, params)?;
    tokens.expect(Terminal::Punct(Punct::Assign))?;
    let value = sum(alloc, tokens, params)?;
    tokens.expect(Terminal::Punct(Punct::Semicolon))?;
    Ok(Assignment { target, value })
}

/// The number of an output.
fn target(tokens: &mut Tokens<'_>, params: &[Param]) -> Result<u32, ReadStop>
    requires { length params.now ≤ 16 }
    ensures read { Reads (spec.named (output_named params.now) tokens.old) result tokens.new }
    ensures within { IfOk result (λ number. number < length params.now) }
{
    let Some(found) = tokens.name() else {
        return Err(ReadStop::NotBuilt);
    };
    let Some(target) = find_output(params, found) else {
        return Err(ReadStop::NotBuilt);
    };
    tokens.skip();
    Ok(target)
}

/// Operands behind one another with signs, joined to the left.
fn sum(alloc: Global, tokens: &mut Tokens<'_>, params: &[Param]) -> Result<Expr, ReadStop>
    requires { length params.now ≤ 16 }
    ensures read { Reads (spec.sum params.now tokens.old) result tokens.new }
    ensures tied { IfOk result (λ e. fits (length params.now) e ≡ true) }
{
    let first = operand(tokens, params)?;
    Ok(more_operands(alloc, tokens, params, MORE_OPERANDS, first)?)
}

/// Operands behind the first one, so many more at most.
#[tactic(auto, unfolding(crate::specs::Small::more_operands))]
fn more_operands(
    alloc: Global,
    tokens: &mut Tokens<'_>,
    params: &[Param],
    room: u32,
    first: Expr,
) -> Result<Expr, ReadStop>
    requires few { length params.now ≤ 16 }
    requires tied { fits (length params.now) first ≡ true }
    ensures read { Reads (spec.more_operands params.now room first tokens.old) result tokens.new }
    ensures tied { IfOk result (λ e. fits (length params.now) e ≡ true) }
{
    let mut sum = first;
    for _turn in 0..room {
        let Some(op) = eat_sign(tokens) else {
            return Ok(sum);
        };
        let next = operand(tokens, params)?;
        sum = joined(alloc, op, sum, next)?;
    }
    Ok(sum)
}

fn joined(alloc: Global, op: SumOp, left: Expr, right: Expr) -> Result<Expr, ReadStop>
    ensures { OnlyMemory (Expr.Apply op left right) result }
{
    let left = Boxed::new(alloc, left)?;
    let right = Boxed::new(alloc, right)?;
    Ok(Expr::Apply(op, left, right))
}

/// Takes a sign, if one comes next.
fn eat_sign(tokens: &mut Tokens<'_>) -> Option<SumOp>
    ensures { take_as spec.sign_of tokens.old ≡ Some (result, tokens.new) }
{
    let op = sign_of(tokens.mark()?)?;
    tokens.skip();
    Some(op)
}

fn sign_of(mark: Terminal) -> Option<SumOp>
    ensures { result ≡ spec.sign_of mark }
{
    match mark {
        Terminal::Punct(Punct::Plus) => Some(SumOp::Add),
        Terminal::Punct(Punct::Minus) => Some(SumOp::Sub),
        _ => None,
    }
}

/// A parameter, or a float.
fn operand(tokens: &mut Tokens<'_>, params: &[Param]) -> Result<Expr, ReadStop>
    requires { length params.now ≤ 16 }
    ensures read { Reads (spec.token (spec.operand_of params.now) tokens.old) result tokens.new }
    ensures tied { IfOk result (λ e. fits (length params.now) e ≡ true) }
{
    let Some(operand) = operand_of(tokens, params) else {
        return Err(ReadStop::NotBuilt);
    };
    tokens.skip();
    Ok(operand)
}

fn operand_of(tokens: &Tokens<'_>, params: &[Param]) -> Option<Expr>
    requires { length params.now ≤ 16 }
    ensures value { result ≡ spec.operand_of params.now (first tokens.now) }
    ensures tied { IfSome result (λ e. fits (length params.now) e ≡ true) }
{
    if let Some(name) = tokens.name() {
        let number = find_param(params, name)?;
        return Some(Expr::Var(number));
    }
    let value = tokens.float()?;
    Some(Expr::Const(value))
}
