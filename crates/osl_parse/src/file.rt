//! Structures, functions, shaders and whole sources. The number `room` says how high the parts of a
//! node may be.

ghost use Rattle.std.specs.Prelude.{[], ◌≡◌, ◌<◌, length};
ghost use Rattle.osl_tree.specs.Parser as parser;
ghost use Rattle.osl_tree.specs.StatementReading as statements;
ghost use Rattle.osl_tree.specs.FileReading as spec;
ghost use Rattle.osl_parse.specs.Reads.{Reads};

use crate::declaration::{init, item};
use crate::error::SyntaxError;
use crate::expr::node;
use crate::list::{Listed, list, trailed};
use crate::stmt::body;
use crate::tokens::Tokens;
use osl_tree::stmt::{Item, TypeName};
use osl_tree::terminal::{Keyword, Terminal};
use osl_tree::token::Punct;
use osl_tree::tree::{Datum, Definition, Fields, Formal, Function, Param, Shader, Structure, Tree};
use osl_value::ShaderKind;
use sqlite_items::Items;
use std::alloc::Global;

impl Listed for Item {
    ghost reading = { λ room. statements.item };

    fn read(
        alloc: Global,
        tokens: &mut Tokens<'_>,
        _room: u32,
    ) -> Result<(Item, u32), SyntaxError> {
        item(alloc, tokens)
    }
}

/// Lines of fields, up to the closing brace.
#[tactic(auto, unfolding(osl_tree::specs::FileReading::fields_from))]
fn fields(alloc: Global, tokens: &mut Tokens<'_>) -> Result<(Items<Fields>, u32), SyntaxError>
    ensures { Reads (spec.fields_from (length tokens.old) [] 1 tokens.old) result tokens.new }
{
    let mut fields = Items::new(alloc);
    let mut height = 1;
    for _turn in 0..tokens.len() {
        if tokens.eat(Terminal::Punct(Punct::CloseBrace)) {
            return Ok((fields, height));
        }
        let (ty, first) = tokens.type_name(alloc)?;
        let (items, second) = list(alloc, tokens, 0)?;
        tokens.expect(Terminal::Punct(Punct::Semicolon))?;
        fields.push(Fields { ty, items })?;
        height = height.max(first.max(second));
    }
    Err(SyntaxError::NoTree)
}

/// A structure after its first word.
#[tactic(auto, unfolding(osl_tree::specs::FileReading::structure))]
fn structure(
    alloc: Global,
    tokens: &mut Tokens<'_>,
    room: u32,
) -> Result<(Structure, u32), SyntaxError>
    requires { room < 256 }
    ensures { Reads (spec.structure room tokens.old) result tokens.new }
{
    let name = tokens.name(alloc)?;
    tokens.expect(Terminal::Punct(Punct::OpenBrace))?;
    let (fields, height) = fields(alloc, tokens)?;
    tokens.expect(Terminal::Punct(Punct::Semicolon))?;
    let height = node(room, height)?;
    Ok((Structure { name, fields }, height))
}

impl Listed for Formal {
    ghost reading = { spec.formal };

    #[tactic(auto, unfolding(osl_tree::specs::FileReading::formal))]
    fn read(
        alloc: Global,
        tokens: &mut Tokens<'_>,
        room: u32,
    ) -> Result<(Formal, u32), SyntaxError> {
        let output = tokens.eat(Terminal::Keyword(Keyword::Output));
        let (ty, first) = tokens.type_name(alloc)?;
        let (item, second) = item(alloc, tokens)?;
        let height = node(room, first.max(second))?;
        Ok((Formal { output, ty, item }, height))
    }
}

#[tactic(auto, unfolding(osl_tree::specs::FileReading::formals))]
fn formals(
    alloc: Global,
    tokens: &mut Tokens<'_>,
    room: u32,
) -> Result<(Items<Formal>, u32), SyntaxError>
    requires { room < 256 }
    ensures { Reads (spec.formals room tokens.old) result tokens.new }
{
    if tokens.sees(Terminal::Punct(Punct::CloseParen)) {
        return Ok((Items::new(alloc), 1));
    }
    list(alloc, tokens, room)
}

/// A function's type; None stands for `void`.
#[tactic(auto, unfolding(osl_tree::specs::FileReading::returns))]
fn returns(alloc: Global, tokens: &mut Tokens<'_>) -> Result<(Option<TypeName>, u32), SyntaxError>
    ensures { Reads (spec.returns tokens.old) result tokens.new }
{
    if tokens.eat(Terminal::Keyword(Keyword::Void)) {
        return Ok((None, 1));
    }
    let (ty, height) = tokens.type_name(alloc)?;
    Ok((Some(ty), height))
}

#[tactic(auto, unfolding(osl_tree::specs::FileReading::function))]
fn function(
    alloc: Global,
    tokens: &mut Tokens<'_>,
    room: u32,
) -> Result<(Function, u32), SyntaxError>
    requires { room < 256 }
    ensures { Reads (spec.function room tokens.old) result tokens.new }
{
    let (result_type, first) = returns(alloc, tokens)?;
    let name = tokens.name(alloc)?;
    tokens.expect(Terminal::Punct(Punct::OpenParen))?;
    let (formals, second) = formals(alloc, tokens, room)?;
    tokens.expect(Terminal::Punct(Punct::CloseParen))?;
    let (body, third) = body(alloc, tokens, room)?;
    let height = node(room, first.max(second.max(third)))?;
    Ok((
        Function {
            result: result_type,
            name,
            formals,
            body,
        },
        height,
    ))
}

#[tactic(auto, unfolding(osl_tree::specs::FileReading::definition))]
fn definition(
    alloc: Global,
    tokens: &mut Tokens<'_>,
    room: u32,
) -> Result<(Definition, u32), SyntaxError>
    requires { room < 256 }
    ensures { Reads (spec.definition room tokens.old) result tokens.new }
{
    if tokens.eat(Terminal::Keyword(Keyword::Struct)) {
        let (found, height) = structure(alloc, tokens, room)?;
        return Ok((Definition::Structure(found), height));
    }
    let (found, height) = function(alloc, tokens, room)?;
    Ok((Definition::Function(found), height))
}

impl Listed for Datum {
    ghost reading = { spec.datum };

    #[tactic(auto, unfolding(osl_tree::specs::FileReading::datum))]
    fn read(
        alloc: Global,
        tokens: &mut Tokens<'_>,
        room: u32,
    ) -> Result<(Datum, u32), SyntaxError> {
        let (ty, first) = tokens.type_name(alloc)?;
        let (item, second) = item(alloc, tokens)?;
        tokens.expect(Terminal::Punct(Punct::Assign))?;
        let (init, third) = init(alloc, tokens, room)?;
        let height = node(room, first.max(second.max(third)))?;
        Ok((Datum { ty, item, init }, height))
    }
}

/// Metadata, or nothing.
#[tactic(auto, unfolding(osl_tree::specs::FileReading::metadata))]
fn metadata(
    alloc: Global,
    tokens: &mut Tokens<'_>,
    room: u32,
) -> Result<(Items<Datum>, u32), SyntaxError>
    requires { room < 256 }
    ensures { Reads (spec.metadata room tokens.old) result tokens.new }
{
    if !tokens.eat(Terminal::Punct(Punct::OpenMeta)) {
        return Ok((Items::new(alloc), 1));
    }
    let (data, height) = trailed(alloc, tokens, room, Terminal::Punct(Punct::CloseBracket))?;
    tokens.expect(Terminal::Punct(Punct::CloseBracket))?;
    tokens.expect(Terminal::Punct(Punct::CloseBracket))?;
    let height = node(room, height)?;
    Ok((data, height))
}

impl Listed for Param {
    ghost reading = { spec.param };

    #[tactic(auto, unfolding(osl_tree::specs::FileReading::param))]
    fn read(
        alloc: Global,
        tokens: &mut Tokens<'_>,
        room: u32,
    ) -> Result<(Param, u32), SyntaxError> {
        let output = tokens.eat(Terminal::Keyword(Keyword::Output));
        let (ty, first) = tokens.type_name(alloc)?;
        let (item, second) = item(alloc, tokens)?;
        tokens.expect(Terminal::Punct(Punct::Assign))?;
        let (init, third) = init(alloc, tokens, room)?;
        let (metadata, fourth) = metadata(alloc, tokens, room)?;
        let height = node(room, first.max(second).max(third.max(fourth)))?;
        Ok((
            Param {
                output,
                ty,
                item,
                init,
                metadata,
            },
            height,
        ))
    }
}

#[tactic(auto, unfolding(osl_tree::specs::FileReading::params))]
fn params(
    alloc: Global,
    tokens: &mut Tokens<'_>,
    room: u32,
) -> Result<(Items<Param>, u32), SyntaxError>
    requires { room < 256 }
    ensures { Reads (spec.params room tokens.old) result tokens.new }
{
    if tokens.sees(Terminal::Punct(Punct::CloseParen)) {
        return Ok((Items::new(alloc), 1));
    }
    trailed(alloc, tokens, room, Terminal::Punct(Punct::CloseParen))
}

/// A shader after its kind.
#[tactic(auto, unfolding(osl_tree::specs::FileReading::shader))]
fn shader(
    alloc: Global,
    tokens: &mut Tokens<'_>,
    room: u32,
    kind: ShaderKind,
) -> Result<(Shader, u32), SyntaxError>
    requires { room < 256 }
    ensures { Reads (spec.shader room kind tokens.old) result tokens.new }
{
    let name = tokens.name(alloc)?;
    let (metadata, first) = metadata(alloc, tokens, room)?;
    tokens.expect(Terminal::Punct(Punct::OpenParen))?;
    let (params, second) = params(alloc, tokens, room)?;
    tokens.expect(Terminal::Punct(Punct::CloseParen))?;
    let (body, third) = body(alloc, tokens, room)?;
    let height = node(room, first.max(second.max(third)))?;
    Ok((
        Shader {
            kind,
            name,
            metadata,
            params,
            body,
        },
        height,
    ))
}

/// Definitions, the height of the highest, and the kind of the shader after them.
type Definitions = ((Items<Definition>, u32), ShaderKind);

#[tactic(auto, unfolding(osl_tree::specs::FileReading::definitions_from))]
fn definitions(
    alloc: Global,
    tokens: &mut Tokens<'_>,
    room: u32,
) -> Result<Definitions, SyntaxError>
    requires { room < 256 }
    ensures { Reads (spec.definitions_from room (length tokens.old) ([], 1) tokens.old) result tokens.new }
{
    let mut found = Items::new(alloc);
    let mut height = 1;
    for _turn in 0..tokens.len() {
        if let Some(kind) = tokens.kind() {
            return Ok(((found, height), kind));
        }
        let (next, its_height) = definition(alloc, tokens, room)?;
        found.push(next)?;
        height = height.max(its_height);
    }
    Err(SyntaxError::NoTree)
}

/// A source of these parts. Where there are no definitions, it is no node of its own.
fn source_of(
    tokens: &Tokens<'_>,
    room: u32,
    found: (Items<Definition>, u32),
    last: (Shader, u32),
) -> Result<(Tree, u32), SyntaxError>
    requires { room < 256 }
    ensures { Reads (spec.source_of room found last tokens.now) result tokens.now }
{
    let (definitions, first) = found;
    let (shader, second) = last;
    let [_, ..] = definitions.as_slice() else {
        return Ok((
            Tree {
                definitions,
                shader,
            },
            second,
        ));
    };
    let height = node(room, first.max(second))?;
    Ok((
        Tree {
            definitions,
            shader,
        },
        height,
    ))
}

/// A source, whose parts are no higher than `room`.
#[tactic(auto, unfolding(osl_tree::specs::FileReading::source))]
pub fn source(alloc: Global, tokens: &mut Tokens<'_>, room: u32) -> Result<(Tree, u32), SyntaxError>
    requires { room < 256 }
    ensures { Reads (spec.source room tokens.old) result tokens.new }
{
    let (found, kind) = definitions(alloc, tokens, room)?;
    let last = shader(alloc, tokens, room, kind)?;
    source_of(tokens, room, found, last)
}
