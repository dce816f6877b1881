//! Structures and functions, each added to what is declared above it. OSL specification, sections "Structures" and
//! "Functions".

ghost use Rattle.std.specs.Prelude.{◌≡◌};
ghost use Rattle.osl_overload.specs.declared.signature.Formal.{Formal};
ghost use Rattle.osl_typed.specs.FileTyping as spec;
ghost use Rattle.osl_typed.specs.Typing.{formal_kinds};
ghost use Rattle.osl_typing.specs.Says.{Says};
ghost use Rattle.osl_check.specs.Above.{above_of, sight_of};
ghost use Rattle.osl_check.specs.Adds.{Adds, Gives};
ghost use Rattle.osl_check.specs.FileParts as parts;

use crate::above::{Above, Sight};
use crate::declarations::{declared_kind, lengthened, plain_kind};
use crate::statements::body;
use osl_names::{Fields, Scope, Structures};
use osl_overload::{Formal, FormalList, Kind, Signature};
use osl_tree::stmt::{Item, TypeName};
use osl_tree::tree;
use osl_tree::tree::{Definition, Function, Structure};
use osl_typed::{Callee, TypedFunction, TypedStmt};
use osl_typing::TypeError;
use osl_typing::forms::when;
use osl_typing::kinds::{CLOSURE, same_kind};
use sqlite_items::Items;
use std::alloc::Global;

// ---- structures

/// One more field, of a type that makes this kind: it is no closure, and its name is no earlier field's.
fn add_field(
    alloc: Global,
    plain: Option<Kind>,
    item: &Item,
    fields: &mut Fields,
) -> Result<(), TypeError>
    ensures { Gives (parts.field_added plain item.now fields.old) result fields.new }
{
    let kind = lengthened(plain, item.len)?;
    if same_kind(kind, CLOSURE) {
        return Err(TypeError::NoTyping);
    }
    let name = item.name.as_slice();
    if fields.named(name).is_some() {
        return Err(TypeError::NoTyping);
    }
    fields.push(alloc, name, kind)?;
    Ok(())
}

/// The fields of one line. The type's name is looked up once.
fn add_fields(
    alloc: Global,
    structures: &Structures,
    ty: &TypeName,
    items: &[Item],
    fields: &mut Fields,
) -> Result<(), TypeError>
    ensures { Gives (spec.fields_added structures.now ty.now items.now fields.old) result fields.new }
{
    let plain = plain_kind(structures, ty);
    for item in items {
        add_field(alloc, plain, item, fields)?;
    }
    Ok(())
}

/// The fields of all lines.
#[tactic(auto, unfolding(osl_typed::specs::FileTyping::lines_added))]
fn add_lines(
    alloc: Global,
    structures: &Structures,
    lines: &[tree::Fields],
    fields: &mut Fields,
) -> Result<(), TypeError>
    ensures { Gives (spec.lines_added structures.now lines.now fields.old) result fields.new }
{
    for line in lines {
        add_fields(alloc, structures, &line.ty, line.items.as_slice(), fields)?;
    }
    Ok(())
}

/// A structure.
#[tactic(auto, unfolding(osl_typed::specs::FileTyping::structure_added))]
fn add_structure(alloc: Global, structure: &Structure, above: &mut Above) -> Result<(), TypeError>
    ensures { Gives (spec.structure_added structure.now (above_of above.old)) result (above_of above.new) }
{
    let name = structure.name.as_slice();
    let structures = &mut above.sight.structures;
    if structures.named(name).is_some() {
        return Err(TypeError::NoTyping);
    }
    let mut fields = Fields::new(alloc);
    add_lines(alloc, structures, structure.fields.as_slice(), &mut fields)?;
    structures.add(alloc, name, fields)?;
    Ok(())
}

// ---- functions

/// One more formal parameter, whose name is no earlier one's.
fn add_formal(
    alloc: Global,
    structures: &Structures,
    formal: &tree::Formal,
    scope: &mut Scope,
) -> Result<Formal, TypeError>
    ensures { Adds (parts.formal_added structures.now formal.now scope.old) result scope.new }
{
    let kind = declared_kind(structures, &formal.ty, formal.item.len)?;
    let name = formal.item.name.as_slice();
    if scope.is_here(name) {
        return Err(TypeError::NoTyping);
    }
    scope.declare(alloc, name, kind, formal.output)?;
    Ok(Formal {
        kind,
        output: formal.output,
    })
}

/// The formal parameters.
fn add_formals(
    alloc: Global,
    structures: &Structures,
    all: &[tree::Formal],
    scope: &mut Scope,
) -> Result<Items<Formal>, TypeError>
    ensures { Adds (spec.formals_added structures.now all.now scope.old) result scope.new }
{
    let mut formals = Items::new(alloc);
    for formal in all {
        let one = add_formal(alloc, structures, formal, scope)?;
        formals.push(one)?;
    }
    Ok(formals)
}

/// The kind of what a function gives.
fn result_kind(structures: &Structures, ty: &Option<TypeName>) -> Result<Kind, TypeError>
    ensures { Says (spec.result_kind structures.now ty.now) result }
{
    match ty {
        Some(ty) => declared_kind(structures, ty, None),
        None => Ok(Kind::Void),
    }
}

/// Whether a function of this name takes parameters of just these kinds.
fn is_taken(sight: &Sight, name: &[u8], formals: &[Formal]) -> bool
    ensures { result ≡ spec.is_taken (sight_of sight.now) name.now (formal_kinds formals.now) }
{
    sight.functions.is_taken(name, formals)
}

/// The formal parameters and the body of a function. The body is a block inside the parameters.
fn inside(
    alloc: Global,
    f: &Function,
    sight: &Sight,
    returned: Kind,
    scope: &mut Scope,
) -> Result<(Items<Formal>, Items<TypedStmt>), TypeError>
    ensures { Adds (parts.inside_function f.now (sight_of sight.now) returned scope.old) result scope.new }
{
    let formals = add_formals(alloc, &sight.structures, f.formals.as_slice(), scope)?;
    let name = f.name.as_slice();
    if is_taken(sight, name, formals.as_slice()) {
        return Err(TypeError::NoTyping);
    }
    scope.enter()?;
    let body = body(alloc, sight, returned, f.body.as_slice(), scope)?;
    Ok((formals, body))
}

/// A function, by what is declared above it.
fn typed_function(alloc: Global, f: &Function, sight: &Sight) -> Result<TypedFunction, TypeError>
    ensures { Says (parts.function_typed f.now (sight_of sight.now)) result }
{
    let result = result_kind(&sight.structures, &f.result)?;
    let mut scope = Scope::of_function(alloc)?;
    scope.enter()?;
    let (formals, body) = inside(alloc, f, sight, result, &mut scope)?;
    Ok(TypedFunction {
        result,
        formals,
        frame: scope.into_kinds(),
        body,
    })
}

/// A function, with its name, among what is declared above the next definition.
#[tactic(auto, unfolding(osl_typed::specs::FileTyping::function_added))]
fn add_function(alloc: Global, f: &Function, above: &mut Above) -> Result<(), TypeError>
    ensures { Gives (spec.function_added f.now (above_of above.old)) result (above_of above.new) }
{
    let function = typed_function(alloc, f, &above.sight)?;
    declare(alloc, f.name.as_slice(), function, above)
}

/// A typed function, by the next number.
fn declare(
    alloc: Global,
    name: &[u8],
    function: TypedFunction,
    above: &mut Above,
) -> Result<(), TypeError>
    ensures { Gives (Some (spec.with_typed name.now function (above_of above.old))) result (above_of above.new) }
{
    let number = above.functions.len();
    if number >= u32::MAX as usize {
        return Err(TypeError::Memory);
    }
    let params = FormalList::new(Vec::from_slice(alloc, function.formals.as_slice())?);
    let signature = Signature {
        params,
        result: function.result,
    };
    above
        .sight
        .functions
        .add(alloc, name, signature, Callee::Declared(number as u32))?;
    above.functions.push(function)?;
    Ok(())
}

// ---- both

/// A structure or a function.
fn add_definition(
    alloc: Global,
    definition: &Definition,
    above: &mut Above,
) -> Result<(), TypeError>
    ensures { Gives (spec.definition_added definition.now (above_of above.old)) result (above_of above.new) }
{
    match definition {
        Definition::Structure(structure) => add_structure(alloc, structure, above),
        Definition::Function(f) => add_function(alloc, f, above),
    }
}

/// All structures and functions, each by what is declared above it.
#[tactic(auto, unfolding(osl_typed::specs::FileTyping::definitions_added))]
pub(crate) fn add_definitions(
    alloc: Global,
    definitions: &[Definition],
    above: &mut Above,
) -> Result<(), TypeError>
    ensures { Gives (spec.definitions_added definitions.now (above_of above.old)) result (above_of above.new) }
{
    for definition in definitions {
        add_definition(alloc, definition, above)?;
    }
    Ok(())
}
