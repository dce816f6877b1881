//! A whole source: what is declared above its shader, and then the shader.

ghost use Rattle.std.specs.Prelude.{◌≡◌, false, IfOk, Err};
ghost use Rattle.osl_typed.specs.FileTyping as spec;
ghost use Rattle.osl_typed.specs.FileTyping.{IsTypingOf};
ghost use Rattle.osl_tree.specs.Sources.{IsTreeOfSource};
ghost use Rattle.osl_typed.specs.Scopes.{outermost};
ghost use Rattle.osl_typed.specs.declared.shader.TypedShader.{TypedShader};
ghost use Rattle.osl_typing.specs.Says.{Says};
ghost use Rattle.osl_check.specs.Above.{above_of, sight_of};
ghost use Rattle.osl_check.specs.Adds.{Adds};
ghost use Rattle.osl_check.specs.FileParts as parts;

use crate::above::{Above, Sight};
use crate::definitions::add_definitions;
use crate::longest::longest_of;
use crate::metadata::metadata;
use crate::params::add_params;
use crate::statements::body;
use osl_calls::Functions;
use osl_names::{Scope, Structures};
use osl_overload::Kind;
use osl_tree::tree::{Datum, Shader, Tree};
use osl_typed::{Typed, TypedDatum, TypedFunction, TypedParam, TypedShader, TypedStmt};
use osl_typing::TypeError;
use sqlite_items::Items;
use std::alloc::{AllocError, Global};

/// Nothing is declared above the first definition.
fn at_the_top(alloc: Global) -> Result<Above, AllocError>
    ensures { IfOk result (λ above. above_of above ≡ spec.at_the_top) }
{
    Ok(Above {
        sight: Sight {
            structures: Structures::new(alloc),
            functions: Functions::new(alloc)?,
        },
        functions: Items::new(alloc),
    })
}

/// The metadata of the shader, whose values see no declaration but the structures and functions above.
fn shader_metadata(
    alloc: Global,
    sight: &Sight,
    list: &[Datum],
) -> Result<Items<TypedDatum>, TypeError>
    ensures { Says (spec.metadata_typed (sight_of sight.now) (outermost (λ global. false)) list.now) result }
{
    let outside = Scope::of_function(alloc)?;
    metadata(alloc, sight, &outside, list)
}

/// The parameters and the body, whose outermost declarations are in one block with the parameters.
fn inside(
    alloc: Global,
    shader: &Shader,
    sight: &Sight,
    scope: &mut Scope,
) -> Result<(Items<TypedParam>, Items<TypedStmt>), TypeError>
    ensures { Adds (parts.inside_shader shader.now (sight_of sight.now) scope.old) result scope.new }
{
    let params = add_params(alloc, sight, shader.params.as_slice(), scope)?;
    let body = body(alloc, sight, Kind::Void, shader.body.as_slice(), scope)?;
    Ok((params, body))
}

/// The parameters of a shader, the kinds of all its variables, and its body.
fn framed(
    alloc: Global,
    shader: &Shader,
    sight: &Sight,
) -> Result<(Items<TypedParam>, Items<Kind>, Items<TypedStmt>), TypeError>
    ensures { Says (parts.framed_shader shader.now (sight_of sight.now)) result }
{
    let mut scope = Scope::of_shader(alloc, shader.kind)?;
    scope.enter()?;
    let (params, body) = inside(alloc, shader, sight, &mut scope)?;
    Ok((params, scope.into_kinds(), body))
}

/// The shader, by what is declared above it.
#[tactic(auto, using(crate::proofs::Shaders::shader_is))]
fn shader_typed(
    alloc: Global,
    tree: &Tree,
    sight: &Sight,
    functions: Items<TypedFunction>,
) -> Result<TypedShader, TypeError>
    ensures { Says (spec.shader_typed tree.now (record { sight = sight_of sight.now; functions = functions })) result }
{
    let shader = &tree.shader;
    let name = Items::from_slice(alloc, shader.name.as_slice())?;
    let structures = sight.structures.typed(alloc)?;
    let metadata = shader_metadata(alloc, sight, shader.metadata.as_slice())?;
    let (params, frame, body) = framed(alloc, shader, sight)?;
    let longest = longest_of(tree);
    Ok(TypedShader {
        structures,
        functions,
        kind: shader.kind,
        name,
        metadata,
        params,
        frame,
        body,
        longest_word: longest.word(),
        longest_text: longest.text(),
    })
}

/// The typed form of a source, if it has one.
#[tactic(auto, unfolding(osl_typed::specs::FileTyping::typed))]
fn typed(alloc: Global, tree: &Tree) -> Result<TypedShader, TypeError>
    ensures { Says (spec.typed tree.now) result }
{
    let mut above = at_the_top(alloc)?;
    add_definitions(alloc, tree.definitions.as_slice(), &mut above)?;
    let Above { sight, functions } = above;
    shader_typed(alloc, tree, &sight, functions)
}

/// The typed tree of the tree of a source, with its sizes. `NoTyping` comes exactly where it has none, and `Memory` where
/// an allocation fails, or where more than 2^32 - 1 variables, structures, functions or fields of one structure are
/// declared, or as many blocks are nested. Its recursion is as deep as the tree, which is no higher than 256. OSL
/// specification, sections "Shader types", "Shader parameters" and "Functions".
pub fn check(alloc: Global, tree: &Tree) -> Result<Typed, TypeError>
    requires { IsTreeOfSource tree.now }
    ensures found { IfOk result (λ t. IsTypingOf tree.now t) }
    ensures none { result ≡ Err TypeError.NoTyping → (t : TypedShader) → IsTypingOf tree.now t → ⊥ }
{
    let shader = typed(alloc, tree)?;
    Ok(Typed::new(alloc, shader)?)
}
