//! The parameters of a shader. OSL specification, section "Shader parameters".

ghost use Rattle.std.specs.Prelude.{◌≡◌};
ghost use Rattle.osl_typed.specs.FileTyping as spec;
ghost use Rattle.osl_check.specs.Above.{sight_of};
ghost use Rattle.osl_check.specs.Adds.{Adds};

use crate::above::Sight;
use crate::declarations::{begun, declared_kind};
use crate::metadata::metadata;
use osl_layer::GlobalName;
use osl_names::Scope;
use osl_tree::tree::Param;
use osl_typed::TypedParam;
use osl_typing::TypeError;
use osl_typing::forms::plain_type;
use sqlite_items::Items;
use std::alloc::Global;

/// Whether no parameter may have this name: a global variable's, or that of the main code.
fn is_reserved(name: &[u8]) -> bool
    ensures { result ≡ spec.is_reserved name.now }
{
    GlobalName::named(name).is_some() || name == b"___main___".as_slice()
}

/// A parameter: it is no structure, and its default sees the parameters before it.
#[tactic(auto, unfolding(osl_typed::specs::FileTyping::param_added))]
fn add_param(
    alloc: Global,
    sight: &Sight,
    param: &Param,
    scope: &mut Scope,
) -> Result<TypedParam, TypeError>
    ensures { Adds (spec.param_added (sight_of sight.now) param.now scope.old) result scope.new }
{
    let kind = declared_kind(&sight.structures, &param.ty, param.item.len)?;
    let ty = plain_type(kind)?;
    let name = param.item.name.as_slice();
    if is_reserved(name) || scope.is_here(name) {
        return Err(TypeError::NoTyping);
    }
    let init = begun(alloc, sight, scope, kind, &param.init)?;
    let metadata = metadata(alloc, sight, scope, param.metadata.as_slice())?;
    let _number = scope.declare(alloc, name, kind, param.output)?;
    Ok(TypedParam {
        output: param.output,
        ty,
        name: Items::from_slice(alloc, name)?,
        init,
        metadata,
    })
}

/// The parameters in their order.
#[tactic(auto, unfolding(osl_typed::specs::FileTyping::params_added))]
pub(crate) fn add_params(
    alloc: Global,
    sight: &Sight,
    params: &[Param],
    scope: &mut Scope,
) -> Result<Items<TypedParam>, TypeError>
    ensures { Adds (spec.params_added (sight_of sight.now) params.now scope.old) result scope.new }
{
    let mut all = Items::new(alloc);
    for param in params {
        let one = add_param(alloc, sight, param, scope)?;
        all.push(one)?;
    }
    Ok(all)
}
