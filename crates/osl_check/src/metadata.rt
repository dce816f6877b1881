//! Metadata, of a shader and of its parameters.

ghost use Rattle.osl_typed.specs.FileTyping as spec;
ghost use Rattle.osl_typing.specs.Says.{Says};
ghost use Rattle.osl_check.specs.Above.{sight_of};

use crate::above::Sight;
use crate::constancy::is_constant_init;
use crate::declarations::{begun, declared_kind};
use osl_names::Scope;
use osl_tree::tree::Datum;
use osl_typed::TypedDatum;
use osl_typing::TypeError;
use osl_typing::forms::{plain_type, when};
use sqlite_items::Items;
use std::alloc::Global;

/// A datum: it is no structure, and its value is a constant.
#[tactic(auto, unfolding(osl_typed::specs::FileTyping::datum_typed))]
fn datum(
    alloc: Global,
    sight: &Sight,
    scope: &Scope,
    datum: &Datum,
) -> Result<TypedDatum, TypeError>
    ensures { Says (spec.datum_typed (sight_of sight.now) scope.now datum.now) result }
{
    let kind = declared_kind(&sight.structures, &datum.ty, datum.item.len)?;
    let ty = plain_type(kind)?;
    when(is_constant_init(&datum.init))?;
    let init = begun(alloc, sight, scope, kind, &datum.init)?;
    let name = Items::from_slice(alloc, datum.item.name.as_slice())?;
    Ok(TypedDatum { ty, name, init })
}

/// The data in their order.
pub(crate) fn metadata(
    alloc: Global,
    sight: &Sight,
    scope: &Scope,
    list: &[Datum],
) -> Result<Items<TypedDatum>, TypeError>
    ensures { Says (spec.metadata_typed (sight_of sight.now) scope.now list.now) result }
{
    let mut all = Items::new(alloc);
    for x in list {
        let one = datum(alloc, sight, scope, x)?;
        all.push(one)?;
    }
    Ok(all)
}
