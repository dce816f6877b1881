//! Declarations: the kinds of variables, and what they begin with. OSL specification, section "Declarations, statements
//! and blocks".

ghost use Rattle.std.specs.Prelude.{◌≡◌, None, is_some, OnOk};
ghost use Rattle.osl_typed.specs.BodyTyping as spec;
ghost use Rattle.osl_typing.specs.Says.{Says};
ghost use Rattle.osl_names.specs.Kept.{Keeps};
ghost use Rattle.osl_check.specs.Above.{sight_of};
ghost use Rattle.osl_check.specs.Adds.{Adds};
ghost use Rattle.osl_check.specs.BodyParts as parts;

use crate::above::Sight;
use crate::expr::typing;
use osl_names::{Scope, Structures};
use osl_overload::Kind;
use osl_tree::expr::Expr;
use osl_tree::stmt::{Init, TypeName, Var};
use osl_typed::types::{element_type, is_array};
use osl_typed::{Declared, TypedExpr, TypedInit};
use osl_typing::TypeError;
use osl_typing::fitting::fit;
use osl_typing::forms::when;
use osl_typing::kinds::base_named;
use osl_value::{Base, Ty};
use sqlite_items::Items;
use std::alloc::Global;

/// The kind of an array: it has 1 to 1,024 elements, and no closures.
fn array_kind(base: Base, len: i32) -> Result<Kind, TypeError>
    ensures { Says (spec.array_kind base len) result }
{
    if len < 1 || len > 1024 || base == Base::Closure {
        return Err(TypeError::NoTyping);
    }
    let len = len as u32;
    Ok(Kind::Value(Ty { base, len }))
}

/// The kind that a type makes where it has no length.
pub(crate) fn plain_kind(structures: &Structures, ty: &TypeName) -> Option<Kind>
    ensures { result ≡ spec.declared_kind structures.now ty.now None }
{
    match ty {
        TypeName::Base(base) => Some(Kind::Value(Ty::only(base_named(*base)))),
        TypeName::Struct(word) => match structures.named(word.as_slice()) {
            Some(structure) => Some(Kind::Structure(structure)),
            None => None,
        },
    }
}

/// The kind that a type makes with this length, or with none. There are no arrays of structures.
pub(crate) fn lengthened(plain: Option<Kind>, len: Option<i32>) -> Result<Kind, TypeError>
    ensures { Says (parts.lengthened plain len) result }
{
    match (plain, len) {
        (Some(kind), None) => Ok(kind),
        (Some(Kind::Value(ty)), Some(len)) => array_kind(ty.base, len),
        (Some(Kind::Structure(_) | Kind::Void), Some(_)) | (None, _) => Err(TypeError::NoTyping),
    }
}

/// The kind that a type and perhaps a length make.
#[tactic(auto, using(crate::proofs::Bodies::kind_is))]
pub(crate) fn declared_kind(
    structures: &Structures,
    ty: &TypeName,
    len: Option<i32>,
) -> Result<Kind, TypeError>
    ensures { Says (spec.declared_kind structures.now ty.now len) result }
{
    lengthened(plain_kind(structures, ty), len)
}

/// An expression where a kind is wanted.
pub(crate) fn fitted(
    alloc: Global,
    sight: &Sight,
    scope: &Scope,
    kind: Kind,
    a: &Expr,
) -> Result<TypedExpr, TypeError>
    ensures { Says (parts.fitted (sight_of sight.now) scope.now kind a.now) result }
{
    fit(alloc, kind, typing(alloc, sight, scope, a)?)
}

/// Whether a variable of this kind may begin with a list: an array and a structure may.
fn may_be_listed(structures: &Structures, kind: Kind) -> bool
    ensures { result ≡ is_some (spec.listed_kinds structures.now kind) }
{
    match kind {
        Kind::Value(ty) => is_array(ty),
        Kind::Structure(_) => true,
        Kind::Void => false,
    }
}

/// What the item at a place of a list has to be: an element of the array, or a field.
fn kind_at(structures: &Structures, kind: Kind, place: usize) -> Result<Kind, TypeError>
    ensures { Says (parts.kind_at structures.now kind place) result }
{
    match kind {
        Kind::Value(ty) => {
            when(is_array(ty) && place < ty.len as usize)?;
            Ok(Kind::Value(element_type(ty)))
        }
        Kind::Structure(structure) => match structures.kinds(structure).get(place) {
            Some(kind) => Ok(*kind),
            None => Err(TypeError::NoTyping),
        },
        Kind::Void => Err(TypeError::NoTyping),
    }
}

/// The item at a place of a list.
fn item_at(
    alloc: Global,
    sight: &Sight,
    scope: &Scope,
    kind: Kind,
    place: usize,
    a: &Expr,
) -> Result<TypedExpr, TypeError>
    ensures { Says (parts.item_at (sight_of sight.now) scope.now kind place a.now) result }
{
    let wanted = kind_at(&sight.structures, kind, place)?;
    fitted(alloc, sight, scope, wanted, a)
}

/// The items of a list.
fn placed(
    alloc: Global,
    sight: &Sight,
    scope: &Scope,
    kind: Kind,
    items: &[Expr],
) -> Result<Items<TypedExpr>, TypeError>
    ensures { Says (parts.placed (sight_of sight.now) scope.now kind 0 items.now) result }
{
    let mut all = Items::new(alloc);
    for (place, a) in items.iter().enumerate() {
        let one = item_at(alloc, sight, scope, kind, place, a)?;
        all.push(one)?;
    }
    Ok(all)
}

/// A list in braces. There may be fewer items than elements or fields, and not more.
#[tactic(auto, using(crate::proofs::Listing::listed_is))]
fn listed(
    alloc: Global,
    sight: &Sight,
    scope: &Scope,
    kind: Kind,
    items: &[Expr],
) -> Result<Items<TypedExpr>, TypeError>
    ensures { Says (parts.listed (sight_of sight.now) scope.now kind items.now) result }
{
    when(may_be_listed(&sight.structures, kind))?;
    placed(alloc, sight, scope, kind, items)
}

/// The initialiser of a variable of this kind.
#[tactic(auto, unfolding(osl_typed::specs::BodyTyping::begun, crate::specs::BodyParts::listed))]
pub(crate) fn begun(
    alloc: Global,
    sight: &Sight,
    scope: &Scope,
    kind: Kind,
    init: &Init,
) -> Result<TypedInit, TypeError>
    ensures { Says (spec.begun (sight_of sight.now) scope.now kind init.now) result }
{
    match init {
        Init::Expr(a) => Ok(TypedInit::Expr(fitted(alloc, sight, scope, kind, a)?)),
        Init::List(items) => {
            let all = listed(alloc, sight, scope, kind, items.as_slice())?;
            Ok(TypedInit::List(all))
        }
    }
}

fn maybe_begun(
    alloc: Global,
    sight: &Sight,
    scope: &Scope,
    kind: Kind,
    init: &Option<Init>,
) -> Result<Option<TypedInit>, TypeError>
    ensures { Says (spec.maybe_begun (sight_of sight.now) scope.now kind init.now) result }
{
    match init {
        None => Ok(None),
        Some(init) => Ok(Some(begun(alloc, sight, scope, kind, init)?)),
    }
}

/// A variable, of a type that makes this kind. It is in scope only after its initialiser, if its name is not declared in
/// this very block.
#[tactic(auto, unfolding(crate::specs::BodyParts::declare_one))]
fn declare(
    alloc: Global,
    sight: &Sight,
    plain: Option<Kind>,
    var: &Var,
    scope: &mut Scope,
) -> Result<Declared, TypeError>
    ensures typed { Adds (parts.declare_one (sight_of sight.now) plain var.now scope.old) result scope.new }
    ensures keeps { OnOk result (Keeps scope.old scope.new) }
{
    let kind = lengthened(plain, var.item.len)?;
    let init = maybe_begun(alloc, sight, scope, kind, &var.init)?;
    let name = var.item.name.as_slice();
    when(!scope.is_here(name))?;
    let number = scope.declare(alloc, name, kind, true)?;
    Ok(Declared { number, kind, init })
}

/// The variables of a declaration. The type's name is looked up once.
pub(crate) fn declare_all(
    alloc: Global,
    sight: &Sight,
    ty: &TypeName,
    vars: &[Var],
    scope: &mut Scope,
) -> Result<Items<Declared>, TypeError>
    ensures typed { Adds (spec.declare_all (sight_of sight.now) ty.now vars.now scope.old) result scope.new }
    ensures keeps { OnOk result (Keeps scope.old scope.new) }
{
    let plain = plain_kind(&sight.structures, ty);
    let mut all = Items::new(alloc);
    for var in vars {
        let one = declare(alloc, sight, plain, var, scope)?;
        all.push(one)?;
    }
    Ok(all)
}
