//! Variables, and parts of variables and of values.

ghost use Rattle.std.specs.Prelude.{◌≡◌, false, map, slice_index_or};
ghost use Rattle.osl_value.specs.AnyValue.{is_array};
ghost use Rattle.osl_typed.specs.Frames.{fields_in};
ghost use Rattle.osl_typed.specs.Measured.{cut, fields_node, indices_wanted, has_some, variable_node, part_node};
ghost use Rattle.osl_typed.specs.Selections.{types_on_the_way, selected_type, depth_of, part_kind};
ghost use Rattle.osl_typed.specs.Sizes as spec;

use crate::expr::{Part, Root, TypedExpr};
use crate::sizes::{SLOTS_TOP, Weight, stopped};
use crate::tables::Tables;
use crate::types;
use osl_overload::Kind;
use osl_value::{Base, Ty};

/// How many indices make one expression of something that is no array.
fn indices_wanted(ty: Ty) -> usize
    ensures { result ≡ indices_wanted ty }
{
    if types::is_only(Base::Matrix, ty) {
        2
    } else {
        1
    }
}

/// Whether so many indices make an expression of one of a type.
fn is_selected(ty: Ty, n: usize) -> bool
    ensures { result ≡ has_some (types_on_the_way ty n) }
{
    if types::is_array(ty) {
        n > 0
    } else {
        n >= indices_wanted(ty)
    }
}

/// How many indices a part has with its component.
pub(crate) fn depth_of(part: &Part, indices: &[TypedExpr]) -> usize
    ensures { result ≡ depth_of part.now indices.now }
{
    match part.component {
        Some(_) => indices.len() + 1,
        None => indices.len(),
    }
}

/// The kind of a part.
pub(crate) fn kind_of_part(part: &Part, indices: &[TypedExpr]) -> Kind
    ensures { result ≡ part_kind part.now indices.now }
{
    match part.kind {
        Kind::Value(ty) => Kind::Value(selected_type(ty, depth_of(part, indices))),
        kind => kind,
    }
}

/// The type that so many indices lead to.
fn selected_type(ty: Ty, n: usize) -> Ty
    ensures { result ≡ selected_type ty n }
{
    if !types::is_array(ty) {
        return component_type(ty, n);
    }
    if n == 0 {
        ty
    } else {
        component_type(types::element_type(ty), n - 1)
    }
}

/// The type that so many indices of something lead to that is no array.
fn component_type(ty: Ty, n: usize) -> Ty
    requires { is_array ty ≡ false }
    ensures { result ≡ selected_type ty n }
{
    if n < indices_wanted(ty) {
        ty
    } else {
        Ty::only(Base::Float)
    }
}

impl Tables<'_> {
    /// The kind of a field of a kind, and `Void` where there is none.
    fn field_kind(&self, kind: Kind, field: u32) -> Kind
        ensures { result ≡ slice_index_or (fields_in self.now.structures.now kind) field Kind.Void }
    {
        let Kind::Structure(m) = kind else {
            return Kind::Void;
        };
        match self.structures.get(m as usize) {
            Some(structure) => match structure.fields.as_slice().get(field as usize) {
                Some(kind) => *kind,
                None => Kind::Void,
            },
            None => Kind::Void,
        }
    }

    fn node(&self, holds_value: bool, kind: Kind) -> Weight
        ensures { result ≡ cut (fields_node holds_value self.now.structures.now kind) }
    {
        if holds_value {
            self.valued(kind)
        } else {
            self.bare(kind)
        }
    }

    /// The nodes that fields make, taken one after another of something of a kind.
    fn fields(&self, holds_value: bool, from: Kind, fields: &[u32]) -> Weight
        ensures { result ≡ cut (spec.all_of (map (fields_node holds_value self.now.structures.now) (spec.field_kinds self.now.structures.now from fields.now))) }
    {
        let mut kind = from;
        let mut sum = Weight::NOTHING;
        for field in fields {
            kind = self.field_kind(kind, *field);
            sum = sum.and(self.node(holds_value, kind));
        }
        sum
    }

    /// The expressions that so many indices make of one of a type that is no array.
    fn components(&self, ty: Ty, n: usize) -> Weight
        requires { is_array ty ≡ false }
        ensures { result ≡ cut (spec.selections self.now.structures.now (types_on_the_way ty n)) }
    {
        if n < indices_wanted(ty) {
            return Weight::NOTHING;
        }
        self.valued(Kind::Value(Ty::only(Base::Float)))
    }

    /// The expressions that so many indices make of one of a type.
    fn selections(&self, ty: Ty, n: usize) -> Weight
        ensures { result ≡ cut (spec.selections self.now.structures.now (types_on_the_way ty n)) }
    {
        if !types::is_array(ty) {
            return self.components(ty, n);
        }
        if n == 0 {
            return Weight::NOTHING;
        }
        let element = types::element_type(ty);
        self.valued(Kind::Value(element))
            .and(self.components(element, n - 1))
    }

    /// The slots of what fields lead to, where no index or component is taken of it.
    fn held(&self, kind: Kind, depth: usize) -> Weight
        ensures { result ≡ cut (spec.held self.now.structures.now kind (spec.selected_types kind depth)) }
    {
        let slots = 2 * self.leaves_of(kind).slots as u64;
        let whole = Weight {
            size: 0,
            slots: stopped(slots, SLOTS_TOP),
            calls: 0,
        };
        match kind {
            Kind::Value(ty) => {
                if is_selected(ty, depth) {
                    Weight::NOTHING
                } else {
                    whole
                }
            }
            _ => whole,
        }
    }

    /// The expressions that indices and a component make of what fields lead to.
    fn selected(&self, kind: Kind, depth: usize) -> Weight
        ensures { result ≡ cut (spec.selections self.now.structures.now (spec.selected_types kind depth)) }
    {
        match kind {
            Kind::Value(ty) => self.selections(ty, depth),
            _ => Weight::NOTHING,
        }
    }

    fn root_kind(&self, root: Root) -> Kind
        ensures { result ≡ spec.root_kind self.now.kinds.now root }
    {
        match root {
            Root::Variable(k) => match self.kinds.get(k as usize) {
                Some(kind) => *kind,
                None => Kind::Void,
            },
            Root::Global(global) => Kind::Value(global.ty()),
        }
    }

    /// A variable or a part of one, without its indices.
    pub(crate) fn variable(&self, root: Root, part: &Part, indices: &[TypedExpr]) -> Weight
        ensures { result ≡ cut (variable_node self.now.structures.now self.now.kinds.now root part.now (depth_of part.now indices.now)) }
    {
        let depth = depth_of(part, indices);
        let from = self.root_kind(root);
        self.bare(from)
            .and(self.fields(false, from, part.fields.as_slice()))
            .and(self.held(part.kind, depth))
            .and(self.selected(part.kind, depth))
    }

    /// A part of a value of a kind, without that value and without its indices.
    pub(crate) fn part(&self, kind: Kind, part: &Part, indices: &[TypedExpr]) -> Weight
        ensures { result ≡ cut (part_node self.now.structures.now kind part.now (depth_of part.now indices.now)) }
    {
        let fields = self.fields(true, kind, part.fields.as_slice());
        fields.and(self.selected(part.kind, depth_of(part, indices)))
    }
}
