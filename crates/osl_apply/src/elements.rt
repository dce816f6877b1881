// Elements of arrays, and components, that are read and written.

ghost use Rattle.std.specs.Prelude.{◌≡◌, ◌≢◌, ◌+◌, ◌≤◌, ◌<◌, false, IsTrue, IfOk, OnOk, length, [], ◌∷◌, slice_set};
ghost use Rattle.osl_value.specs.AnyValue.{Of, type_of, numbers_of, is_array, element_type, element_of, with_element, with_items_at, with_numbers};
ghost use Rattle.osl_value.specs.Geometry.{place};
ghost use Rattle.osl_value.specs.Types.{is_only, only};
ghost use Rattle.osl_apply.specs.Slots.{seen, is_value, is_whole};
ghost use Rattle.osl_apply.specs.Elements.{element_value, suits};

use crate::plain::{matrix_at, triple_at};
use crate::slot::{Kind, Slot};
use crate::unary::whole;
use osl_strops::place;
use osl_value::{Base, Fx, Memory, Text, Ty, Value};
use std::alloc::Global;

/// The element of an array at the nearest place to an index.
pub fn read_element<'a>(alloc: Global, array: &Slot<'_>, index: i32) -> Result<Slot<'a>, Memory>
    requires array { IsTrue (is_array (type_of (seen array.now))) }
    requires no_matrix { (type_of (seen array.now)).base ≢ Base.Matrix }
    ensures { IfOk result (λ slot. seen slot ≡ element_of (seen array.now) (place index (type_of (seen array.now)).len)) }
{
    match array {
        Slot::Whole(value) => element_at(value, index),
        Slot::Lent(value) => element_at(value, index),
        Slot::Int(_) | Slot::Float(_) | Slot::Triple(_, _) | Slot::Str(_) | Slot::Closure(_) => {
            unreachable!()
        }
    }
}

fn element_at<'a>(array: &Value, index: i32) -> Result<Slot<'a>, Memory>
    requires array { IsTrue (is_array array.now.ty) }
    requires no_matrix { array.now.ty.base ≢ Base.Matrix }
    ensures { IfOk result (λ slot. seen slot ≡ element_of (Of array.now) (place index array.now.ty.len)) }
{
    let ty = array.ty();
    let k = place(index, ty.len) as usize;
    match ty.base {
        Base::Int => Ok(Slot::Int(array.int_at(k))),
        Base::Float => Ok(Slot::Float(array.float_at(k))),
        Base::Color => Ok(Slot::Triple(Kind::Color, triple_at(array, 3 * k))),
        Base::Point => Ok(Slot::Triple(Kind::Point, triple_at(array, 3 * k))),
        Base::Vector => Ok(Slot::Triple(Kind::Vector, triple_at(array, 3 * k))),
        Base::Normal => Ok(Slot::Triple(Kind::Normal, triple_at(array, 3 * k))),
        Base::Str => Ok(Slot::Str(array.texts()[k].copy()?)),
        Base::Matrix | Base::Closure => unreachable!(),
    }
}

/// The element of an array of matrices at the nearest place to an index.
pub fn matrix_element(array: &Slot<'_>, index: i32) -> [Fx; 16]
    requires array { IsTrue (is_array (type_of (seen array.now))) }
    requires matrices { (type_of (seen array.now)).base ≡ Base.Matrix }
    ensures { with_numbers (only Base.Matrix) result ≡ element_of (seen array.now) (place index (type_of (seen array.now)).len) }
{
    match array {
        Slot::Whole(value) => matrix_element_at(value, index),
        Slot::Lent(value) => matrix_element_at(value, index),
        Slot::Int(_) | Slot::Float(_) | Slot::Triple(_, _) | Slot::Str(_) | Slot::Closure(_) => {
            unreachable!()
        }
    }
}

fn matrix_element_at(array: &Value, index: i32) -> [Fx; 16]
    requires array { IsTrue (is_array array.now.ty) }
    requires matrices { array.now.ty.base ≡ Base.Matrix }
    ensures { with_numbers (only Base.Matrix) result ≡ element_of (Of array.now) (place index array.now.ty.len) }
{
    let ty = array.ty();
    let k = place(index, ty.len) as usize;
    matrix_at(array, 16 * k)
}

/// Makes a lent value the slot's own, so that it can be written in place.
pub fn own<'a>(alloc: Global, slot: &mut Slot<'a>) -> Result<(), Memory>
    requires { IsTrue (is_value slot.old) }
    ensures value { OnOk result (seen slot.new ≡ seen slot.old) }
    ensures whole { OnOk result (IsTrue (is_whole slot.new)) }
{
    if let Slot::Lent(value) = slot {
        *slot = whole(alloc, value)?;
    }
    Ok(())
}

/// Writes floats into a value, from a place on.
pub fn write_floats(value: &mut Value, from: usize, floats: &[Fx])
    requires floats { value.old.ty.base ≢ Base.Int }
    requires within { from + length floats.now ≤ length value.old.nums }
    ensures { value.new ≡ record value.old { nums = with_items_at (length floats.now) from floats.now value.old.nums } }
{
    let _nums = value.nums();
    for k in 0..floats.len() {
        value.set_float(from + k, floats[k]);
    }
}

/// Writes a whole matrix.
pub fn write_all(value: &mut Value, floats: &[Fx; 16])
    requires { IsTrue (is_only Base.Matrix value.old.ty) }
    ensures { Of value.new ≡ with_numbers (only Base.Matrix) floats.now }
{
    let _ty = value.ty();
    write_floats(value, 0, floats);
}

/// An element that is to be written.
#[derive(Drop)]
pub enum Element {
    Int(i32),
    Float([Fx; 1]),
    Triple([Fx; 3]),
    Matrix([Fx; 16]),
    Str(Text),
}

/// What an element's slot holds.
pub fn element_in(alloc: Global, ty: Ty, slot: &Slot<'_>) -> Result<Element, Memory>
    requires element { type_of (seen slot.now) ≡ element_type ty }
    requires array { IsTrue (is_array ty) }
    ensures value { IfOk result (λ element. seen slot.now ≡ element_value ty.base element) }
    ensures suits { IfOk result (λ element. IsTrue (suits ty.base element)) }
{
    match ty.base {
        Base::Int => Ok(Element::Int(slot.int())),
        Base::Float => Ok(Element::Float([slot.float()])),
        Base::Color | Base::Point | Base::Vector | Base::Normal => {
            Ok(Element::Triple(slot.triple()))
        }
        Base::Matrix => Ok(Element::Matrix(slot.matrix())),
        Base::Str => Ok(Element::Str(slot.text().copy()?)),
        Base::Closure => unreachable!(),
    }
}

/// Writes an element of an array in place.
pub fn write_element(array: &mut Value, k: usize, element: Element)
    requires array { IsTrue (is_array array.old.ty) }
    requires place { k < array.old.ty.len }
    requires element { IsTrue (suits array.old.ty.base element) }
    ensures { Of array.new ≡ with_element (Of array.old) k (element_value array.old.ty.base element) }
{
    let _ty = array.ty();
    match element {
        Element::Int(n) => array.set_int(k, n),
        Element::Float(floats) => write_floats(array, k, &floats),
        Element::Triple(floats) => write_floats(array, 3 * k, &floats),
        Element::Matrix(floats) => write_floats(array, 16 * k, &floats),
        Element::Str(text) => array.set_text(k, text),
    }
}
