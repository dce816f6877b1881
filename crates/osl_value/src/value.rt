ghost use Rattle.std.specs.Prelude.{◌≡◌, ◌≢◌, ◌<◌, ◌≤◌, ◌↔◌, length, slice_set, IsTrue, IsSome, IfSome, IfOk, replicate, []};
ghost use Rattle.std.specs.List.{All};
ghost use Rattle.osl_value.specs.Geometry.{number_at};
ghost use Rattle.osl_value.specs.Plain.{IsNumberOf};
ghost use Rattle.osl_value.specs.Types.{longest_array};

use crate::fx::Fx;
use crate::memory::Memory;
use crate::text::Text;
use crate::types::{Base, Ty};
use std::alloc::Global;
use std::marker::Model;

/// A value of a type that is no closure. Contracts see its type, its numbers and its texts.
///
/// Numbers are in the order of the elements and their components: an `int` as itself, a float
/// as its units.
#[derive(Debug, Drop)]
pub struct Value {
    ty: Ty,
    nums: Vec<i64>,
    texts: Vec<Text>,
}

impl Model for Value {
    ghost use Rattle.osl_value.specs.Plain.{Plain, IsPlain};

    ghost Value = { Plain };

    ghost view = { λ v. record { ty = v.ty; nums = v.nums.items; texts = v.texts.items } };

    ghost invariant = { λ v. IsPlain v.ty v.nums.items v.texts.items };
}

/// The most elements that an array has.
const LONGEST_ARRAY: u32 = 1024;

impl Value {
    ghost use Rattle.osl_value.specs.Plain.{IsPlain, zero_of};

    /// The value of this type with these numbers and texts.
    ///
    /// It is `None` where the type is a closure or an array longer than 1,024, where the count of
    /// numbers or of texts is not the type's, and where a number is out of its range: an `i32` for
    /// `int`, any but the least `i64` for floats.
    pub fn new(ty: Ty, nums: Vec<i64>, texts: Vec<Text>) -> Option<Value>
        ensures fits { IsSome result ↔ IsPlain ty nums.items texts.items }
        ensures value { IfSome result (λ v. v ≡ record { ty = ty; nums = nums.items; texts = texts.items }) }
    {
        if ty.base == Base::Closure || ty.len > LONGEST_ARRAY {
            return None;
        }
        if nums.len() != ty.number_count() || texts.len() != ty.text_count() {
            return None;
        }
        if !are_in_range(ty.base, nums.as_slice()) {
            return None;
        }
        Some(Value { ty, nums, texts })
    }

    /// The value of this type whose numbers are 0 and whose texts are empty.
    pub fn zero(alloc: Global, ty: Ty) -> Result<Value, Memory>
        requires plain { ty.base ≢ Base.Closure }
        requires short { ty.len ≤ longest_array }
        ensures { IfOk result (λ v. v ≡ zero_of ty) }
    {
        let nums = vec![in alloc; 0; ty.number_count()]?;
        let texts = empty_texts(alloc, ty.text_count())?;
        Ok(Value { ty, nums, texts })
    }

    /// Its type.
    pub fn ty(&self) -> Ty
        ensures value { result ≡ self.now.ty }
        ensures fits { IsPlain self.now.ty self.now.nums self.now.texts }
    {
        let _nums = &self.nums;
        self.ty
    }

    /// Its numbers.
    pub fn nums(&self) -> &[i64]
        ensures { result.now ≡ self.now.nums }
    {
        self.nums.as_slice()
    }

    /// Its texts.
    pub fn texts(&self) -> &[Text]
        ensures { result.now ≡ self.now.texts }
    {
        self.texts.as_slice()
    }

    /// The number at a place of an int or of ints.
    pub fn int_at(&self, i: usize) -> i32
        requires ints { self.now.ty.base ≡ Base.Int }
        requires within { i < length self.now.nums }
        ensures { result ≡ number_at self.now.nums i }
    {
        self.nums[i] as i32
    }

    /// The number at a place of floats, as the float of those units.
    pub fn float_at(&self, i: usize) -> Fx
        requires floats { self.now.ty.base ≢ Base.Int }
        requires within { i < length self.now.nums }
        ensures { result ≡ number_at self.now.nums i }
    {
        Fx::from_units(self.nums[i])
    }

    /// Writes an int at a place of an int or of ints.
    pub fn set_int(&mut self, i: usize, n: i32)
        requires ints { self.old.ty.base ≡ Base.Int }
        requires within { i < length self.old.nums }
        ensures { self.new ≡ record self.old { nums = slice_set self.old.nums i n } }
    {
        self.nums[i] = n as i64;
    }

    /// Writes a float at a place of floats.
    pub fn set_float(&mut self, i: usize, x: Fx)
        requires floats { self.old.ty.base ≢ Base.Int }
        requires within { i < length self.old.nums }
        ensures { self.new ≡ record self.old { nums = slice_set self.old.nums i x } }
    {
        self.nums[i] = x.units();
    }

    /// Writes a text at a place.
    pub fn set_text(&mut self, i: usize, text: Text)
        requires within { i < length self.old.texts }
        ensures { self.new ≡ record self.old { texts = slice_set self.old.texts i text } }
    {
        self.texts[i] = text;
    }

    /// An equal value.
    pub fn copy(&self) -> Result<Value, Memory>
        ensures { IfOk result (λ v. v ≡ self.now) }
    {
        let nums = self.nums.clone()?;
        let texts = copies_of(*self.texts.allocator(), self.texts.as_slice())?;
        Ok(Value {
            ty: self.ty,
            nums,
            texts,
        })
    }
}

/// Whether each number is one that the base type holds.
fn are_in_range(base: Base, nums: &[i64]) -> bool
    ensures { IsTrue result ↔ All (IsNumberOf base) nums.now }
{
    if base == Base::Int {
        nums.iter().all(|n| i32::try_from(*n).is_ok())
    } else {
        nums.iter().all(|n| *n != i64::MIN)
    }
}

/// Texts without bytes.
fn empty_texts(alloc: Global, count: usize) -> Result<Vec<Text>, Memory>
    ensures { IfOk result (λ texts. texts.items ≡ replicate count []) }
{
    let mut texts = Vec::with_capacity(alloc, count)?;
    for _i in 0..count {
        texts.push(Text::empty(alloc))?;
    }
    Ok(texts)
}

/// Equal texts.
fn copies_of(alloc: Global, texts: &[Text]) -> Result<Vec<Text>, Memory>
    ensures { IfOk result (λ copies. copies.items ≡ texts.now) }
{
    let mut copies = Vec::with_capacity(alloc, texts.len())?;
    for text in texts {
        copies.push(text.copy()?)?;
    }
    Ok(copies)
}
