//! The measure of a typed shader.

pub(crate) mod exprs;
pub(crate) mod stmts;

ghost use Rattle.std.specs.Prelude.{◌≡◌, length, map, IfOk};
ghost use Rattle.osl_typed.specs.Measured.{cut, measured, IsLeafTable, IsCallTable};
ghost use Rattle.osl_typed.specs.Seen.{seen};
ghost use Rattle.osl_typed.specs.Sizes as spec;

use crate::measure::stmts::{body, init};
use crate::shader::{TypedParam, TypedShader};
use crate::sizes::{Leaves, Sizes, Weight, stopped};
use crate::tables::Tables;
use crate::tables::build::{call_table, leaf_table};
use osl_overload::Kind;
use osl_value::Memory;
use std::alloc::Global;

/// One above the most bytes of a string.
const TEXT_TOP: u32 = 513;

/// One above the most bytes of a name.
const WORD_TOP: u32 = 256;

/// What every shader has.
const BASE: Weight = Weight {
    size: 64,
    slots: 64,
    calls: 0,
};

fn param(tables: &Tables, param: &TypedParam) -> Weight
    ensures { result ≡ cut (spec.param_weight (seen tables.now) param.now) }
{
    let kind = Kind::Value(param.ty);
    tables.valued(kind).and(init(tables, kind, &param.init))
}

fn all_params(tables: &Tables, params: &[TypedParam]) -> Weight
    ensures { result ≡ cut (spec.all_of (map (spec.param_weight (seen tables.now)) params.now)) }
{
    let mut sum = Weight::NOTHING;
    for p in params {
        sum = sum.and(param(tables, p));
    }
    sum
}

/// The weight of a shader, by the tables of its structures and functions.
#[tactic(auto, unfolding(crate::specs::Sizes::weight_of))]
fn weigh(leaves: &[Leaves], calls: &[Weight], shader: &TypedShader) -> Weight
    requires leaves_known { IsLeafTable shader.now.structures leaves.now }
    requires all_leaves { length leaves.now ≡ length shader.now.structures }
    requires calls_known { IsCallTable shader.now.structures shader.now.functions calls.now }
    requires all_calls { length calls.now ≡ length shader.now.functions }
    ensures { result ≡ cut (spec.weight_of shader.now) }
{
    let tables = Tables {
        structures: shader.structures.as_slice(),
        leaves,
        functions: shader.functions.as_slice(),
        calls,
        kinds: shader.frame.as_slice(),
    };
    let params = all_params(&tables, shader.params.as_slice());
    BASE.and(params).and(body(&tables, shader.body.as_slice()))
}

/// The weight of a shader.
fn weight_of(alloc: Global, shader: &TypedShader) -> Result<Weight, Memory>
    ensures { IfOk result (λ w. w ≡ cut (spec.weight_of shader.now)) }
{
    let structures = shader.structures.as_slice();
    let leaves = leaf_table(alloc, structures)?;
    let functions = shader.functions.as_slice();
    let calls = call_table(alloc, structures, leaves.as_slice(), functions)?;
    Ok(weigh(leaves.as_slice(), calls.as_slice(), shader))
}

/// The sizes of a shader. Each function is weighed once.
pub(crate) fn sizes_of(alloc: Global, shader: &TypedShader) -> Result<Sizes, Memory>
    ensures { IfOk result (λ sizes. sizes ≡ measured shader.now) }
{
    let weight = weight_of(alloc, shader)?;
    Ok(Sizes {
        size: weight.size,
        slots: weight.slots,
        calls: weight.calls,
        longest_text: stopped(shader.longest_text, TEXT_TOP),
        longest_word: stopped(shader.longest_word, WORD_TOP),
    })
}
