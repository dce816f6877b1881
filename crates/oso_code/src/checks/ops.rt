//! What an op of code takes, and which symbols it may read and write.

ghost use Rattle.std.specs.Prelude.{◌≡◌, map, slice_get};
ghost use Rattle.std.specs.List.{list_all};
ghost use Rattle.osl_value.specs.Table.{updates};
ghost use Rattle.oso_code.specs.Ops.{is_conditional, range_count, takes_condition, operands, takes_arguments, takes_types, type_at, written, overwritten, reads, is_owner, is_assignable_in, may_write_class, may_write_symbol, may_write, comes_later, may_read, may_read_symbol, is_number_of, op_fits};

use crate::checks::allowed::is_allowed;
use crate::checks::form::{is_only, type_at};
use crate::op::Op;
use crate::symbol::{Class, Symbol};
use osl_layer::GlobalName;
use osl_value::{Base, OpName, ShaderKind};

/// Whether it is a control operation that reads a condition.
pub fn is_conditional(name: OpName) -> bool
    ensures { result ≡ is_conditional name }
{
    matches!(
        name,
        OpName::If | OpName::For | OpName::While | OpName::DoWhile
    )
}

/// How many ranges an operation has, each with a jump to its end.
pub fn range_count(name: OpName) -> usize
    ensures { result ≡ range_count name }
{
    match name {
        OpName::For => 3,
        OpName::If | OpName::While | OpName::DoWhile => 2,
        OpName::FunctionCall => 1,
        _ => 0,
    }
}

/// What an operation with a value reads of its arguments: all but the first, which is written, or all where it is read
/// too.
pub fn operands(name: OpName, args: &[u32]) -> &[u32]
    ensures { result.now ≡ operands name args.now }
{
    match args {
        [_first, others @ ..] if !name.updates() => others,
        _ => args,
    }
}

fn takes_condition(name: OpName, symbols: &[Symbol], args: &[u32]) -> bool
    ensures { result ≡ takes_condition name (map (type_at symbols.now) args.now) }
{
    match args {
        [] => !is_conditional(name),
        [condition] => is_conditional(name) && is_only(Base::Int, type_at(symbols, *condition)),
        _ => false,
    }
}

fn takes_arguments(name: OpName, symbols: &[Symbol], args: &[u32]) -> bool
    ensures { result ≡ takes_arguments name (map (type_at symbols.now) args.now) }
{
    match args {
        [target, ..] => is_allowed(
            name,
            type_at(symbols, *target),
            symbols,
            operands(name, args),
        ),
        [] => false,
    }
}

/// Whether the operation takes arguments of the symbols' types.
fn takes_types(name: OpName, symbols: &[Symbol], args: &[u32]) -> bool
    ensures { result ≡ takes_types name (map (type_at symbols.now) args.now) }
{
    if name.is_control() {
        takes_condition(name, symbols, args)
    } else {
        takes_arguments(name, symbols, args)
    }
}

/// The symbol that an op writes.
pub fn written(op: &Op) -> Option<u32>
    ensures { result ≡ written op.now }
{
    if op.name.is_control() {
        None
    } else {
        op.args.as_slice().first().copied()
    }
}

/// The symbol that an op overwrites: the one that it writes, where it does not read it too.
pub fn overwritten(op: &Op) -> Option<u32>
    ensures { result ≡ overwritten op.now }
{
    if op.name.updates() { None } else { written(op) }
}

/// The symbols that an op reads, in the order in which it reads them: its condition, or its operands.
pub fn reads(op: &Op) -> &[u32]
    ensures { result.now ≡ reads op.now }
{
    if op.name.is_control() {
        op.args.as_slice()
    } else {
        operands(op.name, op.args.as_slice())
    }
}

/// Whether a shader of the kind may assign the global: displacement the position and the normal, surface and volume
/// the closure.
pub fn is_assignable_in(kind: ShaderKind, global: GlobalName) -> bool
    ensures { result ≡ is_assignable_in kind global }
{
    match kind {
        ShaderKind::Displacement => global == GlobalName::P || global == GlobalName::N,
        ShaderKind::Surface | ShaderKind::Volume => global == GlobalName::Ci,
        ShaderKind::Shader => false,
    }
}

/// Whether a symbol may be written; `owned` says that the op is in its section.
fn may_write_symbol(kind: ShaderKind, owned: bool, symbol: &Symbol) -> bool
    ensures { result ≡ may_write_class kind owned symbol.now.name symbol.now.class }
{
    match symbol.class {
        Class::Param => owned,
        Class::Global => match GlobalName::named(symbol.name.bytes()) {
            Some(global) => is_assignable_in(kind, global),
            None => false,
        },
        Class::Const => false,
        Class::Oparam | Class::Local | Class::Temp => true,
    }
}

fn may_write(kind: ShaderKind, symbols: &[Symbol], owner: Option<u32>, target: Option<u32>) -> bool
    ensures { result ≡ may_write kind symbols.now owner target }
{
    let Some(target) = target else {
        return true;
    };
    match symbols.get(target as usize) {
        Some(symbol) => may_write_symbol(kind, owner == Some(target), symbol),
        None => false,
    }
}

/// Whether the number comes after that of the section's owner.
fn comes_later(owner: Option<u32>, number: u32) -> bool
    ensures { result ≡ comes_later owner number }
{
    match owner {
        Some(owner) => owner < number,
        None => false,
    }
}

/// Whether a symbol may be read: a section does not read parameters that come after its owner.
fn may_read(symbols: &[Symbol], owner: Option<u32>, number: u32) -> bool
    ensures { result ≡ may_read symbols.now owner number }
{
    match symbols.get(number as usize) {
        Some(symbol) => !(comes_later(owner, number) && symbol.class.is_parameter()),
        None => false,
    }
}

fn may_read_all(symbols: &[Symbol], owner: Option<u32>, numbers: &[u32]) -> bool
    ensures { result ≡ list_all (may_read symbols.now owner) numbers.now }
{
    numbers
        .iter()
        .all(|number| may_read(symbols, owner, *number))
}

fn are_numbers_of(symbols: &[Symbol], args: &[u32]) -> bool
    ensures { result ≡ list_all (is_number_of symbols.now) args.now }
{
    args.iter().all(|number| (*number as usize) < symbols.len())
}

/// Whether an op fits that is in the section of the parameter `owner`, or in that of the body: its arguments are
/// symbols, their count, types and classes and the count of jumps are the operation's, and no later parameter is read.
pub fn op_fits(kind: ShaderKind, symbols: &[Symbol], owner: Option<u32>, op: &Op) -> bool
    ensures { result ≡ op_fits kind symbols.now owner op.now }
{
    let args = op.args.as_slice();
    are_numbers_of(symbols, args)
        && op.jumps.len() == range_count(op.name)
        && takes_types(op.name, symbols, args)
        && may_write(kind, symbols, owner, written(op))
        && may_read_all(symbols, owner, reads(op))
}
