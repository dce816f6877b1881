//! What a group sees of the parameters of code.

ghost use Rattle.std.specs.Prelude.{◌≡◌, IfOk};
ghost use Rattle.std.specs.List.{list_any};
ghost use Rattle.osl_value.specs.Types.{is_only};
ghost use Rattle.oso_code.specs.CodeRun.{is_output};
ghost use Rattle.osl_network.specs.Shaders.{are_zero, meta_unlocks, port_of, ports_of};

use osl_network::Port;
use osl_value::{Base, Memory, Ty};
use oso_code::{Class, Meta, Raw, Symbol};
use std::alloc::Global;

/// The name of the datum that says whether a parameter is locked.
const LOCKGEOM: &[u8] = b"lockgeom";

/// The parameters of code, as a group sees them.
pub fn ports_of(alloc: Global, raw: &Raw) -> Result<Vec<Port>, Memory>
    ensures { IfOk result (λ ports. ports.items ≡ ports_of raw.now) }
{
    let mut found = Vec::new(alloc);
    for symbol in raw.symbols.as_slice() {
        if symbol.class.is_parameter() {
            found.push(port_of(symbol)?)?;
        }
    }
    Ok(found)
}

fn port_of(symbol: &Symbol) -> Result<Port, Memory>
    ensures { IfOk result (λ port. port ≡ port_of symbol.now) }
{
    let name = symbol.name.copy()?;
    Ok(Port {
        name,
        ty: symbol.ty,
        output: is_output(symbol.class),
        loose: is_loose(symbol.metas.as_slice()),
    })
}

/// Whether one of the data is `int lockgeom = 0`.
fn is_loose(metas: &[Meta]) -> bool
    ensures { result ≡ list_any meta_unlocks metas.now }
{
    metas.iter().any(|meta| unlocks(meta))
}

fn is_output(class: Class) -> bool
    ensures { result ≡ is_output class }
{
    class == Class::Oparam
}

/// Whether the datum is `int lockgeom = 0`.
fn unlocks(meta: &Meta) -> bool
    ensures { result ≡ meta_unlocks meta.now }
{
    is_int(meta.ty) && meta.name.bytes() == LOCKGEOM && are_zero(meta.nums.as_slice())
}

fn is_int(ty: Ty) -> bool
    ensures { result ≡ is_only Base.Int ty }
{
    matches!(ty.base, Base::Int) && ty.len == 0
}

fn are_zero(nums: &[i64]) -> bool
    ensures { result ≡ are_zero nums.now }
{
    match nums {
        [n] => *n == 0,
        _ => false,
    }
}
