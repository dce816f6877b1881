ghost use Rattle.std.specs.Prelude.{◌≡◌, ◌≤◌, length, IfOk};
ghost use Rattle.osl_value.specs.Types.{longest_text};

use bumpalo::Bump;
use osl_value::{Fx, Memory, Primitive};

/// A primitive with its numbers.
#[derive(Clone, Copy)]
pub(crate) struct Arguments {
    pub(crate) prim: Primitive,
    pub(crate) normal: [Fx; 3],
    pub(crate) number: Fx,
}

/// A string whose bytes lie in an arena.
#[derive(Clone, Copy)]
pub(crate) struct ArenaText<'a> {
    pub(crate) bytes: &'a [u8],
    ghost short: { length bytes.now ≤ longest_text },
}

/// The string of a copy of these bytes.
pub(crate) fn place_text<'a>(arena: &'a Bump, bytes: &[u8]) -> Result<ArenaText<'a>, Memory>
    requires { length bytes.now ≤ longest_text }
    ensures { IfOk result (λ text. text.bytes.now ≡ bytes.now) }
{
    let bytes = arena.try_alloc_slice_copy(bytes)?;
    Ok(ArenaText { bytes })
}
