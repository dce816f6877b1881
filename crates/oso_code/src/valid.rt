//! From code, valid or not, to code that is valid.

ghost use Rattle.std.specs.Prelude.{◌≡◌, ◌<◌, ◌^◌, length, None, IfOk, IfErr};
ghost use Rattle.oso_code.specs.Valid.{first_flaw};
ghost use Rattle.oso_code.specs.Refusal.{Refuses};

use crate::error::CodeError;
use crate::flaws::first_flaw;
use crate::raw::Raw;
use crate::shader::Shader;
use std::alloc::Global;

/// The code, if it is valid, and else the code given back with its first flaw.
///
/// A flaw is of the first kind, in the order of `FlawKind`, of which there is a fault. `at` is the number of the first
/// symbol at fault, or of the first op at fault, or 0 for a limit. Of two symbols of one name the later is at fault; a
/// fault of the shader's own name or metadata counts as that of symbol 0, and a fault of a section as that of the op
/// at its start, or at its end where it is the last one and is not the body's or ends before the ops do.
pub fn validate(alloc: Global, raw: Raw) -> Result<Shader, (Raw, CodeError)>
    requires symbols { length raw.symbols < 2 ^ 32 }
    requires ops { length raw.ops < 2 ^ 32 }
    ensures value { IfOk result (λ shader. shader ≡ raw) }
    ensures valid { IfOk result (λ shader. first_flaw raw ≡ None) }
    ensures back { IfErr result (λ refused. refused.0 ≡ raw) }
    ensures cause { IfErr result (λ refused. Refuses raw refused.1) }
{
    match first_flaw(alloc, &raw) {
        Ok(None) => Ok(Shader::of_flawless(raw)),
        Ok(Some((kind, at))) => Err((raw, CodeError::Flaw { kind, at })),
        Err(_memory) => Err((raw, CodeError::Memory)),
    }
}
