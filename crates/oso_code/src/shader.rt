ghost use Rattle.std.specs.Prelude.{◌≡◌, IfOk};

use crate::raw::Raw;
use osl_value::Memory;
use std::alloc::Global;
use std::marker::Model;

/// Code that is valid. Contracts see it as its `Raw`.
#[derive(Debug, Drop)]
pub struct Shader {
    raw: Raw,
}

impl Model for Shader {
    ghost use Rattle.oso_code.specs.declared.raw.Raw.{Raw};
    ghost use Rattle.oso_code.specs.Valid.{IsValid};

    ghost Value = { Raw };

    ghost view = { λ shader. shader.raw };

    ghost invariant = { λ shader. IsValid shader.raw };
}

impl Shader {
    ghost use Rattle.std.specs.Prelude.{None};
    ghost use Rattle.oso_code.specs.Valid.{IsValid, first_flaw};

    /// The shader of code that is valid.
    pub fn of_valid(raw: Raw) -> Shader
        requires { IsValid raw }
        ensures { result ≡ raw }
    {
        Shader { raw }
    }

    /// The shader of code that has no flaw, which is the same (`laws::validity_is_exact`).
    pub fn of_flawless(raw: Raw) -> Shader
        requires { first_flaw raw ≡ None }
        ensures { result ≡ raw }
    {
        Shader { raw }
    }

    /// The code itself.
    pub fn raw(&self) -> &Raw
        ensures value { result.now ≡ self.now }
        ensures valid { IsValid self.now }
    {
        &self.raw
    }

    /// An equal shader.
    pub fn copy(&self, alloc: Global) -> Result<Shader, Memory>
        ensures { IfOk result (λ shader. shader ≡ self.now) }
    {
        let raw = self.raw.copy(alloc)?;
        Ok(Shader { raw })
    }

    /// The code, given back to be changed.
    pub fn into_raw(self) -> Raw
        ensures value { result ≡ self }
        ensures valid { IsValid result }
    {
        let Shader { raw } = self;
        raw
    }
}
