ghost use Rattle.std.specs.Prelude.{◌≡◌, ◌<◌, ◌⊎◌, length, [], ◌∷◌};
ghost use Rattle.osl_value.specs.Numbers.{value_at};
ghost use Rattle.osl_value.specs.Geometry.{number_at, component, each};
ghost use Rattle.osl_value.specs.Table.{table};
ghost use Rattle.osl_ops.specs.Operations.{TakesFloats, Suits};

use osl_value::{Fx, OpName};

/// Writes what an operation on one argument gives, component by component.
pub fn one(op: OpName, a: &[Fx], out: &mut [Fx])
    requires op { TakesFloats op 1 }
    requires a { Suits (length out.old) (length a.now) }
    ensures { out.new ≡ each (length out.old) (table op).floats (a.now ∷ []) }
{
    for k in 0..out.len() {
        out[k] = of_one(op, component(a, k));
    }
}

/// Writes what an operation on two arguments gives, component by component, a single float being
/// repeated.
pub fn two(op: OpName, a: &[Fx], b: &[Fx], out: &mut [Fx])
    requires op { TakesFloats op 2 }
    requires a { Suits (length out.old) (length a.now) }
    requires b { Suits (length out.old) (length b.now) }
    ensures { out.new ≡ each (length out.old) (table op).floats (a.now ∷ b.now ∷ []) }
{
    for k in 0..out.len() {
        out[k] = of_two(op, component(a, k), component(b, k));
    }
}

/// Writes what an operation on three arguments gives, component by component, a single float being
/// repeated.
pub fn three(op: OpName, a: &[Fx], b: &[Fx], c: &[Fx], out: &mut [Fx])
    requires op { TakesFloats op 3 }
    requires a { Suits (length out.old) (length a.now) }
    requires b { Suits (length out.old) (length b.now) }
    requires c { Suits (length out.old) (length c.now) }
    ensures { out.new ≡ each (length out.old) (table op).floats (a.now ∷ b.now ∷ c.now ∷ []) }
{
    for k in 0..out.len() {
        out[k] = of_three(op, component(a, k), component(b, k), component(c, k));
    }
}

/// The float at place k, or the only one.
fn component(floats: &[Fx], k: usize) -> Fx
    requires { (length floats.now ≡ 1) ⊎ (k < length floats.now) }
    ensures { result ≡ component floats.now k }
{
    if floats.len() == 1 {
        floats[0]
    } else {
        floats[k]
    }
}

fn of_one(op: OpName, x: Fx) -> Fx
    requires { TakesFloats op 1 }
    ensures { result ≡ value_at (table op).floats (number_at (x ∷ [])) }
{
    match op {
        OpName::Neg => x.neg(),
        OpName::Abs => x.abs(),
        OpName::Sign => x.sign(),
        OpName::Floor => x.floor(),
        OpName::Ceil => x.ceil(),
        OpName::Round => x.round(),
        OpName::Trunc => x.trunc(),
        OpName::Sqrt => x.sqrt(),
        OpName::InverseSqrt => x.inversesqrt(),
        _ => unreachable!(),
    }
}

fn of_two(op: OpName, x: Fx, y: Fx) -> Fx
    requires { TakesFloats op 2 }
    ensures { result ≡ value_at (table op).floats (number_at (x ∷ y ∷ [])) }
{
    match op {
        OpName::Add => x.add(y),
        OpName::Sub => x.sub(y),
        OpName::Mul => x.mul(y),
        OpName::Div => x.div(y),
        OpName::Min => x.min(y),
        OpName::Max => x.max(y),
        OpName::Fmod => x.fmod(y),
        OpName::Mod => x.modulo(y),
        OpName::Step => x.step(y),
        _ => unreachable!(),
    }
}

fn of_three(op: OpName, x: Fx, y: Fx, z: Fx) -> Fx
    requires { TakesFloats op 3 }
    ensures { result ≡ value_at (table op).floats (number_at (x ∷ y ∷ z ∷ [])) }
{
    match op {
        OpName::Clamp => x.clamp(y, z),
        OpName::Mix => x.mix(y, z),
        OpName::SmoothStep => Fx::smoothstep(x, y, z),
        _ => unreachable!(),
    }
}
