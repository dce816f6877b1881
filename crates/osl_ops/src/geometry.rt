ghost use Rattle.std.specs.Prelude.{◌≡◌, ◌<◌, length, IsTrue, [], ◌∷◌};
ghost use Rattle.osl_value.specs.Geometry.{dot, cross, length_of, distance, normalize};
ghost use Rattle.osl_ops.specs.Operations.{geometric, is_geometric, IsSecond};

use osl_value::{Fx, OpName};

/// Writes what an operation on one or two triples gives: a float for `Dot`, `Length` and `Distance`,
/// a triple for `Cross` and `Normalize`. `Length` and `Normalize` ignore `b`.
pub fn geometric(op: OpName, a: &[Fx], b: &[Fx], out: &mut [Fx])
    requires op { IsTrue (is_geometric op) }
    requires a { length a.now ≡ 3 }
    requires b { IsSecond op b.now }
    requires out { length out.old ≡ length (geometric op a.now b.now) }
    ensures { out.new ≡ geometric op a.now b.now }
{
    match op {
        OpName::Dot => write_float(out, dot(a, b)),
        OpName::Cross => write_triple(out, cross(a, b)),
        OpName::Length => write_float(out, length(a)),
        OpName::Distance => write_float(out, distance(a, b)),
        OpName::Normalize => write_triple(out, normalize(a)),
        _ => unreachable!(),
    }
}

fn dot(a: &[Fx], b: &[Fx]) -> Fx
    requires a { length a.now ≡ 3 }
    requires b { length b.now ≡ 3 }
    ensures { result ≡ dot a.now b.now }
{
    a[0].mul(b[0]).add(a[1].mul(b[1])).add(a[2].mul(b[2]))
}

fn cross(a: &[Fx], b: &[Fx]) -> [Fx; 3]
    requires a { length a.now ≡ 3 }
    requires b { length b.now ≡ 3 }
    ensures { result ≡ cross a.now b.now }
{
    [
        a[1].mul(b[2]).sub(a[2].mul(b[1])),
        a[2].mul(b[0]).sub(a[0].mul(b[2])),
        a[0].mul(b[1]).sub(a[1].mul(b[0])),
    ]
}

fn length(a: &[Fx]) -> Fx
    requires { length a.now ≡ 3 }
    ensures { result ≡ length_of a.now }
{
    dot(a, a).sqrt()
}

fn distance(a: &[Fx], b: &[Fx]) -> Fx
    requires a { length a.now ≡ 3 }
    requires b { length b.now ≡ 3 }
    ensures { result ≡ distance a.now b.now }
{
    let apart = [a[0].sub(b[0]), a[1].sub(b[1]), a[2].sub(b[2])];
    length(&apart)
}

fn normalize(a: &[Fx]) -> [Fx; 3]
    requires { length a.now ≡ 3 }
    ensures { result ≡ normalize a.now }
{
    let length = length(a);
    [a[0].div(length), a[1].div(length), a[2].div(length)]
}

/// Writes one float.
fn write_float(out: &mut [Fx], float: Fx)
    requires { length out.old ≡ 1 }
    ensures { out.new ≡ float ∷ [] }
{
    out[0] = float;
}

/// Writes three floats.
fn write_triple(out: &mut [Fx], triple: [Fx; 3])
    requires { length out.old ≡ 3 }
    ensures { out.new ≡ triple }
{
    out.copy_from_slice(&triple);
}
