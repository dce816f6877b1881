ghost use Rattle.std.specs.Prelude.{◌≡◌, ◌<◌, [], ◌∷◌};
ghost use Rattle.osl_value.specs.Numbers.{truth, int_add, int_sub, int_mul, int_neg, int_abs, int_quotient, int_remainder, int_shl, int_shr, value_at};
ghost use Rattle.osl_value.specs.Geometry.{number_at};
ghost use Rattle.osl_value.specs.Table.{table};
ghost use Rattle.osl_ops.specs.Operations.{TakesInts};

use osl_value::OpName;

/// The int that the operation gives on one or two ints; one that takes a single int ignores `b`.
pub fn ints(op: OpName, a: i32, b: i32) -> i32
    requires { TakesInts op }
    ensures { result ≡ value_at (table op).ints (number_at (a ∷ b ∷ [])) }
{
    match op {
        OpName::Add => sum(a, b),
        OpName::Sub => difference(a, b),
        OpName::Mul => product(a, b),
        OpName::Div => quotient(a, b),
        OpName::IRem => remainder(a, b),
        OpName::Neg => negated(a),
        OpName::Compl => !a,
        OpName::BitAnd => a & b,
        OpName::BitOr => a | b,
        OpName::Xor => a ^ b,
        OpName::Shl => shifted_left(a, b),
        OpName::Shr => shifted_right(a, b),
        OpName::Not => truth(a == 0),
        OpName::Eq => truth(a == b),
        OpName::Neq => truth(a != b),
        OpName::Lt => truth(a < b),
        OpName::Gt => truth(a > b),
        OpName::Le => truth(a <= b),
        OpName::Ge => truth(a >= b),
        OpName::Abs => magnitude(a),
        OpName::Min => a.min(b),
        OpName::Max => a.max(b),
        _ => unreachable!(),
    }
}

/// The sum, which wraps.
fn sum(a: i32, b: i32) -> i32
    ensures { result ≡ int_add a b }
{
    a.wrapping_add(b)
}

/// The difference, which wraps.
fn difference(a: i32, b: i32) -> i32
    ensures { result ≡ int_sub a b }
{
    a.wrapping_sub(b)
}

/// The product, which wraps.
fn product(a: i32, b: i32) -> i32
    ensures { result ≡ int_mul a b }
{
    a.wrapping_mul(b)
}

/// The number with the other sign, which wraps.
fn negated(a: i32) -> i32
    ensures { result ≡ int_neg a }
{
    a.wrapping_neg()
}

/// The number without its sign, which wraps.
fn magnitude(a: i32) -> i32
    ensures { result ≡ int_abs a }
{
    a.wrapping_abs()
}

/// The quotient cut toward zero, which wraps; 0 where the divisor is 0.
#[tactic(auto, using(crate::proofs::Wrapping::quotient_by_minus_one, crate::proofs::Wrapping::quotient_stays))]
fn quotient(a: i32, b: i32) -> i32
    ensures { result ≡ int_quotient a b }
{
    if b == 0 {
        return 0;
    }
    if b == -1 {
        return a.wrapping_neg();
    }
    a / b
}

/// What the quotient leaves; 0 where the divisor is 0.
fn remainder(a: i32, b: i32) -> i32
    ensures { result ≡ int_remainder a b }
{
    if b == 0 {
        return 0;
    }
    difference(a, product(b, quotient(a, b)))
}

/// The number times 2 to the low five bits of a count.
fn shifted_left(a: i32, count: i32) -> i32
    ensures { result ≡ int_shl a count }
{
    a.wrapping_shl(count.cast_unsigned())
}

/// The number over 2 to the low five bits of a count, rounded down.
fn shifted_right(a: i32, count: i32) -> i32
    ensures { result ≡ int_shr a count }
{
    a.wrapping_shr(count.cast_unsigned())
}

/// 1 where a test holds, else 0.
fn truth(holds: bool) -> i32
    ensures { result ≡ truth holds }
{
    if holds { 1 } else { 0 }
}
