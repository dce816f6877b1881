//! Control ops, sections and defaults, and connected parameters.

use super::{Layer, ended, output};
use crate::code::{Line, Part, int, ops, sections, shader, symbol};
use bumpalo::Bump;
use osl_interp::{Given, OutRef};
use osl_value::{Base, LayerValues, Memory, OpName, Ty, Value};
use oso_code::{Class, Symbol};
use std::alloc::Global;
use std::process::Abort;
use std::test::Fail;

/// A layer of ints, and what becomes of it.
struct Case {
    name: &'static str,
    sections: &'static [Part],
    ops: &'static [Line],
    budget: u32,
    /// What each parameter has: 0 its default, 1 the value 5, 2 a connection to 3, 3 a connection to nothing, 4 a
    /// connection to 0.
    inputs: [u8; 3],
    /// The parameters that it asks for.
    asks: &'static [u32],
    /// What its output is, or nothing where it is spent.
    gives: Option<i32>,
}

// The symbols: the parameters a, b and r, constants, and variables.
const A: u32 = 0;

const B: u32 = 1;

const R: u32 = 2;

const ZERO: u32 = 3;

const ONE: u32 = 4;

const THREE: u32 = 5;

const SIX: u32 = 6;

const TEN: u32 = 7;

const I: u32 = 8;

const T: u32 = 9;

static SYMBOLS: [(Class, &str, Option<i32>); 10] = [
    (Class::Param, "a", Some(7)),
    (Class::Param, "b", Some(0)),
    (Class::Oparam, "r", Some(0)),
    (Class::Const, "c0", Some(0)),
    (Class::Const, "c1", Some(1)),
    (Class::Const, "c3", Some(3)),
    (Class::Const, "c6", Some(6)),
    (Class::Const, "c10", Some(10)),
    (Class::Local, "i", None),
    (Class::Temp, "t", None),
];

static CASES: [Case; 29] = [
    Case {
        name: "a default",
        sections: &[(None, 0, 1)],
        ops: &[(OpName::Assign, &[R, A], &[])],
        budget: 1,
        inputs: [0, 0, 0],
        asks: &[],
        gives: Some(7),
    },
    Case {
        name: "a connected value",
        sections: &[(None, 0, 1)],
        ops: &[(OpName::Assign, &[R, A], &[])],
        budget: 1,
        inputs: [2, 0, 0],
        asks: &[A],
        gives: Some(3),
    },
    Case {
        name: "connected to nothing",
        sections: &[(None, 0, 1)],
        ops: &[(OpName::Assign, &[R, A], &[])],
        budget: 1,
        inputs: [3, 0, 0],
        asks: &[A],
        gives: None,
    },
    Case {
        name: "two connected",
        sections: &[(None, 0, 2)],
        ops: &[
            (OpName::Add, &[R, A, B], &[]),
            (OpName::Add, &[R, R, A], &[]),
        ],
        budget: 1,
        inputs: [2, 2, 0],
        asks: &[A, B],
        gives: Some(9),
    },
    Case {
        name: "the second is nothing",
        sections: &[(None, 0, 1)],
        ops: &[(OpName::Add, &[R, A, B], &[])],
        budget: 1,
        inputs: [2, 3, 0],
        asks: &[A, B],
        gives: None,
    },
    Case {
        name: "the budget is spent",
        sections: &[(None, 0, 1)],
        ops: &[(OpName::While, &[ONE], &[1, 1])],
        budget: 3,
        inputs: [0, 0, 0],
        asks: &[],
        gives: None,
    },
    Case {
        name: "one turn is enough",
        sections: &[(None, 0, 1)],
        ops: &[(OpName::DoWhile, &[ZERO], &[1, 1])],
        budget: 1,
        inputs: [0, 0, 0],
        asks: &[],
        gives: Some(0),
    },
    Case {
        name: "for",
        sections: &[(None, 0, 4)],
        ops: &[
            (OpName::For, &[T], &[2, 3, 4]),
            (OpName::Lt, &[T, I, TEN], &[]),
            (OpName::Add, &[R, R, I], &[]),
            (OpName::Add, &[I, I, ONE], &[]),
        ],
        budget: 10,
        inputs: [0, 0, 0],
        asks: &[],
        gives: Some(45),
    },
    Case {
        name: "continue and break",
        sections: &[(None, 0, 10)],
        ops: &[
            (OpName::While, &[T], &[2, 10]),
            (OpName::Lt, &[T, I, TEN], &[]),
            (OpName::Add, &[I, I, ONE], &[]),
            (OpName::Eq, &[T, I, THREE], &[]),
            (OpName::If, &[T], &[6, 6]),
            (OpName::Continue, &[], &[]),
            (OpName::Eq, &[T, I, SIX], &[]),
            (OpName::If, &[T], &[9, 9]),
            (OpName::Break, &[], &[]),
            (OpName::Add, &[R, R, I], &[]),
        ],
        budget: 10,
        inputs: [0, 0, 0],
        asks: &[],
        gives: Some(12),
    },
    Case {
        name: "dowhile",
        sections: &[(None, 0, 4)],
        ops: &[
            (OpName::DoWhile, &[T], &[3, 4]),
            (OpName::Add, &[I, I, ONE], &[]),
            (OpName::Add, &[R, R, I], &[]),
            (OpName::Lt, &[T, I, THREE], &[]),
        ],
        budget: 3,
        inputs: [0, 0, 0],
        asks: &[],
        gives: Some(6),
    },
    Case {
        name: "a return leaves a call",
        sections: &[(None, 0, 6)],
        ops: &[
            (OpName::FunctionCall, &[], &[5]),
            (OpName::While, &[ONE], &[2, 4]),
            (OpName::Add, &[R, R, ONE], &[]),
            (OpName::Return, &[], &[]),
            (OpName::Add, &[R, R, TEN], &[]),
            (OpName::Add, &[R, R, THREE], &[]),
        ],
        budget: 1,
        inputs: [0, 0, 0],
        asks: &[],
        gives: Some(4),
    },
    Case {
        name: "an exit leaves the layer",
        sections: &[(None, 0, 4)],
        ops: &[
            (OpName::FunctionCall, &[], &[3]),
            (OpName::Add, &[R, R, ONE], &[]),
            (OpName::Exit, &[], &[]),
            (OpName::Add, &[R, R, TEN], &[]),
        ],
        budget: 1,
        inputs: [0, 0, 0],
        asks: &[],
        gives: Some(1),
    },
    Case {
        name: "the section of a default",
        sections: &[(Some(B), 0, 1), (None, 1, 4)],
        ops: &[
            (OpName::Add, &[B, A, ONE], &[]),
            (OpName::If, &[B], &[3, 4]),
            (OpName::Assign, &[R, B], &[]),
            (OpName::Assign, &[R, TEN], &[]),
        ],
        budget: 1,
        inputs: [0, 0, 0],
        asks: &[],
        gives: Some(8),
    },
    Case {
        name: "no section of an instance value",
        sections: &[(Some(B), 0, 1), (None, 1, 2)],
        ops: &[
            (OpName::Add, &[B, A, ONE], &[]),
            (OpName::Assign, &[R, B], &[]),
        ],
        budget: 1,
        inputs: [2, 1, 0],
        asks: &[],
        gives: Some(5),
    },
    Case {
        name: "no section of a connected parameter",
        sections: &[(Some(B), 0, 1), (None, 1, 3)],
        ops: &[
            (OpName::Add, &[B, A, ONE], &[]),
            (OpName::If, &[B], &[3, 3]),
            (OpName::Assign, &[R, B], &[]),
        ],
        budget: 1,
        inputs: [2, 2, 0],
        asks: &[B],
        gives: Some(3),
    },
    Case {
        name: "nothing that is not read",
        sections: &[(None, 0, 1)],
        ops: &[(OpName::Assign, &[R, A], &[])],
        budget: 1,
        inputs: [2, 3, 0],
        asks: &[A],
        gives: Some(3),
    },
    Case {
        name: "asked for once, in a loop",
        sections: &[(None, 0, 4)],
        ops: &[
            (OpName::For, &[T], &[2, 3, 4]),
            (OpName::Lt, &[T, I, A], &[]),
            (OpName::Add, &[R, R, A], &[]),
            (OpName::Add, &[I, I, ONE], &[]),
        ],
        budget: 3,
        inputs: [2, 0, 0],
        asks: &[A],
        gives: Some(9),
    },
    Case {
        name: "a condition that is connected",
        sections: &[(None, 0, 3)],
        ops: &[
            (OpName::If, &[A], &[2, 3]),
            (OpName::Assign, &[R, ONE], &[]),
            (OpName::Assign, &[R, TEN], &[]),
        ],
        budget: 0,
        inputs: [2, 0, 0],
        asks: &[A],
        gives: Some(1),
    },
    Case {
        name: "a loop's condition that is nothing",
        sections: &[(None, 0, 2)],
        ops: &[
            (OpName::DoWhile, &[A], &[2, 2]),
            (OpName::Add, &[R, R, ONE], &[]),
        ],
        budget: 9,
        inputs: [3, 0, 0],
        asks: &[A],
        gives: None,
    },
    Case {
        name: "a turn too few",
        sections: &[(None, 0, 4)],
        ops: &[
            (OpName::For, &[T], &[2, 3, 4]),
            (OpName::Lt, &[T, I, TEN], &[]),
            (OpName::Add, &[R, R, I], &[]),
            (OpName::Add, &[I, I, ONE], &[]),
        ],
        budget: 9,
        inputs: [0, 0, 0],
        asks: &[],
        gives: None,
    },
    Case {
        name: "a break leaves one loop",
        sections: &[(None, 0, 7)],
        ops: &[
            (OpName::For, &[T], &[2, 6, 7]),
            (OpName::Lt, &[T, I, THREE], &[]),
            (OpName::While, &[ONE], &[3, 5]),
            (OpName::Add, &[R, R, ONE], &[]),
            (OpName::Break, &[], &[]),
            (OpName::Add, &[R, R, TEN], &[]),
            (OpName::Add, &[I, I, ONE], &[]),
        ],
        budget: 6,
        inputs: [0, 0, 0],
        asks: &[],
        gives: Some(33),
    },
    Case {
        name: "a continue goes on with the step",
        sections: &[(None, 0, 5)],
        ops: &[
            (OpName::For, &[T], &[2, 4, 5]),
            (OpName::Lt, &[T, I, THREE], &[]),
            (OpName::Continue, &[], &[]),
            (OpName::Add, &[R, R, ONE], &[]),
            (OpName::Add, &[I, I, ONE], &[]),
        ],
        budget: 3,
        inputs: [0, 0, 0],
        asks: &[],
        gives: Some(0),
    },
    Case {
        name: "a return leaves the layer",
        sections: &[(None, 0, 4)],
        ops: &[
            (OpName::While, &[ONE], &[1, 3]),
            (OpName::Add, &[R, R, THREE], &[]),
            (OpName::Return, &[], &[]),
            (OpName::Add, &[R, R, TEN], &[]),
        ],
        budget: 1,
        inputs: [0, 0, 0],
        asks: &[],
        gives: Some(3),
    },
    Case {
        name: "a return in a call in a call",
        sections: &[(None, 0, 5)],
        ops: &[
            (OpName::FunctionCall, &[], &[5]),
            (OpName::FunctionCall, &[], &[4]),
            (OpName::Return, &[], &[]),
            (OpName::Add, &[R, R, TEN], &[]),
            (OpName::Add, &[R, R, ONE], &[]),
        ],
        budget: 0,
        inputs: [0, 0, 0],
        asks: &[],
        gives: Some(1),
    },
    Case {
        name: "sections in their order",
        sections: &[(Some(B), 0, 1), (Some(R), 1, 2), (None, 2, 3)],
        ops: &[
            (OpName::Add, &[B, A, ONE], &[]),
            (OpName::Mul, &[R, B, B], &[]),
            (OpName::Add, &[R, R, B], &[]),
        ],
        budget: 0,
        inputs: [0, 0, 0],
        asks: &[],
        gives: Some(72),
    },
    Case {
        name: "an exit in a section",
        sections: &[(Some(B), 0, 2), (None, 2, 3)],
        ops: &[
            (OpName::Assign, &[R, SIX], &[]),
            (OpName::Exit, &[], &[]),
            (OpName::Assign, &[R, TEN], &[]),
        ],
        budget: 0,
        inputs: [0, 0, 0],
        asks: &[],
        gives: Some(6),
    },
    Case {
        name: "the other side of an if",
        sections: &[(None, 0, 4)],
        ops: &[
            (OpName::If, &[ZERO], &[2, 3]),
            (OpName::Add, &[R, R, ONE], &[]),
            (OpName::Add, &[R, R, TEN], &[]),
            (OpName::Add, &[R, R, THREE], &[]),
        ],
        budget: 0,
        inputs: [0, 0, 0],
        asks: &[],
        gives: Some(13),
    },
    Case {
        name: "a break in a condition leaves the loop around",
        sections: &[(None, 0, 6)],
        ops: &[
            (OpName::While, &[ONE], &[1, 5]),
            (OpName::While, &[ONE], &[3, 4]),
            (OpName::Break, &[], &[]),
            (OpName::Add, &[R, R, TEN], &[]),
            (OpName::Add, &[R, R, THREE], &[]),
            (OpName::Add, &[R, R, ONE], &[]),
        ],
        budget: 1,
        inputs: [0, 0, 0],
        asks: &[],
        gives: Some(1),
    },
    Case {
        name: "a continue in a step goes on with the loop around",
        sections: &[(None, 0, 7)],
        ops: &[
            (OpName::For, &[T], &[2, 6, 7]),
            (OpName::Lt, &[T, I, THREE], &[]),
            (OpName::For, &[ONE], &[3, 4, 5]),
            (OpName::Add, &[R, R, ONE], &[]),
            (OpName::Continue, &[], &[]),
            (OpName::Add, &[R, R, TEN], &[]),
            (OpName::Add, &[I, I, ONE], &[]),
        ],
        budget: 6,
        inputs: [0, 0, 0],
        asks: &[],
        gives: Some(3),
    },
];

/// A run that waits at a loop's own condition goes on there: nothing before it is run again. What the ops add shows how
/// often each was run.
static WAITS: [Case; 7] = [
    Case {
        name: "a dowhile waits at its condition, and breaks on its second turn",
        sections: &[(None, 0, 8)],
        ops: &[
            (OpName::DoWhile, &[A], &[7, 7]),
            (OpName::Add, &[I, I, ONE], &[]),
            (OpName::Add, &[R, R, THREE], &[]),
            (OpName::Lt, &[T, ONE, I], &[]),
            (OpName::If, &[T], &[6, 6]),
            (OpName::Break, &[], &[]),
            (OpName::Add, &[R, R, TEN], &[]),
            (OpName::Add, &[R, R, ONE], &[]),
        ],
        budget: 2,
        inputs: [2, 0, 0],
        asks: &[A],
        gives: Some(17),
    },
    Case {
        name: "a dowhile waits at its condition, and has no second turn",
        sections: &[(None, 0, 8)],
        ops: &[
            (OpName::DoWhile, &[A], &[7, 7]),
            (OpName::Add, &[I, I, ONE], &[]),
            (OpName::Add, &[R, R, THREE], &[]),
            (OpName::Lt, &[T, ONE, I], &[]),
            (OpName::If, &[T], &[6, 6]),
            (OpName::Break, &[], &[]),
            (OpName::Add, &[R, R, TEN], &[]),
            (OpName::Add, &[R, R, ONE], &[]),
        ],
        budget: 1,
        inputs: [2, 0, 0],
        asks: &[A],
        gives: None,
    },
    Case {
        name: "a dowhile waits at its condition, which does not hold",
        sections: &[(None, 0, 8)],
        ops: &[
            (OpName::DoWhile, &[A], &[7, 7]),
            (OpName::Add, &[I, I, ONE], &[]),
            (OpName::Add, &[R, R, THREE], &[]),
            (OpName::Lt, &[T, ONE, I], &[]),
            (OpName::If, &[T], &[6, 6]),
            (OpName::Break, &[], &[]),
            (OpName::Add, &[R, R, TEN], &[]),
            (OpName::Add, &[R, R, ONE], &[]),
        ],
        budget: 1,
        inputs: [4, 0, 0],
        asks: &[A],
        gives: Some(14),
    },
    Case {
        name: "a dowhile waits behind the range of its condition",
        sections: &[(None, 0, 4)],
        ops: &[
            (OpName::DoWhile, &[A], &[2, 3]),
            (OpName::Add, &[R, R, ONE], &[]),
            (OpName::Add, &[R, R, TEN], &[]),
            (OpName::Add, &[R, R, THREE], &[]),
        ],
        budget: 1,
        inputs: [4, 0, 0],
        asks: &[A],
        gives: Some(14),
    },
    Case {
        name: "a while waits behind the range of its condition",
        sections: &[(None, 0, 5)],
        ops: &[
            (OpName::While, &[A], &[2, 4]),
            (OpName::Add, &[R, R, ONE], &[]),
            (OpName::Add, &[R, R, TEN], &[]),
            (OpName::Break, &[], &[]),
            (OpName::Add, &[R, R, THREE], &[]),
        ],
        budget: 1,
        inputs: [2, 0, 0],
        asks: &[A],
        gives: Some(14),
    },
    Case {
        name: "a for waits behind the range of its condition",
        sections: &[(None, 0, 5)],
        ops: &[
            (OpName::For, &[A], &[2, 3, 4]),
            (OpName::Add, &[R, R, ONE], &[]),
            (OpName::Add, &[R, R, TEN], &[]),
            (OpName::Add, &[R, R, SIX], &[]),
            (OpName::Add, &[R, R, THREE], &[]),
        ],
        budget: 0,
        inputs: [4, 0, 0],
        asks: &[A],
        gives: Some(4),
    },
    Case {
        name: "two loops wait at their conditions, one in the other",
        sections: &[(None, 0, 8)],
        ops: &[
            (OpName::DoWhile, &[A], &[7, 7]),
            (OpName::Add, &[I, I, ONE], &[]),
            (OpName::DoWhile, &[B], &[4, 4]),
            (OpName::Add, &[R, R, ONE], &[]),
            (OpName::Lt, &[T, ONE, I], &[]),
            (OpName::If, &[T], &[7, 7]),
            (OpName::Break, &[], &[]),
            (OpName::Add, &[R, R, TEN], &[]),
        ],
        budget: 4,
        inputs: [2, 4, 0],
        asks: &[B, A],
        gives: Some(12),
    },
];

fn symbols(alloc: Global) -> Result<Vec<Symbol>, Memory> {
    let mut all = Vec::new(alloc);
    for (class, name, start) in &SYMBOLS {
        let start = match start {
            Some(n) => Some(int(alloc, *n)?),
            None => None,
        };
        all.push(symbol(alloc, *class, name, Ty::only(Base::Int), start)?)?;
    }
    Ok(all)
}

fn fixed(alloc: Global, inputs: [u8; 3]) -> Result<LayerValues, Memory> {
    let mut all = Vec::new(alloc);
    for input in inputs {
        let value = if input == 1 {
            Some(int(alloc, 5)?)
        } else {
            None
        };
        all.push(value)?;
    }
    Ok(LayerValues::new(all))
}

/// What the output of a layer is, and what it asked for.
fn outcome(alloc: Global, case: &Case, asked: &mut Vec<u32>) -> Result<Option<i32>, Memory> {
    let shader = shader(
        alloc,
        symbols(alloc)?,
        sections(alloc, case.sections)?,
        ops(alloc, case.ops)?,
    )?;
    let fixed = fixed(alloc, case.inputs)?;
    let wired = [case.inputs[0] > 1, case.inputs[1] > 1, false];
    let arena = Bump::new(alloc);
    let layer = Layer {
        shader: &shader,
        fixed: &fixed,
        wired: &wired,
        budget: case.budget,
    };
    let three = int(alloc, 3)?;
    let zero = int(alloc, 0)?;
    let entries = [
        given(case.inputs[0], &three, &zero),
        given(case.inputs[1], &three, &zero),
    ];
    let Some(run) = ended(alloc, &arena, &layer, &entries, asked)? else {
        return Ok(None);
    };
    match output(&run, R) {
        Some(OutRef::Value(value)) => Ok(Some(number(value))),
        _ => Err(Memory),
    }
}

fn given<'s, 'a>(input: u8, three: &'s Value, zero: &'s Value) -> Given<'s, 'a> {
    match input {
        2 => Given::Value(three),
        4 => Given::Value(zero),
        _ => Given::Nothing,
    }
}

/// The first number of a value.
fn number(value: &Value) -> i32 {
    match value.nums() {
        [first, ..] => i32::try_from(*first).unwrap_or(-77),
        [] => -77,
    }
}

fn all_end(rt: &impl Abort, alloc: Global, cases: &[Case]) -> Result<(), Fail> {
    for case in cases {
        let mut asked = Vec::new(alloc);
        let gives = outcome(alloc, case, &mut asked)?;
        assert_eq!(rt; gives, case.gives, "{}", case.name);
        assert_eq!(rt; asked.as_slice(), case.asks, "{}", case.name);
    }
    Ok(())
}

#[test]
fn layers_end_as_their_code_says(rt: HostRuntime) -> Result<(), Fail> {
    all_end(&rt, rt.alloc(), &CASES)
}

#[test]
fn runs_wait_at_the_conditions_of_loops(rt: HostRuntime) -> Result<(), Fail> {
    all_end(&rt, rt.alloc(), &WAITS)
}
