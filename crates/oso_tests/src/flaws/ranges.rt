//! Where ranges end, and where `break` and `continue` stand.

use super::{code_of, flaw_of, nested};
use crate::code::{Line, op, ops};
use osl_value::OpName;
use oso_code::FlawKind;
use std::test::Fail;

/// Ops over the symbols of `code_of`, of which 2 and 3 are ints, and the first op of which a jump, or which as a
/// `break` or `continue`, is at fault.
struct RangeRow {
    name: &'static str,
    ops: &'static [Line],
    at: Option<u32>,
}

const C: u32 = 3;

const RETURN: Line = (OpName::Return, &[], &[]);

const BREAK: Line = (OpName::Break, &[], &[]);

const CONTINUE: Line = (OpName::Continue, &[], &[]);

static ROWS: [RangeRow; 36] = [
    // Where jumps lie: none is before the op's own ranges, and none before the jump in front of it.
    RangeRow {
        name: "an empty body",
        ops: &[(OpName::FunctionCall, &[], &[1])],
        at: None,
    },
    RangeRow {
        name: "a jump to its own op",
        ops: &[RETURN, (OpName::FunctionCall, &[], &[1])],
        at: Some(1),
    },
    RangeRow {
        name: "a jump to an earlier op",
        ops: &[RETURN, (OpName::FunctionCall, &[], &[0])],
        at: Some(1),
    },
    RangeRow {
        name: "ranges that follow each other",
        ops: &[(OpName::If, &[C], &[2, 3]), RETURN, RETURN],
        at: None,
    },
    RangeRow {
        name: "ranges that are empty",
        ops: &[(OpName::For, &[C], &[1, 1, 1]), RETURN],
        at: None,
    },
    RangeRow {
        name: "jumps of an `if` that descend",
        ops: &[(OpName::If, &[C], &[3, 2]), RETURN, RETURN],
        at: Some(0),
    },
    RangeRow {
        name: "a `for` whose second jump descends",
        ops: &[(OpName::For, &[C], &[2, 1, 3]), RETURN, RETURN],
        at: Some(0),
    },
    RangeRow {
        name: "a `for` whose last jump descends",
        ops: &[(OpName::For, &[C], &[1, 3, 2]), RETURN, RETURN],
        at: Some(0),
    },
    RangeRow {
        name: "a first jump to its own op",
        ops: &[(OpName::While, &[C], &[0, 2]), RETURN],
        at: Some(0),
    },
    // A range lies within the range that holds its op.
    RangeRow {
        name: "ranges that end together",
        ops: &[
            (OpName::FunctionCall, &[], &[3]),
            (OpName::FunctionCall, &[], &[3]),
            RETURN,
        ],
        at: None,
    },
    RangeRow {
        name: "a jump past the call that holds it",
        ops: &[
            (OpName::FunctionCall, &[], &[2]),
            (OpName::FunctionCall, &[], &[3]),
            RETURN,
        ],
        at: Some(1),
    },
    RangeRow {
        name: "a jump from one side of an `if` into the other",
        ops: &[
            (OpName::If, &[C], &[2, 3]),
            (OpName::FunctionCall, &[], &[3]),
            RETURN,
        ],
        at: Some(1),
    },
    RangeRow {
        name: "a jump from a condition into the body",
        ops: &[
            (OpName::While, &[C], &[2, 3]),
            (OpName::If, &[C], &[2, 3]),
            RETURN,
        ],
        at: Some(1),
    },
    RangeRow {
        name: "a jump from a body into the step",
        ops: &[
            (OpName::For, &[C], &[1, 2, 3]),
            (OpName::FunctionCall, &[], &[3]),
            RETURN,
        ],
        at: Some(1),
    },
    RangeRow {
        name: "a jump past the outer of two ranges",
        ops: &[
            (OpName::FunctionCall, &[], &[3]),
            (OpName::FunctionCall, &[], &[3]),
            (OpName::FunctionCall, &[], &[4]),
            RETURN,
        ],
        at: Some(2),
    },
    RangeRow {
        name: "a jump behind a range that is over",
        ops: &[
            (OpName::FunctionCall, &[], &[2]),
            RETURN,
            (OpName::FunctionCall, &[], &[4]),
            RETURN,
        ],
        at: None,
    },
    // `break` and `continue` stand in a loop's body.
    RangeRow {
        name: "a `break` alone",
        ops: &[RETURN, BREAK],
        at: Some(1),
    },
    RangeRow {
        name: "a `continue` alone",
        ops: &[RETURN, CONTINUE],
        at: Some(1),
    },
    RangeRow {
        name: "in the body of a `while`",
        ops: &[(OpName::While, &[C], &[1, 3]), BREAK, CONTINUE],
        at: None,
    },
    RangeRow {
        name: "in the body of a `for`",
        ops: &[(OpName::For, &[C], &[1, 3, 3]), BREAK, CONTINUE],
        at: None,
    },
    RangeRow {
        name: "in the body of a `dowhile`",
        ops: &[(OpName::DoWhile, &[C], &[3, 3]), BREAK, CONTINUE],
        at: None,
    },
    RangeRow {
        name: "behind the body of a `while`",
        ops: &[(OpName::While, &[C], &[1, 2]), RETURN, BREAK],
        at: Some(2),
    },
    RangeRow {
        name: "in the condition of a `while`",
        ops: &[(OpName::While, &[C], &[2, 3]), BREAK, RETURN],
        at: Some(1),
    },
    RangeRow {
        name: "in the condition of a `for`",
        ops: &[(OpName::For, &[C], &[2, 3, 3]), CONTINUE, RETURN],
        at: Some(1),
    },
    RangeRow {
        name: "in the step of a `for`",
        ops: &[(OpName::For, &[C], &[1, 2, 3]), RETURN, CONTINUE],
        at: Some(2),
    },
    RangeRow {
        name: "in the condition of a `dowhile`",
        ops: &[(OpName::DoWhile, &[C], &[2, 3]), RETURN, BREAK],
        at: Some(2),
    },
    RangeRow {
        name: "in the condition of a loop in the body of another",
        ops: &[
            (OpName::While, &[C], &[1, 4]),
            (OpName::While, &[C], &[3, 4]),
            BREAK,
            RETURN,
        ],
        at: None,
    },
    RangeRow {
        name: "in the step of a loop in the body of another",
        ops: &[
            (OpName::DoWhile, &[C], &[4, 4]),
            (OpName::For, &[C], &[2, 3, 4]),
            RETURN,
            CONTINUE,
        ],
        at: None,
    },
    // With no call between.
    RangeRow {
        name: "a `break` in a call in a loop",
        ops: &[
            (OpName::While, &[C], &[1, 3]),
            (OpName::FunctionCall, &[], &[3]),
            BREAK,
        ],
        at: Some(2),
    },
    RangeRow {
        name: "a `continue` in a call in a loop",
        ops: &[
            (OpName::DoWhile, &[C], &[3, 3]),
            (OpName::FunctionCall, &[], &[3]),
            CONTINUE,
        ],
        at: Some(2),
    },
    RangeRow {
        name: "a `break` in an `if` in a call in a loop",
        ops: &[
            (OpName::For, &[C], &[1, 4, 4]),
            (OpName::FunctionCall, &[], &[4]),
            (OpName::If, &[C], &[4, 4]),
            BREAK,
        ],
        at: Some(3),
    },
    RangeRow {
        name: "a `break` in a loop in a call in a loop",
        ops: &[
            (OpName::While, &[C], &[1, 4]),
            (OpName::FunctionCall, &[], &[4]),
            (OpName::While, &[C], &[3, 4]),
            BREAK,
        ],
        at: None,
    },
    RangeRow {
        name: "a `break` behind a call in a loop",
        ops: &[
            (OpName::While, &[C], &[1, 4]),
            (OpName::FunctionCall, &[], &[3]),
            RETURN,
            BREAK,
        ],
        at: None,
    },
    RangeRow {
        name: "a `return` and an `exit` in a call in a loop",
        ops: &[
            (OpName::While, &[C], &[1, 4]),
            (OpName::FunctionCall, &[], &[4]),
            RETURN,
            (OpName::Exit, &[], &[]),
        ],
        at: None,
    },
    // Of two faults the first counts.
    RangeRow {
        name: "a `break` before a jump that descends",
        ops: &[BREAK, (OpName::FunctionCall, &[], &[0])],
        at: Some(0),
    },
    RangeRow {
        name: "a jump that descends before a `break`",
        ops: &[(OpName::If, &[C], &[2, 1]), BREAK],
        at: Some(0),
    },
];

#[test]
fn ranges_have_their_places(rt: HostRuntime) -> Result<(), Fail> {
    let alloc = rt.alloc();
    for row in &ROWS {
        let (wrong, at) = flaw_of(alloc, code_of(alloc, ops(alloc, row.ops)?)?)?;
        match row.at {
            Some(place) => {
                assert!(rt; wrong == Some(FlawKind::Jump), "{}", row.name);
                assert_eq!(rt; at, place, "{}", row.name);
            }
            None => assert!(rt; wrong.is_none(), "{}", row.name),
        }
    }
    Ok(())
}

#[test]
fn jumps_come_before_limits(rt: HostRuntime) -> Result<(), Fail> {
    let alloc = rt.alloc();
    let mut ops = nested(alloc, 4609)?;
    ops.push(op(alloc, OpName::Break, &[], &[])?)?;
    let (wrong, at) = flaw_of(alloc, code_of(alloc, ops)?)?;
    assert!(rt; wrong == Some(FlawKind::Jump));
    assert_eq!(rt; at, 4609);
    Ok(())
}
