//! Names through blocks, structures and their fields.

use osl_names::{Fields, Scope, Structures};
use osl_overload::Kind;
use osl_typed::Root;
use osl_value::{Base, ShaderKind, Ty};
use std::alloc::{AllocError, Global};
use std::test::Fail;

const FLOAT: Kind = Kind::Value(Ty {
    base: Base::Float,
    len: 0,
});

/// A step through blocks.
#[derive(Clone, Copy)]
enum Step {
    /// The name is declared, and has this number.
    Declare,
    Enter,
    Leave,
    /// The name means the variable of this number.
    Means,
    /// This very block declares the name.
    Here,
    /// This very block does not.
    NotHere,
}

static WALK: [(Step, &str, Option<u32>); 28] = [
    (Step::Declare, "a", Some(0)),
    (Step::Declare, "b", Some(1)),
    (Step::Here, "a", None),
    (Step::NotHere, "c", None),
    (Step::Enter, "", None),
    (Step::NotHere, "a", None),
    (Step::Means, "a", Some(0)),
    (Step::Declare, "a", Some(2)),
    (Step::Here, "a", None),
    (Step::Means, "a", Some(2)),
    (Step::Enter, "", None),
    (Step::Means, "a", Some(2)),
    (Step::Declare, "c", Some(3)),
    (Step::Declare, "a", Some(4)),
    (Step::Means, "a", Some(4)),
    (Step::Means, "c", Some(3)),
    (Step::Leave, "", None),
    (Step::Means, "a", Some(2)),
    (Step::Means, "c", None),
    (Step::Enter, "", None),
    (Step::Declare, "c", Some(5)),
    (Step::Leave, "", None),
    (Step::Leave, "", None),
    (Step::Means, "a", Some(0)),
    (Step::Means, "b", Some(1)),
    (Step::Here, "b", None),
    (Step::Declare, "c", Some(6)),
    (Step::Means, "c", Some(6)),
];

/// The number of the variable that a name means.
fn number(scope: &Scope, name: &[u8]) -> Option<u32> {
    match scope.look(name)?.root {
        Root::Variable(number) => Some(number),
        Root::Global(_) => None,
    }
}

#[test]
fn names_through_blocks(rt: HostRuntime) -> Result<(), Fail> {
    let alloc = rt.alloc();
    let mut scope = Scope::of_function(alloc)?;
    scope.enter()?;
    let mut counts = Vec::new(alloc);
    for &(step, name, wanted) in &WALK {
        let name = name.as_bytes();
        match step {
            Step::Declare => {
                let number = scope.declare(alloc, name, FLOAT, true)?;
                assert_eq!(rt; Some(number), wanted);
            }
            Step::Enter => {
                counts.push(scope.count())?;
                scope.enter()?;
            }
            Step::Leave => {
                if let Some(count) = counts.pop() {
                    scope.leave(count);
                }
            }
            Step::Means => assert_eq!(rt; number(&scope, name), wanted),
            Step::Here => assert!(rt; scope.is_here(name)),
            Step::NotHere => assert!(rt; !scope.is_here(name)),
        }
    }
    assert_eq!(rt; scope.into_kinds().len(), 7);
    Ok(())
}

static GLOBALS: [(ShaderKind, &str, bool); 10] = [
    (ShaderKind::Surface, "Ci", true),
    (ShaderKind::Surface, "P", false),
    (ShaderKind::Volume, "Ci", true),
    (ShaderKind::Volume, "N", false),
    (ShaderKind::Displacement, "P", true),
    (ShaderKind::Displacement, "N", true),
    (ShaderKind::Displacement, "Ng", false),
    (ShaderKind::Displacement, "Ci", false),
    (ShaderKind::Shader, "Ci", false),
    (ShaderKind::Shader, "u", false),
];

/// Whether a name is known, and may be assigned.
fn writable(scope: &Scope, name: &[u8]) -> Option<bool> {
    Some(scope.look(name)?.writable)
}

#[test]
fn globals_of_kinds(rt: HostRuntime) -> Result<(), Fail> {
    let alloc = rt.alloc();
    let function = Scope::of_function(alloc)?;
    for &(kind, name, wanted) in &GLOBALS {
        let shader = Scope::of_shader(alloc, kind)?;
        assert_eq!(rt; writable(&shader, name.as_bytes()), Some(wanted));
        assert_eq!(rt; writable(&function, name.as_bytes()), Some(false));
    }
    assert_eq!(rt; writable(&function, b"p"), None);
    Ok(())
}

/// Fields of these names, all floats.
fn fields(alloc: Global, names: &[&str]) -> Result<Fields, AllocError> {
    let mut fields = Fields::new(alloc);
    for name in names {
        let name = name.as_bytes();
        if fields.named(name).is_none() {
            fields.push(alloc, name, FLOAT)?;
        }
    }
    Ok(fields)
}

static STRUCTURES: [(&str, &str, Option<(u32, Kind)>); 6] = [
    ("Pair", "first", Some((0, FLOAT))),
    ("Pair", "second", Some((1, FLOAT))),
    ("Pair", "third", None),
    ("Other", "third", Some((0, FLOAT))),
    ("Other", "first", None),
    ("None", "first", None),
];

#[test]
fn structures_and_fields(rt: HostRuntime) -> Result<(), Fail> {
    let alloc = rt.alloc();
    let mut structures = Structures::new(alloc);
    if structures.named(b"Pair").is_none() {
        let pair = fields(alloc, &["first", "second", "first"])?;
        structures.add(alloc, b"Pair", pair)?;
    }
    if structures.named(b"Other").is_none() {
        structures.add(alloc, b"Other", fields(alloc, &["third"])?)?;
    }
    for &(structure, field, wanted) in &STRUCTURES {
        let found = match structures.named(structure.as_bytes()) {
            Some(number) => structures.field(number, field.as_bytes()),
            None => None,
        };
        assert_eq!(rt; found, wanted);
    }
    assert_eq!(rt; structures.kinds(0).len(), 2);
    assert_eq!(rt; structures.kinds(2).len(), 0);
    assert!(rt; structures.fields(1).is_some());
    assert_eq!(rt; structures.typed(alloc)?.len(), 2);
    Ok(())
}
