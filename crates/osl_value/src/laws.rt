//! Laws of the definitions, each the contract of a function.

ghost use Rattle.osl_value.specs.Laws.{NamesDiffer, IntsGiveInts, FloatsGiveFloats, WritesItsType, AppliedType, CopiesItsType, GivesValues, FloatsKeep, IntsKeep, ClosuresKeep};

/// No two operations have one name, so `from_name` gives back the operation whose `name` it reads.
pub fn names_differ()
    ensures { NamesDiffer }
{}

/// On ints alone an operation gives what its row says of ints.
pub fn ints_give_ints()
    ensures { IntsGiveInts }
{}

/// On floats and triples an operation gives what its row says of floats, for each component, a
/// single float being repeated.
pub fn floats_give_floats()
    ensures { FloatsGiveFloats }
{}

/// An operation gives a value of the type that it writes.
pub fn writes_its_type()
    ensures { WritesItsType }
{}

/// Whatever its arguments are, it gives a value of the type that is to be written, unless that is an
/// array of closures, which no value has.
pub fn applied_type()
    ensures { AppliedType }
{}

/// On values it gives a value: its counts fit its type, and its numbers are in range.
pub fn gives_values()
    ensures { GivesValues }
{}

/// An assignment to a variable of the same type is a copy.
pub fn copies_its_type()
    ensures { CopiesItsType }
{}

/// 0 and 1 leave a float as it was, or make it 0, exactly.
pub fn floats_keep()
    ensures { FloatsKeep }
{}

/// 0 and 1 leave an int as it was, or make it 0.
pub fn ints_keep()
    ensures { IntsKeep }
{}

/// A factor of 1 leaves a closure as it was.
pub fn closures_keep()
    ensures { ClosuresKeep }
{}
