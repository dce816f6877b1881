//! What holds of tokens and faults alone.

ghost use Rattle.osl_lex.specs.Readings.{SomeReading, OneReading};

/// Each source is read in exactly one way: either it has tokens, and one list of them, or it has a
/// first fault, of one kind and at one place.
pub fn one_reading()
    ensures some { SomeReading }
    ensures one { OneReading }
{}
