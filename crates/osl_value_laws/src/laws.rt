//! Laws of operations.

ghost use Rattle.osl_value_laws.specs.Matrices.{TransposedTwice};
ghost use Rattle.osl_value_laws.specs.Order.{Opposites, Turned, LessOrEqual, OneOfThree, Equality, Transitivity, Least, Greatest, Clamped};
ghost use Rattle.osl_value_laws.specs.Strings.{JoinedLength, JoinedParts};

/// `ge` is the opposite of `lt`, `le` of `gt`, and `neq` of `eq`.
pub fn comparisons_have_opposites()
    ensures { Opposites }
{}

/// `gt` and `ge` are `lt` and `le` with their operands exchanged.
pub fn comparisons_turn_round()
    ensures { Turned }
{}

/// `le` is `lt` or `eq`.
pub fn less_or_equal()
    ensures { LessOrEqual }
{}

/// Of `lt`, `eq` and `gt` exactly one holds.
pub fn one_of_three_holds()
    ensures { OneOfThree }
{}

/// `eq` holds of a number and itself alone.
pub fn equal_numbers_are_the_same()
    ensures { Equality }
{}

/// `lt` is transitive.
pub fn less_is_transitive()
    ensures { Transitivity }
{}

/// `min` is one of its operands, and no greater than either.
pub fn min_is_the_least()
    ensures { Least }
{}

/// `max` is one of its operands, and no less than either.
pub fn max_is_the_greatest()
    ensures { Greatest }
{}

/// `clamp` lies between its ends where these are in order, and leaves alone what lies between them.
pub fn clamp_lies_between_its_ends()
    ensures { Clamped }
{}

/// Two strings that together are no longer than 512 bytes, joined, are as long as both.
pub fn joined_strings_are_as_long_as_both()
    ensures { JoinedLength }
{}

/// They begin with the first and end with the second, and the first is their front and the second their rest.
pub fn joined_strings_have_their_parts()
    ensures { JoinedParts }
{}

/// A matrix that is transposed twice is itself.
pub fn transposed_twice()
    ensures { TransposedTwice }
{}
