//! Laws of the definitions, each the contract of a function.

ghost use Rattle.osl_tree.specs.Laws.{OneTree, SpelledIsRead, ReadIsSpelled, TokensLieWithin};

/// At most one tree spells a list of tokens.
pub fn one_tree()
    ensures { OneTree }
{}

/// The definition that reads tokens from the front gives the tree that spells them.
pub fn spelled_is_read()
    ensures { SpelledIsRead }
{}

/// What that definition gives spells the tokens.
pub fn read_is_spelled()
    ensures { ReadIsSpelled }
{}

/// The tokens of a source lie within it.
pub fn tokens_lie_within()
    ensures { TokensLieWithin }
{}
