//! What is declared above a place: the structures and the functions.

use osl_calls::Functions;
use osl_names::Structures;
use osl_typed::TypedFunction;
use sqlite_items::Items;

/// What the expressions of a body see beside its variables.
#[derive(Drop)]
pub(crate) struct Sight {
    pub(crate) structures: Structures,
    pub(crate) functions: Functions,
}

/// The structures and functions that are declared, and the typed forms of the functions.
#[derive(Drop)]
pub(crate) struct Above {
    pub(crate) sight: Sight,
    pub(crate) functions: Items<TypedFunction>,
}
