//! Laws of the definitions, each the contract of a function.

ghost use Rattle.osl_layer.specs.Laws.{GlobalsAreTyped};

/// At a point each global has a value of its type.
pub fn globals_are_typed()
    ensures { GlobalsAreTyped }
{}
