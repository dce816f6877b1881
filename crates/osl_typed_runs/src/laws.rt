//! What holds of a well typed source, and along its runs, as the contracts of functions that do nothing.

ghost use Rattle.osl_typed_runs.specs.Laws.{ExpressionsKeepTypes, InitialisersKeepTypes, StatementsKeepTypes, BodiesKeepTypes, CallsKeepTypes, FramesAreTyped, StartIsTyped, LayersKeepTypes, ResultsAreTyped, SourcesGiveTypes, MetadataAreTyped};

use osl_layer::laws::globals_are_typed;
use osl_welltyped::laws::typings_are_well_typed;

/// From a typed state an expression ends in one, with leaves of its kind.
pub fn expressions_keep_types()
    ensures { ExpressionsKeepTypes }
{}

/// From a typed state an initialiser ends in one, with leaves of its variable's kind.
pub fn initialisers_keep_types()
    ensures { InitialisersKeepTypes }
{}

/// From a typed state a statement ends in one, and returns leaves of its function's kind.
pub fn statements_keep_types()
    ensures { StatementsKeepTypes }
{}

/// From a typed state a body ends in one, and returns leaves of its function's kind.
pub fn bodies_keep_types()
    ensures { BodiesKeepTypes }
{}

/// A call of a well typed shader's function, with arguments of its parameters' kinds, gives its result's kind, and its
/// parameters hold values of theirs at the end.
pub fn calls_keep_types()
    ensures { CallsKeepTypes }
{}

/// From inputs that fit, what is connected has the type of its parameter.
pub fn frames_are_typed()
    ensures { FramesAreTyped }
{}

/// From inputs that fit, at a point in range, each leaf and each global variable has a value of its type at the start.
pub fn start_is_typed()
    ensures { StartIsTyped }
{
    globals_are_typed();
}

/// And each has one at the end of a layer's run.
pub fn layers_keep_types()
    ensures { LayersKeepTypes }
{
    globals_are_typed();
}

/// So what a well typed shader gives has the types of its parameters.
pub fn results_are_typed()
    ensures { ResultsAreTyped }
{
    layers_keep_types();
}

/// What a layer of a source gives has the types of its parameters.
pub fn sources_give_types()
    ensures { SourcesGiveTypes }
{
    typings_are_well_typed();
    results_are_typed();
}

/// The numbers and texts of a datum of metadata make up its type.
pub fn metadata_are_typed()
    ensures { MetadataAreTyped }
{}
