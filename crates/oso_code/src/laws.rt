//! Laws of the definitions, each the contract of a function.

ghost use Rattle.oso_code.specs.Valid.{ValidityIsExact};
ghost use Rattle.oso_code.specs.Laws.{RangesNest, RangesAreTiled, SectionsAreClosed, StepsUseAsOps, OpsAreTyped, SourcesAreTyped, StartIsTyped, OpsKeepTypes, RunsKeepTypes, SectionsKeepTypes, LayersKeepTypes, ResultsAreTyped};

use osl_layer::laws::globals_are_typed;
use osl_value::laws::{gives_values, writes_its_type};

/// Code is valid exactly where it has no flaw.
pub fn validity_is_exact()
    ensures { ValidityIsExact }
{}

/// The ranges of valid code lie in each other.
pub fn ranges_nest()
    ensures { RangesNest }
{}

/// The ranges of an op of valid code lie side by side from the op on.
pub fn ranges_are_tiled()
    ensures { RangesAreTiled }
{}

/// No op of valid code reaches past its section.
pub fn sections_are_closed()
    ensures { SectionsAreClosed }
{}

/// A step of valid code reads, writes and overwrites what its op does.
pub fn steps_use_as_ops()
    ensures { StepsUseAsOps }
{}

/// The operands of valid code are of types that its operations take.
pub fn ops_are_typed()
    ensures { OpsAreTyped }
{}

/// From inputs that fit, what is connected has the type of its parameter.
pub fn sources_are_typed()
    ensures { SourcesAreTyped }
{}

/// From inputs that fit, at a point in range, each symbol of valid code has a value of its type at the start.
pub fn start_is_typed()
    ensures { StartIsTyped }
{
    globals_are_typed();
}

/// Where each symbol has a value of its type, it has one after any op of valid code, if whatever runs its ranges and what
/// follows it keeps this.
pub fn ops_keep_types()
    ensures { OpsKeepTypes }
{
    gives_values();
    writes_its_type();
}

/// Where each symbol has a value of its type, it has one after any run of ops of valid code.
pub fn runs_keep_types()
    ensures { RunsKeepTypes }
{
    gives_values();
    writes_its_type();
}

/// It has one after any sections.
pub fn sections_keep_types()
    ensures { SectionsKeepTypes }
{
    gives_values();
    writes_its_type();
}

/// From inputs that fit, at a point in range, it has one at the end of a layer's run.
pub fn layers_keep_types()
    ensures { LayersKeepTypes }
{
    sources_are_typed();
    start_is_typed();
    sections_keep_types();
}

/// What valid code gives has the types of its parameters.
pub fn results_are_typed()
    ensures { ResultsAreTyped }
{
    layers_keep_types();
}
