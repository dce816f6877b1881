//! Laws of the definitions, each the contract of a function.

ghost use Rattle.osl_network.specs.Laws.{InputsFit};

use osl_value::laws::{gives_values, writes_its_type};

/// A layer of a group is given what it may be given, where the layers before it gave what fits.
pub fn inputs_fit()
    ensures { InputsFit }
{
    gives_values();
    writes_its_type();
}
