//! What runs say of the code that they run: laws, each the contract of a function.

ghost use Rattle.std.specs.Prelude.{◌≡◌, ℕ, Bool, List, Option, Some, None, IsSome, true, slice_get};
ghost use Rattle.osl_value.specs.AnyValue.{AnyValue};
ghost use Rattle.osl_value.specs.Plain.{Plain};
ghost use Rattle.osl_layer.specs.Layer.{Inputs, From};
ghost use Rattle.osl_interp.specs.Calls.{first_knowns, gave};
ghost use Rattle.osl_interp.specs.Progress.{Progress, Agrees, IsSound, whole};
ghost use Rattle.osl_interp.specs.Whole.{Begins, EndsAsCode, IsPartOfCode, IsNotLost};
ghost use Rattle.osl_interp.specs.declared.layer_run.Status.TheVariants.{Stopped};
ghost use Rattle.osl_interp.specs.declared.stop.LayerStop.TheVariants.{Done, Spent, Needs};

/// With what is known at the start all inputs agree that the instance values and the connections leave open.
pub fn starts_as_code()
    ensures { (inputs : Inputs) (wired : List Bool) (fixed : List (Option Plain)) → Begins inputs wired fixed → Agrees inputs (first_knowns wired fixed) }
{}

/// Where a run needs a parameter, the code reads it, whatever it is given.
pub fn needs_as_code()
    ensures { (p : Progress) (inputs : Inputs) (param : ℕ) → IsSound p → p.status ≡ Stopped (Needs param) → Agrees inputs p.known → (whole p inputs).reads param ≡ true }
{}

/// With what is then known those inputs agree that have what was given.
pub fn resumes_as_code()
    ensures { (p : Progress) (inputs : Inputs) (param : ℕ) (given : Option AnyValue)
        → IsSound p → p.status ≡ Stopped (Needs param) → Agrees inputs p.known → inputs param ≡ From given → Agrees inputs (gave p param given).known }
{}

/// Where it is done, it gives what the code gives, was given the parameters that the code reads, and has counted the ops
/// that the code counts.
pub fn ends_as_code()
    ensures { (p : Progress) (inputs : Inputs) → IsSound p → p.status ≡ Stopped Done → Agrees inputs p.known → EndsAsCode p inputs × IsSome p.results }
{}

/// Where it is spent, the code gives nothing, and the same holds of parameters and ops.
pub fn is_spent_as_code()
    ensures { (p : Progress) (inputs : Inputs) → IsSound p → p.status ≡ Stopped Spent → Agrees inputs p.known → EndsAsCode p inputs × (p.results ≡ None) }
{}

/// However far a run has come, and if it is dropped there, it has read no parameter that the code does not read, and has
/// counted no more ops.
pub fn is_part_of_code()
    ensures { (p : Progress) (inputs : Inputs) → IsSound p → IsNotLost p.status → Agrees inputs p.known → IsPartOfCode p inputs }
{}
