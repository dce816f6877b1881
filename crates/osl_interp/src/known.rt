//! What is known of the inputs of a layer, and what an op finds when it reads.

ghost use Rattle.std.specs.Prelude.{◌≡◌, slice_get};
ghost use Rattle.osl_interp.specs.Known.{met, is_default_at};

/// What is known of a parameter's input.
#[derive(Clone, Copy, Debug, PartialEq, Eq)]
pub enum Known {
    /// It is not connected and has no instance value.
    Default,
    /// It has an instance value.
    Fixed,
    /// It is connected, and its value was not given yet.
    Waiting,
    /// It was given a value, which is in the parameter's slot.
    Given,
    /// It was given nothing.
    Nothing,
}

/// What an op that reads symbols meets first.
#[derive(Clone, Copy, Debug, PartialEq, Eq)]
pub enum Met {
    /// All values are there.
    All,
    /// A parameter that was given nothing.
    Missing,
    /// The parameter of this number, which was not given yet.
    Waiting(u32),
}

/// What is known of the input of a symbol, if it is a parameter.
fn known_at(known: &[Known], k: u32) -> Option<Known>
    ensures { result ≡ slice_get known.now k }
{
    match known.get(k as usize) {
        Some(input) => Some(*input),
        None => None,
    }
}

/// What reading these symbols, from left to right, meets.
pub fn first_met(known: &[Known], sources: &[u32]) -> Met
    ensures { result ≡ met known.now sources.now }
{
    for k in sources {
        match known_at(known, *k) {
            Some(Known::Waiting) => return Met::Waiting(*k),
            Some(Known::Nothing) => return Met::Missing,
            _ => {}
        }
    }
    Met::All
}

/// Whether the section of a parameter, or of the body, is run.
pub fn is_run(known: &[Known], param: Option<u32>) -> bool
    ensures { result ≡ is_default_at known.now param }
{
    match param {
        Some(p) => known_at(known, p) == Some(Known::Default),
        None => true,
    }
}
