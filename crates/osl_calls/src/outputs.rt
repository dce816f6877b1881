//! Whether the arguments for outputs are variables of their own (OSL specification, section "Functions").

ghost use Rattle.std.specs.Prelude.{◌≡◌, None, map, IfOk, OnOk};
ghost use Rattle.std.specs.List.{list_any};
ghost use Rattle.osl_typed.specs.Choosing as choosing;
ghost use Rattle.osl_typed.specs.Typing as spec;
ghost use Rattle.osl_calls.specs.Roots.{clashes, number_of, passed_in, with_root};

use indexmap::IndexMap;
use osl_layer::GlobalName;
use osl_overload::Formal;
use osl_typed::{Found, Root};
use osl_typing::forms::root_of;
use sqlite_items::at;
use std::alloc::{AllocError, Global};

/// The variables that are roots of the arguments so far, and whether each of them is one of an output.
#[derive(Drop)]
struct Roots {
    variables: IndexMap<u32, bool>,
    globals: IndexMap<u8, bool>,
}

impl Roots {
    fn new(alloc: Global) -> Roots
        ensures { passed_in result ≡ (λ root. None) }
    {
        Roots {
            variables: IndexMap::new(alloc),
            globals: IndexMap::new(alloc),
        }
    }

    /// Adds the root of an argument, and gives what was known of it.
    fn pass(&mut self, root: Root, output: bool) -> Result<Option<bool>, AllocError>
        ensures before { IfOk result (λ before. before ≡ passed_in self.old root) }
        ensures after { OnOk result (passed_in self.new ≡ with_root root output (passed_in self.old)) }
    {
        match root {
            Root::Variable(number) => Ok(self.variables.insert(number, output)?),
            Root::Global(name) => Ok(self.globals.insert(number_of(name), output)?),
        }
    }
}

fn number_of(name: GlobalName) -> u8
    ensures { result ≡ number_of name }
{
    match name {
        GlobalName::P => 0,
        GlobalName::N => 1,
        GlobalName::Ng => 2,
        GlobalName::I => 3,
        GlobalName::U => 4,
        GlobalName::V => 5,
        GlobalName::Ci => 6,
    }
}

fn has_output(formals: &[Formal]) -> bool
    ensures { result ≡ list_any (λ formal. formal.output) formals.now }
{
    formals.iter().any(|formal| formal.output)
}

fn clashes(before: Option<bool>, output: bool) -> bool
    ensures { result ≡ clashes before output }
{
    match before {
        Some(before) => before || output,
        None => false,
    }
}

/// Whether no variable is the root of two arguments, one of them for an output. It looks at each argument once.
pub(crate) fn apart(alloc: Global, formals: &[Formal], args: &[Found]) -> Result<bool, AllocError>
    ensures { IfOk result (λ apart. apart ≡ choosing.apart formals.now (map spec.root_of args.now)) }
{
    if !has_output(formals) {
        return Ok(true);
    }
    let mut roots = Roots::new(alloc);
    for (i, formal) in formals.iter().enumerate() {
        let Some(arg) = at(args, i) else {
            return Ok(true);
        };
        if let Some(root) = root_of(arg) {
            let before = roots.pass(root, formal.output)?;
            if clashes(before, formal.output) {
                return Ok(false);
            }
        }
    }
    Ok(true)
}
