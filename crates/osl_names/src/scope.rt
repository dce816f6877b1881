//! The variables that are declared at a place. OSL specification, section "Scoping".

ghost use Rattle.std.specs.Prelude.{◌≡◌, length, map, IfOk, OnOk, OnErr, false};
ghost use Rattle.std.specs.Option.{option_copied};
ghost use Rattle.osl_typed.specs.Scopes as spec;
ghost use Rattle.osl_typed.specs.Scopes.{look, is_here, with_variable, enter, leave, is_assignable_global, global_binding};
ghost use Rattle.osl_names.specs.Kept.{Keeps, is_assignable};

use crate::stack::Stack;
use osl_layer::GlobalName;
use osl_overload::Kind;
use osl_typed::{Binding, Root};
use osl_value::ShaderKind;
use sqlite_items::Items;
use std::alloc::{AllocError, Global};
use std::marker::Model;

/// The variables that are declared at a place. Contracts see the bindings, innermost first, how many blocks are round
/// the place, and the kinds of all variables of the frame so far.
#[derive(Drop)]
pub struct Scope {
    bindings: Stack,
    depth: u32,
    kinds: Items<Kind>,
}

impl Model for Scope {
    ghost use Rattle.osl_typed.specs.Scopes as spec;

    ghost Value = { spec.Scope };

    ghost view = { λ s. record { bindings = s.bindings; depth = s.depth; kinds = s.kinds } };
}

/// Whether a global variable may be assigned: in a shader of this kind, or else in a function.
fn is_assignable(shader: Option<ShaderKind>, global: GlobalName) -> bool
    ensures { result ≡ is_assignable shader global }
{
    match (shader, global) {
        (Some(ShaderKind::Displacement), GlobalName::P | GlobalName::N) => true,
        (Some(ShaderKind::Surface | ShaderKind::Volume), GlobalName::Ci) => true,
        _ => false,
    }
}

/// What the name of a global variable is tied to.
fn global_binding(
    alloc: Global,
    shader: Option<ShaderKind>,
    global: GlobalName,
) -> Result<Binding, AllocError>
    ensures { IfOk result (λ binding. binding ≡ global_binding (is_assignable shader) global) }
{
    Ok(Binding {
        name: Items::from_slice(alloc, global.name().as_bytes())?,
        depth: 0,
        root: Root::Global(global),
        kind: Kind::Value(global.ty()),
        writable: is_assignable(shader, global),
    })
}

/// The bindings of these global variables, the first the innermost.
fn global_bindings(
    alloc: Global,
    shader: Option<ShaderKind>,
    globals: &[GlobalName],
) -> Result<Stack, AllocError>
    ensures { IfOk result (λ bindings. bindings ≡ map (global_binding (is_assignable shader)) globals.now) }
{
    let mut bindings = Stack::new(alloc);
    for at in (0..globals.len()).rev() {
        bindings.push(alloc, global_binding(alloc, shader, globals[at])?)?;
    }
    Ok(bindings)
}

impl Scope {
    /// The scope round a shader of this kind, whose global variables some kinds may assign.
    pub fn of_shader(alloc: Global, kind: ShaderKind) -> Result<Scope, AllocError>
        ensures { IfOk result (λ scope. scope ≡ spec.outermost (is_assignable_global kind)) }
    {
        Ok(Scope {
            bindings: global_bindings(alloc, Some(kind), &GlobalName::ALL)?,
            depth: 0,
            kinds: Items::new(alloc),
        })
    }

    /// The scope round a function, which may assign no global variable.
    pub fn of_function(alloc: Global) -> Result<Scope, AllocError>
        ensures { IfOk result (λ scope. scope ≡ spec.outermost (λ global. false)) }
    {
        Ok(Scope {
            bindings: global_bindings(alloc, None, &GlobalName::ALL)?,
            depth: 0,
            kinds: Items::new(alloc),
        })
    }

    /// How many variables may be named here.
    pub fn count(&self) -> usize
        ensures { result ≡ length self.now.bindings }
    {
        self.bindings.len()
    }

    /// The innermost variable of a name.
    pub fn look(&self, name: &[u8]) -> Option<&Binding>
        ensures { option_copied result ≡ look name.now self.now.bindings }
    {
        self.bindings.look(name)
    }

    /// Whether this very block declares a name.
    pub fn is_here(&self, name: &[u8]) -> bool
        ensures { result ≡ is_here name.now self.now }
    {
        match self.look(name) {
            Some(binding) => binding.depth == self.depth,
            None => false,
        }
    }

    /// Declares a variable, by the next number of the frame, and gives the number. All stays as it was where an allocation fails.
    pub fn declare(
        &mut self,
        alloc: Global,
        name: &[u8],
        kind: Kind,
        writable: bool,
    ) -> Result<u32, AllocError>
        ensures declared { OnOk result (self.new ≡ with_variable name.now kind writable self.old) }
        ensures number { IfOk result (λ number. number ≡ length self.old.kinds) }
        ensures kept { OnErr result (self.new ≡ self.old) }
    {
        let number = self.kinds.len();
        if number >= u32::MAX as usize {
            return Err(AllocError);
        }
        let binding = Binding {
            name: Items::from_slice(alloc, name)?,
            depth: self.depth,
            root: Root::Variable(number as u32),
            kind,
            writable,
        };
        self.kinds.push(kind)?;
        match self.bindings.push(alloc, binding) {
            Ok(()) => Ok(number as u32),
            Err(_) => {
                let _ = self.kinds.pop();
                Err(AllocError)
            }
        }
    }

    /// Begins a block. The error comes where 2^32 - 1 blocks are round the place.
    pub fn enter(&mut self) -> Result<(), AllocError>
        ensures entered { OnOk result (self.new ≡ enter self.old) }
        ensures kept { OnErr result (self.new ≡ self.old) }
    {
        if self.depth == u32::MAX {
            return Err(AllocError);
        }
        self.depth += 1;
        Ok(())
    }

    /// Ends a block, at whose begin so many variables might be named: all names mean what they meant before it. Its
    /// variables keep their numbers.
    pub fn leave(&mut self, count: usize)
        ensures { (outer : spec.Scope) → length outer.bindings ≡ count → Keeps (enter outer) self.old → self.new ≡ leave outer self.old }
    {
        self.bindings.shorten(count);
        self.depth = self.depth.saturating_sub(1);
    }

    /// The kinds of all variables of the frame, by their numbers.
    pub fn into_kinds(self) -> Items<Kind>
        ensures { result ≡ self.kinds }
    {
        let Scope { kinds, .. } = self;
        kinds
    }
}
