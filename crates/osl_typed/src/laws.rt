//! Laws of the definitions.

ghost use Rattle.std.specs.Prelude.{◌≡◌, ◌↔◌, ℕ, List, Some};
ghost use Rattle.osl_overload.specs.Choice.{IsLeast};
ghost use Rattle.osl_overload.specs.declared.signature.Arg.{Arg};
ghost use Rattle.osl_overload.specs.declared.signature.Signature.{Signature};
ghost use Rattle.osl_tree.specs.declared.tree.Tree.{Tree};
ghost use Rattle.osl_typed.specs.Choosing.{chosen};
ghost use Rattle.osl_typed.specs.FileTyping.{IsTypingOf};
ghost use Rattle.osl_typed.specs.declared.shader.TypedShader.{TypedShader};

/// A tree has at most one typed tree.
pub fn one_typing()
    ensures { (tree : Tree) (a b : TypedShader) → IsTypingOf tree a → IsTypingOf tree b → a ≡ b }
{}

/// The function that a call means is the one candidate that costs least.
pub fn least_is_chosen()
    ensures { (candidates : List Signature) (args : List Arg) (i : ℕ) → (chosen candidates args ≡ Some i) ↔ IsLeast candidates args i }
{}
