//! What is proved of typings, as the contracts of functions that do nothing.

ghost use Rattle.std.specs.Prelude.{◌≡◌, List, Some};
ghost use Rattle.osl_overload.specs.declared.signature.Kind.{Kind};
ghost use Rattle.osl_tree.specs.declared.expr.Expr.{Expr};
ghost use Rattle.osl_tree.specs.declared.tree.Tree.{Tree};
ghost use Rattle.osl_typed.specs.FileTyping.{IsTypingOf};
ghost use Rattle.osl_typed.specs.Scopes.{Sight};
ghost use Rattle.osl_typed.specs.SourceTyping.{IsTypingOfSource};
ghost use Rattle.osl_typed.specs.Typing.{typing, tree_of};
ghost use Rattle.osl_typed.specs.declared.expr.TypedExpr.{TypedExpr};
ghost use Rattle.osl_typed.specs.declared.found.Binding.{Binding};
ghost use Rattle.osl_typed.specs.declared.found.Found.{Found};
ghost use Rattle.osl_typed.specs.declared.shader.TypedShader.{TypedShader};
ghost use Rattle.osl_welltyped.specs.Agreement.{SightFits, NamesFit};
ghost use Rattle.osl_welltyped.specs.KindOf.{kind_of};
ghost use Rattle.osl_welltyped.specs.Kinded.{Rules, kinded};
ghost use Rattle.osl_welltyped.specs.WellTyped.{FitsRules, IsWellTyped};

/// A typed expression is well formed, and has the kind that typing gives it.
pub fn expressions_are_well_typed()
    ensures { (rules : Rules) (sight : Sight) (bindings : List Binding) (x : Expr) (a : Found) → SightFits rules sight → NamesFit rules bindings
        → typing sight bindings x ≡ Some a → kinded rules (tree_of a) ≡ Some a.kind }
{}

/// Every typing of a source is well typed.
pub fn typings_are_well_typed()
    ensures { (t : TypedShader) → IsTypingOfSource t → IsWellTyped t }
{}

/// A typed shader fits the rules of kinds and scopes: its structures, functions, parameters and body.
pub fn typings_fit_the_rules()
    ensures { (tree : Tree) (t : TypedShader) → IsTypingOf tree t → FitsRules t }
{}

/// The kind of a well formed expression is what its outermost node tells.
pub fn nodes_tell_their_kinds()
    ensures { (rules : Rules) (x : TypedExpr) (kind : Kind) → kinded rules x ≡ Some kind → kind_of x ≡ kind }
{}
