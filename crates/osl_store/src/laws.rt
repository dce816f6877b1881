//! How puts to a sink add up.

ghost use Rattle.std.specs.Prelude.{[], ◌++◌, List, ℕ};
ghost use Rattle.osl_store.specs.Views.{SinkView};
ghost use Rattle.osl_store.specs.Written.{Wrote, WroteFront, WroteNothing};

/// Texts that were put one after another were put together, and where the last was cut short a front of all was put.
pub fn puts_add_up()
    ensures nothing { (sink : SinkView) → Wrote sink sink [] }
    ensures whole { (first last : SinkView) (text : List ℕ) → Wrote first last text → WroteFront first last text }
    ensures both { (first next last : SinkView) (a b : List ℕ)
        → Wrote first next a → Wrote next last b → Wrote first last (a ++ b) }
    ensures front { (first next last : SinkView) (a b rest : List ℕ)
        → Wrote first next a → WroteFront next last b → WroteFront first last (a ++ (b ++ rest)) }
    ensures unwritten { (first next last : SinkView) (a rest : List ℕ)
        → Wrote first next a → WroteNothing next last → WroteFront first last (a ++ rest) }
{}
