//! Laws of rewrites, each the contract of a function.

ghost use Rattle.osl_rewrites.specs.Laws.{LayersRunQuietly, CutsNest, DeadOpsDrop, ChoicesRun, KnownSymbolsHold, FoldedRunsSame, CopiesRunSame};

/// A layer gives and reads the same by the run that does not count ops.
pub fn layers_run_quietly()
    ensures { LayersRunQuietly }
{}

/// Ranges nest, whatever ops are taken out of valid code.
pub fn cuts_nest()
    ensures { CutsNest }
{}

/// Without dead ops a layer ends in the same way, agrees on all that is asked, and reads no connection more.
pub fn dead_ops_drop()
    ensures { DeadOpsDrop }
{}

/// A control op that does just what one range of its does may give way to that range.
pub fn choices_run()
    ensures { ChoicesRun }
{}

/// Known symbols may be held, from any state that is alike elsewhere.
pub fn known_symbols_hold()
    ensures { KnownSymbolsHold }
{}

/// Two codes that are equal with known symbols held end the same.
pub fn folded_runs_same()
    ensures { FoldedRunsSame }
{}

/// After the one assign of a held symbol its target may be read as that symbol.
pub fn copies_run_same()
    ensures { CopiesRunSame }
{}
