//! The parser.

ghost use Rattle.std.specs.Prelude.{IfOk};
ghost use Rattle.osl_tree.specs.declared.tree.Tree.{Tree};
ghost use Rattle.osl_tree.specs.Lexical.{Tokens as AreTokens};
ghost use Rattle.osl_tree.specs.Lexemes.{lexemes};
ghost use Rattle.osl_tree.specs.Files.{Spells};
ghost use Rattle.osl_tree.specs.FileReading.{parsed};
ghost use Rattle.osl_parse.specs.Reads.{Parses, IsNoTree};
ghost use Rattle.osl_tree.specs.Sources.{LieWithin};

use crate::error::SyntaxError;
use crate::file::source as read_source;
use crate::tokens::Tokens;
use osl_tree::token::Token;
use osl_tree::tree::Tree;
use std::alloc::Global;

/// The greatest height of the parts of a tree; the tree is no higher than 256.
const ROOM: u32 = 255;

#[tactic(auto, using(crate::proofs::Ends::all_read, crate::proofs::Ends::rest_left), unfolding(osl_tree::specs::FileReading::parsed))]
fn read(alloc: Global, source: &[u8], tokens: &[Token]) -> Result<Tree, SyntaxError>
    requires { LieWithin source.now tokens.now }
    ensures { Parses (parsed (lexemes source.now tokens.now)) result }
{
    let mut tokens = Tokens::new(source, tokens);
    let (found, _) = read_source(alloc, &mut tokens, ROOM)?;
    if tokens.is_empty() {
        Ok(found)
    } else {
        Err(SyntaxError::NoTree)
    }
}

/// The tree that spells these tokens of the source, by the grammar of `osl_tree`.
///
/// `NoTree` comes exactly where no tree of height at most 256 spells them, and `Memory` where memory
/// was refused. Each token is taken once; to choose a rule, at most four are looked at ahead.
pub fn parse(alloc: Global, source: &[u8], tokens: &[Token]) -> Result<Tree, SyntaxError>
    // The tokens are those of the source.
    requires { AreTokens source.now tokens.now }
    // What is answered spells the tokens.
    ensures found { IfOk result (λ tree. Spells tree source.now tokens.now) }
    // NoTree is answered only where no tree spells them that is no higher than 256.
    ensures none { IsNoTree result → (tree : Tree) → Spells tree source.now tokens.now → ⊥ }
{
    read(alloc, source, tokens)
}
