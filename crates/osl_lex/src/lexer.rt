ghost use Rattle.std.specs.Prelude.{◌≤◌, length, IfOk, IfErr};
ghost use Rattle.osl_tree.specs.Lexical.{Tokens};
ghost use Rattle.osl_lex.specs.Pieces.{IsFirstBad};

use crate::error::LexError;
use crate::piece::{Piece, piece_at};
use osl_tree::Token;
use std::alloc::Global;

/// The tokens of a source.
///
/// `Bad` comes exactly where the source has none, with its first fault and the place where what
/// fails begins. It takes one walk over the source.
pub fn lex(alloc: Global, source: &[u8]) -> Result<Vec<Token>, LexError>
    requires { length source.now ≤ 1048576 }
    ensures tokens { IfOk result (λ tokens. Tokens source.now tokens.items) }
    ensures bad { IfErr result (IsFirstBad source.now) }
{
    let mut tokens = Vec::new(alloc);
    let mut at = 0;
    while at < source.len() {
        let piece = match piece_at(source, at) {
            Ok(piece) => piece,
            Err(kind) => return Err(LexError::Bad {
                kind,
                at: at as u32,
            }),
        };
        at = match piece {
            Piece::Gap(end) => end,
            Piece::Token(kind, end) => {
                tokens.push(Token {
                    kind,
                    start: at as u32,
                    end: end as u32,
                })?;
                end
            }
        };
    }
    Ok(tokens)
}
