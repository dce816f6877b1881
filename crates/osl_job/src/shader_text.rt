//! A source, from its bytes on: its tokens, its tree, its typing, and what is built of it.

ghost use Rattle.std.specs.Prelude.{◌≡◌, ◌≤◌, true, length, IfOk};
ghost use Rattle.osl_tree.specs.Lexemes.{lexemes};
ghost use Rattle.osl_job.specs.SmallNames.{is_tied};
ghost use Rattle.osl_tree.specs.Sources.{LieWithin};
ghost use Rattle.osl_job.specs.Small.{small_shader};
ghost use Rattle.osl_job.specs.ShaderTexts as spec;
ghost use Rattle.osl_job.specs.ShaderTexts.{IsShaderText, IfShader};

use crate::shader::read_shader;
use crate::small::SmallShader;
use crate::text::ReadStop;
use osl_check::{TypeError, check};
use osl_lex::laws::one_reading;
use osl_lex::{LexError, lex};
use osl_parse::{SyntaxError, parse};
use osl_tree::laws::tokens_lie_within;
use osl_tree::token::Token;
use osl_value::Memory;
use std::alloc::Global;

/// What a source is.
#[derive(Drop)]
pub enum ShaderText {
    /// It has no tokens.
    NoTokens,
    /// No tree spells its tokens.
    NoTree,
    /// Its tree has no typing.
    NoTyping,
    /// Its form is not built yet.
    NotBuilt,
    /// This shader, of the small form.
    Shader(SmallShader),
}

/// What the text of a source is.
pub fn read_shader_text(alloc: Global, text: &[u8]) -> Result<ShaderText, Memory>
    requires { length text.now ≤ 1048576 }
    ensures is { IfOk result (IsShaderText text.now) }
    ensures tied { IfOk result (λ source. IfShader source (λ t. is_tied t ≡ true)) }
    ensures few { IfOk result (λ source. IfShader source (λ t. length t.params ≤ 16)) }
{
    // The proof cites these two laws.
    one_reading();
    tokens_lie_within();
    let tokens = match lex(alloc, text) {
        Ok(tokens) => tokens,
        Err(LexError::Bad { .. }) => return Ok(ShaderText::NoTokens),
        Err(LexError::Memory) => return Err(Memory),
    };
    let tree = match parse(alloc, text, tokens.as_slice()) {
        Ok(tree) => tree,
        Err(SyntaxError::NoTree) => return Ok(ShaderText::NoTree),
        Err(SyntaxError::Memory) => return Err(Memory),
    };
    match check(alloc, &tree) {
        Ok(_typed) => Ok(built(alloc, text, tokens.as_slice())?),
        Err(TypeError::NoTyping) => Ok(ShaderText::NoTyping),
        Err(TypeError::Memory) => Err(Memory),
    }
}

/// What is built of a source that has a typing.
fn built(alloc: Global, text: &[u8], tokens: &[Token]) -> Result<ShaderText, Memory>
    requires { LieWithin text.now tokens.now }
    ensures is { IfOk result (λ source. source ≡ spec.built (small_shader (lexemes text.now tokens.now))) }
    ensures tied { IfOk result (λ source. IfShader source (λ t. is_tied t ≡ true)) }
    ensures few { IfOk result (λ source. IfShader source (λ t. length t.params ≤ 16)) }
{
    match read_shader(alloc, text, tokens) {
        Ok(shader) => Ok(ShaderText::Shader(shader)),
        Err(ReadStop::NotBuilt) => Ok(ShaderText::NotBuilt),
        Err(ReadStop::Memory) => Err(Memory),
    }
}
