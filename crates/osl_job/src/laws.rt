//! What holds of plans and verdicts alone.

ghost use Rattle.std.specs.Prelude.{◌≡◌, List, ℕ};
ghost use Rattle.osl_store.specs.Files.{Files};
ghost use Rattle.osl_job.specs.declared.shader_text.ShaderText.{ShaderText};
ghost use Rattle.osl_job.specs.ShaderTexts.{IsShaderText};
ghost use Rattle.osl_job.specs.Plan.{Plan, IsVerdict};
ghost use Rattle.osl_job.specs.Verdict.{Verdict};

use osl_lex::laws::one_reading;
use osl_tree::laws::{read_is_spelled, spelled_is_read};

/// Each text is one thing as the text of a shader.
pub fn one_shader_text()
    ensures some { (text : List ℕ) → (source : ShaderText) × IsShaderText text source }
    ensures one { (text : List ℕ) (x y : ShaderText) → IsShaderText text x → IsShaderText text y → x ≡ y }
{
    one_reading();
    spelled_is_read();
    read_is_spelled();
}

/// Over given files each plan has one verdict.
pub fn one_verdict()
    ensures some { (plan : Plan) (files : Files) → (v : Verdict) × IsVerdict files plan v }
    ensures one { (files : Files) (plan : Plan) (x y : Verdict)
        → IsVerdict files plan x → IsVerdict files plan y → x ≡ y }
{
    one_shader_text();
}
