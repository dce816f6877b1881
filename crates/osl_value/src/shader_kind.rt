/// The kind of a shader (OSL specification, "Shader types").
#[derive(Clone, Copy, Debug, PartialEq, Eq)]
pub enum ShaderKind {
    Surface,
    Displacement,
    Volume,
    /// A shader of any use, `shader` in the language.
    Shader,
}
