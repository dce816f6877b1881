ghost use Rattle.std.specs.Prelude.{◌≡◌, ◌+◌, ◌<◌, ◌≤◌, ◌++◌, pos, OnOk};
ghost use Rattle.osl_demo.specs.Draws.{next, drawn};
ghost use Rattle.osl_decimal.specs.Canonical.{int_text};
ghost use Rattle.osl_demo.specs.Texts.{fraction, shader_line, connect_line, next_layer, top_lines, point_line, edit_line};

use crate::draws::Draws;
use osl_decimal::write_int;
use osl_value::Memory;

/// Appends `0.` and a number of thousandths in three digits.
#[tactic(auto, unfolding(crate::specs::Texts::fraction))]
fn write_fraction(thousandths: u32, out: &mut Vec<u8>) -> Result<(), Memory>
    requires { thousandths < 1000 }
    ensures { OnOk result (out.new.items ≡ out.old.items ++ fraction thousandths) }
{
    let hundreds = b'0' + (thousandths / 100) as u8;
    let tens = b'0' + (thousandths / 10 % 10) as u8;
    let ones = b'0' + (thousandths % 10) as u8;
    out.extend_from_slice(&[b'0', b'.', hundreds, tens, ones])?;
    Ok(())
}

/// Appends a layer's number between two texts.
fn write_numbered(
    before: &[u8],
    number: u32,
    behind: &[u8],
    out: &mut Vec<u8>,
) -> Result<(), Memory>
    requires { number < 16 }
    ensures { OnOk result (out.new.items ≡ out.old.items ++ (before.now ++ int_text (pos number) ++ behind.now)) }
{
    out.extend_from_slice(before)?;
    write_int(number as i32, out)?;
    out.extend_from_slice(behind)?;
    Ok(())
}

/// Appends the line that makes a layer.
#[tactic(auto, unfolding(crate::specs::Texts::shader_line, crate::specs::Texts::line_end))]
pub(crate) fn write_shader(layer: u32, out: &mut Vec<u8>) -> Result<(), Memory>
    requires { layer < 16 }
    ensures { OnOk result (out.new.items ≡ out.old.items ++ shader_line layer) }
{
    write_numbered(b"shader gen g", layer, b" ;\n", out)
}

/// Appends the line that connects a layer to the one after it.
#[tactic(auto, unfolding(crate::specs::Texts::connect_line, crate::specs::Texts::line_end))]
fn write_connection(source: u32, out: &mut Vec<u8>) -> Result<(), Memory>
    requires { source < 15 }
    ensures { OnOk result (out.new.items ≡ out.old.items ++ connect_line source (source + 1)) }
{
    write_numbered(b"connect g", source, b".r g", out)?;
    write_numbered(b"", source + 1, b".a ;\n", out)
}

/// Appends the layer that comes after `source`, connected where the draw is not 0.
#[tactic(auto, unfolding(crate::specs::Texts::next_layer))]
pub(crate) fn write_next_layer(
    source: u32,
    draws: &mut Draws,
    out: &mut Vec<u8>,
) -> Result<(), Memory>
    requires { source < 15 }
    ensures text { OnOk result (out.new.items ≡ out.old.items ++ next_layer draws.old.state source) }
    ensures state { OnOk result (draws.new.state ≡ next draws.old.state) }
{
    write_shader(source + 1, out)?;
    if draws.draw(3) > 0 {
        write_connection(source, out)?;
    }
    Ok(())
}

/// Appends the shader that ends the group, connected to the last layer.
#[tactic(auto, unfolding(crate::specs::Texts::top_lines, crate::specs::Texts::line_end))]
pub(crate) fn write_top(last: u32, out: &mut Vec<u8>) -> Result<(), Memory>
    requires { last < 16 }
    ensures { OnOk result (out.new.items ≡ out.old.items ++ top_lines last) }
{
    write_numbered(b"shader top t ;\nconnect g", last, b".r t.k ;\n", out)
}

/// Appends a point, its `u` drawn before its `v`.
#[tactic(auto, unfolding(crate::specs::Texts::point_line, crate::specs::Texts::line_end))]
pub(crate) fn write_point(draws: &mut Draws, out: &mut Vec<u8>) -> Result<(), Memory>
    ensures text { OnOk result (out.new.items ≡ out.old.items ++ point_line draws.old.state) }
    ensures state { OnOk result (draws.new.state ≡ next (next draws.old.state)) }
{
    out.extend_from_slice(b"point N 0 0 1 u ")?;
    write_fraction(draws.draw(1000), out)?;
    out.extend_from_slice(b" v ")?;
    write_fraction(draws.draw(1000), out)?;
    out.extend_from_slice(b"\n")?;
    Ok(())
}

/// Appends an edit of one of so many layers, the layer drawn before the value.
#[tactic(auto, unfolding(crate::specs::Texts::edit_line, crate::specs::Texts::line_end))]
pub(crate) fn write_edit(layers: u32, draws: &mut Draws, out: &mut Vec<u8>) -> Result<(), Memory>
    requires some { 0 < layers }
    requires few { layers ≤ 16 }
    ensures text { OnOk result (out.new.items ≡ out.old.items ++ edit_line layers draws.old.state) }
    ensures state { OnOk result (draws.new.state ≡ next (next draws.old.state)) }
{
    write_numbered(b"edit 0 float g", draws.draw(layers), b".b ", out)?;
    write_fraction(draws.draw(1000), out)?;
    out.extend_from_slice(b"\n")?;
    Ok(())
}
