ghost use Rattle.std.specs.Prelude.{◌≡◌, ◌*◌, ◌<◌, ◌≤◌, IfOk, OnOk};
ghost use Rattle.osl_demo.specs.Draws.{after};
ghost use Rattle.osl_demo.specs.Texts.{group_text, points_text, edits_text};

use crate::draws::Draws;
use crate::lines::{write_edit, write_next_layer, write_point, write_shader, write_top};
use osl_value::Memory;
use std::alloc::Global;

/// The group's text, whose layers are counted from 0 to `last`.
#[tactic(auto, unfolding(crate::specs::Texts::group_text))]
pub(crate) fn group(alloc: Global, last: u32, draws: &mut Draws) -> Result<Vec<u8>, Memory>
    requires { last < 16 }
    ensures text { IfOk result (λ text. text.items ≡ group_text draws.old.state last) }
    ensures state { OnOk result (draws.new.state ≡ after last draws.old.state) }
{
    let mut out = Vec::new(alloc);
    write_shader(0, &mut out)?;
    for source in 0..last {
        write_next_layer(source, draws, &mut out)?;
    }
    write_top(last, &mut out)?;
    Ok(out)
}

/// The text of so many points.
#[tactic(auto, unfolding(crate::specs::Texts::points_text))]
pub(crate) fn points(alloc: Global, count: u32, draws: &mut Draws) -> Result<Vec<u8>, Memory>
    ensures text { IfOk result (λ text. text.items ≡ points_text draws.old.state count) }
    ensures state { OnOk result (draws.new.state ≡ after (2 * count) draws.old.state) }
{
    let mut out = Vec::new(alloc);
    for _point in 0..count {
        write_point(draws, &mut out)?;
    }
    Ok(out)
}

/// The text of so many edits of a group of so many layers.
#[tactic(auto, unfolding(crate::specs::Texts::edits_text))]
pub(crate) fn edits(
    alloc: Global,
    layers: u32,
    count: u32,
    draws: &mut Draws,
) -> Result<Vec<u8>, Memory>
    requires some { 0 < layers }
    requires few { layers ≤ 16 }
    ensures { IfOk result (λ text. text.items ≡ edits_text layers draws.old.state count) }
{
    let mut out = Vec::new(alloc);
    for _edit in 0..count {
        write_edit(layers, draws, &mut out)?;
    }
    Ok(out)
}
