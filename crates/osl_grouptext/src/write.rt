//! Statements, written.

ghost use Rattle.std.specs.Prelude.{◌≡◌, [], ◌∷◌, ◌++◌, codes, OnOk, IfOk};
ghost use Rattle.std.specs.List.{flat_map};
ghost use Rattle.osl_valuetext.specs.Identifiers.{pair_text};
ghost use Rattle.osl_valuetext.specs.Words.{behind};
ghost use Rattle.osl_grouptext.specs.Canon.{statement_text, group_text};
ghost use Rattle.osl_grouptext.specs.Statements.{lock_words, lock_or_none, pair_of};
ghost use Rattle.osl_network.specs.declared.statement.Statement.TheVariants as statements;

use crate::text::GroupText;
use osl_network::Statement;
use osl_value::{Memory, Text, Value};
use osl_valuetext::{write_pair, write_type, write_value};
use std::alloc::Global;

/// Appends a name after a space.
fn write_name(name: &Text, out: &mut Vec<u8>) -> Result<(), Memory>
    ensures { OnOk result (out.new.items ≡ out.old.items ++ 32 ∷ name.now) }
{
    out.push(b' ')?;
    out.extend_from_slice(name.bytes())?;
    Ok(())
}

/// Appends `LAYER.PARAM` after a space.
fn write_port(layer: &Text, param: &Text, out: &mut Vec<u8>) -> Result<(), Memory>
    ensures { OnOk result (out.new.items ≡ out.old.items ++ 32 ∷ pair_text (pair_of layer.now param.now)) }
{
    out.push(b' ')?;
    write_pair(layer.bytes(), param.bytes(), out)
}

/// Appends whether a parameter is locked.
fn write_locked(locked: bool, out: &mut Vec<u8>) -> Result<(), Memory>
    ensures { OnOk result (out.new.items ≡ out.old.items ++ behind 32 (lock_words locked)) }
{
    if locked {
        out.extend_from_slice(b" [[ int lockgeom = 1 ]]")?;
        Ok(())
    } else {
        out.extend_from_slice(b" [[ int lockgeom = 0 ]]")?;
        Ok(())
    }
}

/// Appends whether a parameter is locked, if it says so.
fn write_lock(lockgeom: Option<bool>, out: &mut Vec<u8>) -> Result<(), Memory>
    ensures { OnOk result (out.new.items ≡ out.old.items ++ behind 32 (lock_or_none lockgeom)) }
{
    match lockgeom {
        None => Ok(()),
        Some(locked) => write_locked(locked, out),
    }
}

/// Appends the mark that ends a statement, and a line feed.
fn write_end(out: &mut Vec<u8>) -> Result<(), Memory>
    ensures { OnOk result (out.new.items ≡ out.old.items ++ codes " ;" ++ 10 ∷ []) }
{
    out.extend_from_slice(b" ;\n")?;
    Ok(())
}

/// Appends an instance value.
fn write_param(
    name: &Text,
    value: &Value,
    lockgeom: Option<bool>,
    out: &mut Vec<u8>,
) -> Result<(), Memory>
    ensures { OnOk result (out.new.items ≡ out.old.items ++ statement_text (statements.Param name.now value.now lockgeom)) }
{
    out.extend_from_slice(b"param ")?;
    write_type(value.ty(), out)?;
    write_name(name, out)?;
    write_value(value, out)?;
    write_lock(lockgeom, out)?;
    write_end(out)
}

/// Appends a layer.
fn write_layer(shader: &Text, layer: &Text, out: &mut Vec<u8>) -> Result<(), Memory>
    ensures { OnOk result (out.new.items ≡ out.old.items ++ statement_text (statements.Shader shader.now layer.now)) }
{
    out.extend_from_slice(b"shader")?;
    write_name(shader, out)?;
    write_name(layer, out)?;
    write_end(out)
}

/// Appends an asked output.
fn write_output(layer: &Text, param: &Text, out: &mut Vec<u8>) -> Result<(), Memory>
    ensures { OnOk result (out.new.items ≡ out.old.items ++ statement_text (statements.Output layer.now param.now)) }
{
    out.extend_from_slice(b"output")?;
    write_port(layer, param, out)?;
    write_end(out)
}

/// Appends a statement.
fn write_statement(statement: &Statement, out: &mut Vec<u8>) -> Result<(), Memory>
    ensures { OnOk result (out.new.items ≡ out.old.items ++ statement_text statement.now) }
{
    match statement {
        Statement::Param {
            name,
            value,
            lockgeom,
        } => write_param(name, value, *lockgeom, out),
        Statement::Shader { shader, layer } => write_layer(shader, layer, out),
        Statement::Connect {
            src_layer,
            src_param,
            dst_layer,
            dst_param,
        } => {
            out.extend_from_slice(b"connect")?;
            write_port(src_layer, src_param, out)?;
            write_port(dst_layer, dst_param, out)?;
            write_end(out)
        }
        Statement::Output { layer, param } => write_output(layer, param, out),
    }
}

/// Appends statements.
fn write_statements(list: &[Statement], out: &mut Vec<u8>) -> Result<(), Memory>
    ensures { OnOk result (out.new.items ≡ out.old.items ++ flat_map statement_text list.now) }
{
    for statement in list {
        write_statement(statement, out)?;
    }
    Ok(())
}

/// The canonical text of statements: a line for each, with one space between words.
#[tactic(auto, unfolding(crate::specs::Canon::group_text))]
pub fn write_group(alloc: Global, text: &GroupText) -> Result<Vec<u8>, Memory>
    ensures { IfOk result (λ out. out.items ≡ group_text text.now) }
{
    let mut out = Vec::new(alloc);
    write_statements(text.as_slice(), &mut out)?;
    Ok(out)
}
