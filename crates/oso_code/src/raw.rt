use crate::list::ListOf;
use crate::op::{Op, Section};
use crate::symbol::{Meta, Symbol};
use osl_value::{ShaderKind, Text};

/// Code as a text has it, valid or not.
#[derive(Debug, Drop)]
pub struct Raw {
    pub kind: ShaderKind,
    pub name: Text,

    /// The shader's own metadata.
    pub metas: ListOf<Meta>,

    /// The symbols, parameters first.
    pub symbols: ListOf<Symbol>,

    /// The sections of parameters, in the parameters' order, and then that of the body.
    pub sections: ListOf<Section>,
    pub ops: ListOf<Op>,
}
