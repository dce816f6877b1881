//! Kinds.

use crate::shape::Shape;
use osl_overload::Kind;
use osl_value::{Base, Memory, Ty};

impl Shape {
    /// A type, with no blank before it.
    fn bare_type(&mut self, ty: Ty) -> Result<(), Memory> {
        match ty.base {
            Base::Closure => self.text.push_str("closure")?,
            base => self.text.push_str(base.name())?,
        }
        if ty.len != 0 {
            write!(&mut self.text, "[{}]", ty.len)?;
        }
        Ok(())
    }

    /// A kind, with no blank before it.
    pub(super) fn bare_kind(&mut self, kind: Kind) -> Result<(), Memory> {
        match kind {
            Kind::Value(ty) => self.bare_type(ty)?,
            Kind::Structure(number) => write!(&mut self.text, "struct{number}")?,
            Kind::Void => self.text.push_str("void")?,
        }
        Ok(())
    }

    pub(super) fn kind(&mut self, kind: Kind) -> Result<(), Memory> {
        self.text.push_str(" ")?;
        self.bare_kind(kind)
    }

    /// A node of kinds.
    pub(super) fn kinds(&mut self, name: &str, kinds: &[Kind]) -> Result<(), Memory> {
        self.open(name)?;
        for kind in kinds {
            self.kind(*kind)?;
        }
        self.close()
    }

    /// Begins a node that gives this kind.
    pub(super) fn open_of(&mut self, name: &str, kind: Kind) -> Result<(), Memory> {
        self.open(name)?;
        self.kind(kind)
    }
}
