ghost use Rattle.std.specs.Prelude.{◌≡◌, IfOk};

use osl_value::Memory;
use std::alloc::Global;
use std::marker::Model;

/// The name of a file, seen as the bytes of its text.
#[derive(Debug, Drop)]
pub struct Name {
    text: String,
}

impl Model for Name {
    ghost use Rattle.std.specs.Prelude.{List, ℕ, string_bytes};

    ghost Value = { List ℕ };

    ghost view = { λ name. string_bytes name.text };
}

impl Name {
    /// A name with this text.
    ///
    /// # Errors
    /// `Memory` where the text cannot be copied.
    pub fn from_str(alloc: Global, text: &str) -> Result<Name, Memory>
        ensures { IfOk result (λ name. name ≡ text.now) }
    {
        let text = String::from_str(alloc, text)?;
        Ok(Name { text })
    }

    /// The text.
    pub fn as_str(&self) -> &str
        ensures { result.now ≡ self.now }
    {
        self.text.as_str()
    }
}

/// What the command line asks for.
#[derive(Debug, Drop)]
pub enum Job {
    /// Shade a group at points.
    Shade(ShadeJob),
    /// Compile one shader's source to oso text.
    Oslc {
        /// The source.
        input: Name,
        /// Where the oso text goes.
        output: Name,
    },
    /// Shade the generator's files of this size, and print a summary.
    Demo(u32),
    /// Print the generator's files of this size.
    DemoText(u32),
}

/// What `shade` is to do.
#[derive(Debug, Drop)]
pub struct ShadeJob {
    /// The group's text.
    pub group: Name,
    /// The points' text.
    pub points: Name,
    /// The edits' text, if there are edits.
    pub edits: Option<Name>,
    /// How many workers share the points, from 1 to 16.
    pub workers: u32,
    /// How often one run of a layer at a point may enter loop bodies, from 1 to 1,000,000.
    pub budget: u32,
    /// Whether all edits come before the first point.
    pub settle: bool,
    /// Whether one thread makes edits and points in turn.
    pub serial: bool,
    /// Whether the shaders are oso texts and not sources.
    pub from_oso: bool,
}
