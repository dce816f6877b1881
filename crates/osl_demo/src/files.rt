ghost use Rattle.std.specs.Prelude.{◌≡◌, ◌<◌, ◌≤◌, IfOk};
ghost use Rattle.osl_demo.specs.Files.{demo, name_at, text_at};

use crate::draws::Draws;
use crate::texts::{edits, group, points};
use osl_value::Memory;
use std::alloc::Global;
use std::marker::Model;

/// The shader that each layer but the last runs.
const GENERATOR: &[u8] =
    b"shader gen(float a = 1, float b = 0 [[int lockgeom = 0]], output float r = 0) { float s = b + u; for (int i = 0; i < 8; ++i) s = s * 0.5 + a; r = s; }\n";

/// The shader of the last layer.
const TOP: &[u8] = b"surface top(float k = 0.5) { Ci = k * diffuse(N) + 0.25 * emission(); }\n";

/// The five files of a demonstration, each a name and its bytes. Contracts see them as a list.
#[derive(Debug, Drop)]
pub struct DemoFiles {
    group: Vec<u8>,
    points: Vec<u8>,
    edits: Vec<u8>,
}

impl Model for DemoFiles {
    ghost use Rattle.std.specs.Prelude.{List};
    ghost use Rattle.osl_demo.specs.Files.{File, files_of};

    ghost Value = { List File };

    ghost view = { λ d. files_of d.group.items d.points.items d.edits.items };
}

/// The files of the demonstration of a size: two shaders, and a group, points and edits that are drawn from it.
///
/// # Errors
/// `Memory` where the texts cannot be had.
#[tactic(auto, unfolding(crate::specs::Files::demo))]
pub fn demo_files(alloc: Global, n: u32) -> Result<DemoFiles, Memory>
    requires some { 1 ≤ n }
    requires at_most { n ≤ 256 }
    ensures { IfOk result (λ files. files ≡ demo n) }
{
    let mut draws = Draws::start(n);
    let last = 3 + n % 12;
    let group = group(alloc, last, &mut draws)?;
    let points = points(alloc, 32 * n, &mut draws)?;
    let edits = edits(alloc, last + 1, 4 * n, &mut draws)?;
    Ok(DemoFiles {
        group,
        points,
        edits,
    })
}

impl DemoFiles {
    /// The name of file `i`, counted from 0.
    pub fn name(&self, i: u32) -> &str
        requires { i < 5 }
        ensures { result.now ≡ name_at self.now i }
    {
        self.file(i).0
    }

    /// The bytes of file `i`, counted from 0.
    pub fn bytes(&self, i: u32) -> &[u8]
        requires { i < 5 }
        ensures { result.now ≡ text_at self.now i }
    {
        self.file(i).1
    }

    #[tactic(auto, unfolding(crate::specs::Texts::generator_text, crate::specs::Texts::top_text, crate::specs::Texts::line_end))]
    fn file(&self, i: u32) -> (&str, &[u8])
        requires { i < 5 }
        ensures name { result.0.now ≡ name_at self.now i }
        ensures bytes { result.1.now ≡ text_at self.now i }
    {
        match i {
            0 => ("gen.osl", GENERATOR),
            1 => ("top.osl", TOP),
            2 => ("g", self.group.as_slice()),
            3 => ("p", self.points.as_slice()),
            4 => ("e", self.edits.as_slice()),
            _ => unreachable!(),
        }
    }
}
