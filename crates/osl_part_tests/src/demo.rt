//! The files of the demonstration. The expected lengths, lines and numbers were worked out outside the program.

use osl_demo::{demo_files, fold};
use std::test::Fail;

// The names of the files.
static NAMES: [&str; 5] = ["gen.osl", "top.osl", "g", "p", "e"];

// A size, the lengths of its files, and the number of all their bytes, file after file.
static SIZES: [(u32, [usize; 5], u64); 3] = [
    (1, [151, 72, 174, 960, 96], 2_475_369_618_929_392_537),
    (7, [151, 72, 373, 6_720, 674], 8_859_847_329_691_966_867),
    (
        256,
        [151, 72, 262, 245_760, 24_576],
        17_549_507_477_865_944_369,
    ),
];

#[test]
fn files_of_three_sizes(rt: HostRuntime) -> Result<(), Fail> {
    for &(n, lens, whole) in &SIZES {
        assert!(rt; n >= 1 && n <= 256);
        let files = demo_files(rt.alloc(), n)?;
        let mut folded = 0;
        for i in 0..5u32 {
            let bytes = files.bytes(i);
            assert_eq!(rt; files.name(i), NAMES[i as usize]);
            assert_eq!(rt; bytes.len(), lens[i as usize], "file {i} of {n}");
            folded = fold(folded, bytes);
        }
        assert_eq!(rt; folded, whole, "{n}");
    }
    Ok(())
}

/// The shaders, which are the same at each size.
const GENERATED: &str =
    "shader gen(float a = 1, float b = 0 [[int lockgeom = 0]], output float r = 0) { float s = b + u; for (int i = 0; i < 8; ++i) s = s * 0.5 + a; r = s; }\n";

const TOP: &str = "surface top(float k = 0.5) { Ci = k * diffuse(N) + 0.25 * emission(); }\n";

// A size, one of its files, and how that begins and ends.
static ENDS: [(u32, u32, &str, &str); 11] = [
    (1, 0, GENERATED, "\n"),
    (256, 1, TOP, "\n"),
    (
        1,
        2,
        "shader gen g0 ;\nshader gen g1 ;\nconnect g0.r g1.a ;\n",
        "\nshader top t ;\nconnect g4.r t.k ;\n",
    ),
    (
        1,
        3,
        "point N 0 0 1 u 0.051 v 0.627\n",
        "\npoint N 0 0 1 u 0.248 v 0.757\n",
    ),
    (
        1,
        4,
        "edit 0 float g4.b 0.306\n",
        "\nedit 0 float g4.b 0.262\n",
    ),
    (7, 2, "shader gen g0 ;\n", "\nconnect g10.r t.k ;\n"),
    (
        7,
        3,
        "point N 0 0 1 u 0.213 v 0.363\n",
        "\npoint N 0 0 1 u 0.106 v 0.362\n",
    ),
    (
        7,
        4,
        "edit 0 float g2.b 0.779\n",
        "\nedit 0 float g7.b 0.141\n",
    ),
    (256, 2, "shader gen g0 ;\n", "\nconnect g7.r t.k ;\n"),
    (
        256,
        3,
        "point N 0 0 1 u 0.004 v 0.601\n",
        "\npoint N 0 0 1 u 0.269 v 0.456\n",
    ),
    (
        256,
        4,
        "edit 0 float g1.b 0.831\n",
        "\nedit 0 float g2.b 0.904\n",
    ),
];

#[test]
fn first_and_last_lines(rt: HostRuntime) -> Result<(), Fail> {
    for &(n, i, first, last) in &ENDS {
        assert!(rt; n >= 1 && n <= 256 && i < 5);
        let files = demo_files(rt.alloc(), n)?;
        let bytes = files.bytes(i);
        assert!(rt; bytes.starts_with(first.as_bytes()), "file {i} of {n}");
        assert!(rt; bytes.ends_with(last.as_bytes()), "file {i} of {n}");
    }
    Ok(())
}
