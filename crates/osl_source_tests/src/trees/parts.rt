//! Components, elements and fields.

use super::{Row, all_say_behind};
use std::test::Fail;

static PARTS: [Row; 5] = [
    (
        "c.r; c.g; c.b; p.x; v.y; n.z; c[i]; v[2]; P.y;",
        "(part $5:color .0) (part $5:color .1) (part $5:color .2) (part $7:point .0) (part $8:vector .1) (part $9:normal .2) (part $5:color $1:int) (part $8:vector 2) (part P:point .1)",
    ),
    (
        "fs[1]; cs[i]; cs[i].g; cs[i][j]; m[i][j]; is[is[0]];",
        "(part $17:float[3] 1) (part $18:color[2] $1:int) (part $18:color[2] $1:int .1) (part $18:color[2] $1:int $2:int) (part $10:matrix $1:int $2:int) (part $16:int[3] (part $16:int[3] 0))",
    ),
    (
        "q.a; q.b; q.b.g; q.c; q.c[i]; e.n; e.p; e.p.a; e.p.b[2]; e.p.c[i]; e.w.z;",
        "$19.0:float $19.1:color (part $19.1:color .1) $19.2:int[2] (part $19.2:int[2] $1:int) $20.0:int $20.1:struct0 $20.1.0:float (part $20.1.1:color 2) (part $20.1.2:int[2] $1:int) (part $20.2:vector .2)",
    ),
    (
        "(c + d).g; (p - p)[i]; (fs)[2]; (cs)[i].b; (m * l)[i][j]; min(c, d).b;",
        "(part_of color (paren color (add color $5:color $6:color)) it:color .1) (part_of point (paren point (sub point $7:point $7:point)) it:point $1:int) (part_of float[3] (paren float[3] $17:float[3]) it:float[3] 2) (part_of color[2] (paren color[2] $18:color[2]) it:color[2] $1:int .2) (part_of matrix (paren matrix (mul matrix $10:matrix $11:matrix)) it:matrix $1:int $2:int) (part_of color (min color $5:color $6:color) it:color .2)",
    ),
    (
        "made(f).a; made(f).b.r; made(f).c[j]; (q).b; (e).p.c[0]; (e).p.b.g; ((e).p).a;",
        "(part_of struct0 (call 0 struct0 $3:float) it.0:float) (part_of struct0 (call 0 struct0 $3:float) it.1:color .0) (part_of struct0 (call 0 struct0 $3:float) it.2:int[2] $2:int) (part_of struct0 (paren struct0 $19:struct0) it.1:color) (part_of struct1 (paren struct1 $20:struct1) it.1.2:int[2] 0) (part_of struct1 (paren struct1 $20:struct1) it.1.1:color .1) (part_of struct0 (paren struct0 (part_of struct1 (paren struct1 $20:struct1) it.1:struct0)) it.0:float)",
    ),
];

#[test]
fn parts_say_what_is_taken(rt: HostRuntime) -> Result<(), Fail> {
    all_say_behind(&rt, rt.alloc(), &PARTS)
}
