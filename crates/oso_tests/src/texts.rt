//! The text of code, read and written.

use crate::code::{code, numbered, ops, sections};
use osl_decimal::write_int;
use osl_value::{Base, OpName};
use oso_code::{Class, validate};
use oso_read::{OsoError, OsoKind, read};
use oso_write::write;
use std::alloc::Global;
use std::test::Fail;

const PLAIN: &[u8] =
    b"OpenShadingLanguage 1.00\nshader plain\noparam float r 7\ncode ___main___\nend\n";

/// The most bytes of a text of these tests.
const LONGEST: usize = 1_000_000;

/// Why a text is not read.
fn fault_of(alloc: Global, text: &[u8]) -> Option<OsoError> {
    if text.len() > LONGEST {
        return Some(OsoError::Memory);
    }
    read(alloc, text).err()
}

#[test]
fn each_front_of_a_text_is_refused(rt: HostRuntime) {
    assert!(rt; read(rt.alloc(), PLAIN).is_ok());
    for len in 0..PLAIN.len() {
        assert!(rt; read(rt.alloc(), &PLAIN[..len]).is_err());
    }
}

/// The same shader: a hint.
const HINTED: &[u8] =
    b"OpenShadingLanguage 1.00\nshader plain\noparam float r 7 %foo{1}\ncode ___main___\nend\n";

/// Carriage returns, tabs, comments, lines without words, and no line feed at the end.
const SPACED: &[u8] =
    b"\n \t\r\n# one\nOpenShadingLanguage\t1.00 %a{\"}\"} \r\n  # two\nshader  plain\t\r\n\toparam float r 7\ncode ___main___ %b{ x }\nend %c{}\n# three";

static ACCEPTED: [&[u8]; 15] = [
    // The bytes 127 and 0 of a string are written as octal digits.
    b"OpenShadingLanguage 1.00\nshader s\nconst string a \"\\177\\000\"\ncode ___main___\nend\n",
    HINTED,
    SPACED,
    // Metadata, of every type.
    b"OpenShadingLanguage 1.00\nsurface s %meta{int,i,-1} %x{} %meta{float[2],f,0.5,-3} %meta{string,t,\"a,}\\\"\\\\\\n\\t\\r\\001\\377\"} %meta{closure color,c} %meta{matrix,m,1,0,0,0,0,1,0,0,0,0,1,0,0,0,0,1}\ncode ___main___\nend\n",
    b"OpenShadingLanguage 1.00\nvolume v\nparam color c 1 0 0.25 %meta{int,lockgeom,0}\ncode ___main___\nend\n",
    // Every class.
    b"OpenShadingLanguage 1.00\ndisplacement d\nparam string $a.b \"\"\noparam int[3] _x 1 -2 2147483647\nparam closure color k\nglobal point P\nglobal normal N\nglobal normal Ng\nglobal vector I\nglobal float u\nglobal float v\nglobal closure color Ci\nconst string c1 \"a b\"\nconst matrix c2 1 2 3 4 5 6 7 8 9 10 11 12 13 14 15 16\nlocal color x\ntemp closure color y\ncode ___main___\nend\n",
    // Sections of parameters, with the parameter written in its own.
    b"OpenShadingLanguage 1.00\nshader s\nparam float a 0\nparam float b 0\nconst float c 1\ncode a\nassign a c\ncode b\nassign b a\ncode ___main___\nend\n",
    b"OpenShadingLanguage 1.00\nshader s\nparam float a 0\noparam float b 0\ncode b\ncode ___main___\nassign b a\nend\n",
    // Control.
    b"OpenShadingLanguage 1.00\nshader s\nconst int c 1\ncode ___main___\nif c 2 3\nreturn\nexit\nend\n",
    b"OpenShadingLanguage 1.00\nshader s\nconst int c 1\ncode ___main___\nwhile c 1 3\nif c 2 3\nbreak\nend\n",
    b"OpenShadingLanguage 1.00\nshader s\nconst int c 1\nlocal int i\ncode ___main___\nfor c 2 3 4\nassign i c\ncontinue\nadd i i c\nend\n",
    b"OpenShadingLanguage 1.00\nshader s\nconst int c 1\ncode ___main___\ndowhile c 3 3\nfunctioncall 3\nreturn\nend\n",
    b"OpenShadingLanguage 1.00\nshader s\nconst int c 1\ncode ___main___\nwhile c 1 1\nend\n",
    b"OpenShadingLanguage 1.00\nsurface s\nglobal closure color Ci\nglobal normal N\ncode ___main___\ncl_diffuse Ci N\nend\n",
    b"OpenShadingLanguage 1.00\nshader s\nparam int a -2147483648\nconst float b 9223372036.854775807\ncode ___main___\nend\n\n\n",
];

#[test]
fn texts_are_read(rt: HostRuntime) -> Result<(), Fail> {
    for text in &ACCEPTED {
        assert_eq!(rt; fault_of(rt.alloc(), text), None);
    }
    Ok(())
}

/// Every operation, in the order of `OpName::ALL`.
const EVERY_OPERATION: &[u8] =
    b"OpenShadingLanguage 1.00\nsurface every\nconst int one 1\nlocal int i\nlocal float f\nlocal color c\nlocal point p\nlocal vector w\nlocal normal n\nlocal matrix m\nlocal string s\ntemp float[3] fs\ntemp closure color e\ncode ___main___\nassign f f\nempty e\ntoint i f\nadd f f f\nsub f f f\nmul f f f\ndiv f f f\nirem i i i\nneg f f\ncompl i i\nbitand i i i\nbitor i i i\nxor i i i\nshl i i i\nshr i i i\nnot i i\neq i f f\nneq i f f\nlt i f f\ngt i f f\nle i f f\nge i f f\naref f fs i\naassign fs i f\narraylength i fs\ncompref f c i\ncompassign c i f\nmxcompref f m i i\nmxcompassign m i i f\ntriple c f f f\nmatrix m f\nabs f f\nsign f f\nfloor f f\nceil f f\nround f f\ntrunc f f\nsqrt f f\ninversesqrt f f\nmin f f f\nmax f f f\nfmod f f f\nmod f f f\nstep f f f\nclamp f f f f\nmix f f f f\nsmoothstep f f f f\ndot f p w\ncross w p w\nlength f w\ndistance f p p\nnormalize n n\ntranspose m m\ntransform p m p\nconcat s s s\nstrlen i s\nstartswith i s s\nendswith i s s\nsubstr s s i i\ngetchar i s i\ncl_emission e\ncl_background e\ncl_holdout e\ncl_transparent e\ncl_diffuse e n\ncl_translucent e n\ncl_oren_nayar e n f\ncl_reflection e n f\ncl_refraction e n f\ncl_debug e s\nif one 78 79\nfor one 72 78 78\nwhile one 73 78\ndowhile one 78 78\nfunctioncall 75\nbreak\ncontinue\nreturn\nexit\nend\n";

#[test]
fn every_operation_is_read(rt: HostRuntime) -> Result<(), Fail> {
    let shader = read(rt.alloc(), EVERY_OPERATION)?;
    let names = shader.raw().ops.as_slice().iter().map(|op| op.name);
    assert!(rt; names.eq(OpName::ALL.iter().copied()));
    Ok(())
}

// Canonical texts: each is written back as it is.
static CANONICAL: [&[u8]; 5] = [
    PLAIN,
    EVERY_OPERATION,
    // A constant of every type.
    b"OpenShadingLanguage 1.00\nshader consts\nconst int a -2147483648\nconst float b -9223372036.854775807\nconst color c 0 0.5 1\nconst point d 1 2 3\nconst vector e -1 0 1\nconst normal f 0 0 -1\nconst matrix g 1 2 3 4 5 6 7 8 9 10 11 12 13 14 15 16\nconst string h \"\\\"\\\\\\n\\t\\r\\001\\377 ~\"\nconst int[2] i 0 2147483647\nconst float[1] j 0.000000001\nconst color[2] k 1 2 3 4 5 6\nconst point[1] l 1 2 3\nconst vector[1] m 4 5 6\nconst normal[1] n 7 8 9\nconst matrix[1] o 1 2 3 4 5 6 7 8 9 10 11 12 13 14 15 16\nconst string[3] p \"\" \"a, b\" \"%x{}\"\ncode ___main___\nend\n",
    b"OpenShadingLanguage 1.00\ndisplacement d %meta{int,i,-1} %meta{float[2],f,0.5,-3} %meta{string,t,\"a,}\\\"\\\\\\n\\t\\r\\001\\377\"} %meta{closure color,c}\nparam string $a.b \"\" %meta{int,lockgeom,0}\noparam int[3] _x 1 -2 2147483647\nparam closure color k\nglobal point P\nglobal closure color Ci\nconst string c1 \"a b\\001\\\"\"\nconst matrix c2 1 2 3 4 5 6 7 8 9 10 11 12 13 14 15 0.000000001\nlocal color x\ntemp closure color y\ncode ___main___\nend\n",
    b"OpenShadingLanguage 1.00\nshader s\nparam float a 0\nparam float b 0\nconst float c 1\nconst int i 1\nlocal int j\ncode a\nassign a c\ncode b\nassign b a\ncode ___main___\nfor i 3 4 5\nassign j i\nadd j j i\nend\n",
];

#[test]
fn canonical_texts_are_written_back(rt: HostRuntime) -> Result<(), Fail> {
    for text in &CANONICAL {
        let shader = read(rt.alloc(), text)?;
        let written = write(rt.alloc(), &shader)?;
        assert_eq!(rt; written.as_slice(), *text);
    }
    Ok(())
}

// Other texts, each with its canonical one.
static OTHER: [(&[u8], &[u8]); 3] = [
    (HINTED, PLAIN),
    (SPACED, PLAIN),
    // A hint in every place.
    (
        b"OpenShadingLanguage 1.00 %a{}\nshader s %b{1} %meta{int,i,1} %b{2}\nparam float p 0 %c{x y}\noparam float o 0 %meta{int,j,2} %c{}\nglobal point P %d{,}\nconst int k 1 %d{}\nlocal float l %d{} %e{}\ntemp float t %d{\"}\"}\ncode p %f{}\nassign p p %g{\"\\\"}\"}\ncode ___main___ %h{}\nif k 2 2 %i{}\nend %j{}\n",
        b"OpenShadingLanguage 1.00\nshader s %meta{int,i,1}\nparam float p 0\noparam float o 0 %meta{int,j,2}\nglobal point P\nconst int k 1\nlocal float l\ntemp float t\ncode p\nassign p p\ncode ___main___\nif k 2 2\nend\n",
    ),
];

#[test]
fn other_texts_are_written_canonically(rt: HostRuntime) -> Result<(), Fail> {
    for &(text, canonical) in &OTHER {
        let shader = read(rt.alloc(), text)?;
        let written = write(rt.alloc(), &shader)?;
        assert_eq!(rt; written.as_slice(), canonical);
    }
    Ok(())
}

static REFUSED: [(&[u8], OsoKind, u32); 106] = [
    // The first two lines.
    (b"", OsoKind::Header, 1),
    (b"\n# no\n", OsoKind::Header, 3),
    (b"OpenShadingLanguage 1.0\n", OsoKind::Header, 1),
    (
        b"\nOpenShadingLanguage 1.00 %meta{int,a,1}\n",
        OsoKind::Header,
        2,
    ),
    (b"OpenShadingLanguage 1.00 1\n", OsoKind::Header, 1),
    (b"OpenShadingLanguage 1.00 %a\n", OsoKind::Header, 1),
    (b"OpenShadingLanguage 1.00\n", OsoKind::Header, 2),
    (b"OpenShadingLanguage 1.00", OsoKind::Header, 2),
    (b"OpenShadingLanguage 1.00\r", OsoKind::Header, 1),
    (b"OpenShadingLanguage 1.00\nlight s\n", OsoKind::Header, 2),
    (b"OpenShadingLanguage 1.00\nshader 1s\n", OsoKind::Header, 2),
    (b"OpenShadingLanguage 1.00\nshader\n", OsoKind::Header, 2),
    (
        b"OpenShadingLanguage 1.00\nshader s %meta{int,a}\n",
        OsoKind::Header,
        2,
    ),
    (
        b"OpenShadingLanguage 1.00\nshader s %meta{ int,a,1}\n",
        OsoKind::Header,
        2,
    ),
    (
        b"OpenShadingLanguage 1.00\nshader s t\n",
        OsoKind::Header,
        2,
    ),
    // Words out of the grammar.
    (
        b"OpenShadingLanguage 1.00\nshader plain\noparam float r 7.0\ncode ___main___\nend\n",
        OsoKind::Line,
        3,
    ),
    (
        b"OpenShadingLanguage 1.00\nshader plain\nop",
        OsoKind::Line,
        3,
    ),
    (
        b"OpenShadingLanguage 1.00\nshader plain\n",
        OsoKind::Line,
        3,
    ),
    (
        b"OpenShadingLanguage 1.00\nshader plain\noparam float r 7\ncode ___main___\n",
        OsoKind::Line,
        5,
    ),
    (
        b"OpenShadingLanguage 1.00\nshader plain\noparam float r 7\ncode ___main___\nend",
        OsoKind::Line,
        6,
    ),
    (
        b"OpenShadingLanguage 1.00\nshader s\nend\n",
        OsoKind::Line,
        3,
    ),
    (
        b"OpenShadingLanguage 1.00\nshader s\nparam float a 0\ncode a\nend\n",
        OsoKind::Line,
        5,
    ),
    (
        b"OpenShadingLanguage 1.00\nshader s\ncode ___main___\nend x\n",
        OsoKind::Line,
        4,
    ),
    (
        b"OpenShadingLanguage 1.00\nshader s\ncode ___main___\nend %meta{int,a,1}\n",
        OsoKind::Line,
        4,
    ),
    (
        b"OpenShadingLanguage 1.00\nshader s\ncode ___main___\nend\nexit\n",
        OsoKind::Line,
        5,
    ),
    (
        b"OpenShadingLanguage 1.00\nshader s\ncode ___main___ x\nend\n",
        OsoKind::Line,
        3,
    ),
    (
        b"OpenShadingLanguage 1.00\nshader s\ncode\nend\n",
        OsoKind::Line,
        3,
    ),
    (
        b"OpenShadingLanguage 1.00\nshader s\nparam float a 07\n",
        OsoKind::Line,
        3,
    ),
    (
        b"OpenShadingLanguage 1.00\nshader s\nparam float a +7\n",
        OsoKind::Line,
        3,
    ),
    (
        b"OpenShadingLanguage 1.00\nshader s\nparam float a .5\n",
        OsoKind::Line,
        3,
    ),
    (
        b"OpenShadingLanguage 1.00\nshader s\nparam float a -0\n",
        OsoKind::Line,
        3,
    ),
    (
        b"OpenShadingLanguage 1.00\nshader s\nparam float a 1e1\n",
        OsoKind::Line,
        3,
    ),
    (
        b"OpenShadingLanguage 1.00\nshader s\nparam float a 9223372036.854775808\n",
        OsoKind::Line,
        3,
    ),
    (
        b"OpenShadingLanguage 1.00\nshader s\nconst int a 2147483648\n",
        OsoKind::Line,
        3,
    ),
    (
        b"OpenShadingLanguage 1.00\nshader s\nparam float a\n",
        OsoKind::Line,
        3,
    ),
    (
        b"OpenShadingLanguage 1.00\nshader s\nparam float a 1 2\n",
        OsoKind::Line,
        3,
    ),
    (
        b"OpenShadingLanguage 1.00\nshader s\nparam float a 1%x{}\n",
        OsoKind::Line,
        3,
    ),
    (
        b"OpenShadingLanguage 1.00\nshader s\nparam float a %x{} 1\n",
        OsoKind::Line,
        3,
    ),
    (
        b"OpenShadingLanguage 1.00\nshader s\nparam float a 1 %x{{}}\n",
        OsoKind::Line,
        3,
    ),
    (
        b"OpenShadingLanguage 1.00\nshader s\nparam float[03] a 1 2 3\n",
        OsoKind::Line,
        3,
    ),
    (
        b"OpenShadingLanguage 1.00\nshader s\nlocal float[0] a\n",
        OsoKind::Line,
        3,
    ),
    (
        b"OpenShadingLanguage 1.00\nshader s\nlocal float[1025] a\n",
        OsoKind::Line,
        3,
    ),
    (
        b"OpenShadingLanguage 1.00\nshader s\nlocal float[2 ] a\n",
        OsoKind::Line,
        3,
    ),
    (
        b"OpenShadingLanguage 1.00\nshader s\nlocal closure a\n",
        OsoKind::Line,
        3,
    ),
    (
        b"OpenShadingLanguage 1.00\nshader s\nlocal closure color[2] a\n",
        OsoKind::Line,
        3,
    ),
    (
        b"OpenShadingLanguage 1.00\nshader s\nlocal float a 1\n",
        OsoKind::Line,
        3,
    ),
    (
        b"OpenShadingLanguage 1.00\nshader s\nlocal float a %meta{int,b,1}\n",
        OsoKind::Line,
        3,
    ),
    (
        b"OpenShadingLanguage 1.00\nshader s\nconst closure color a\n",
        OsoKind::Line,
        3,
    ),
    (
        b"OpenShadingLanguage 1.00\nshader s\nconst string a \"b\n",
        OsoKind::Line,
        3,
    ),
    (
        b"OpenShadingLanguage 1.00\nshader s\nconst string a \"\\101\"\n",
        OsoKind::Line,
        3,
    ),
    (
        b"OpenShadingLanguage 1.00\nshader s\nconst string a \"\\011\"\n",
        OsoKind::Line,
        3,
    ),
    (
        b"OpenShadingLanguage 1.00\nshader s\nconst string a \"\\400\"\n",
        OsoKind::Line,
        3,
    ),
    (
        b"OpenShadingLanguage 1.00\nshader s\nconst string a \"\\x\"\n",
        OsoKind::Line,
        3,
    ),
    (
        b"OpenShadingLanguage 1.00\nshader s\nconst string a \"\xff\"\n",
        OsoKind::Line,
        3,
    ),
    (
        b"OpenShadingLanguage 1.00\nshader s\nconst string a \"\"b\"\"\n",
        OsoKind::Line,
        3,
    ),
    (
        b"OpenShadingLanguage 1.00\nshader s\nlocal float a\r\r\n",
        OsoKind::Line,
        3,
    ),
    (
        b"OpenShadingLanguage 1.00\nshader s\nconst int c 1\ncode ___main___\nif c 6 -6\nend\n",
        OsoKind::Line,
        5,
    ),
    (
        b"OpenShadingLanguage 1.00\nshader s\nconst int c 1\ncode ___main___\nif c 1 4294967296\nend\n",
        OsoKind::Line,
        5,
    ),
    (
        b"OpenShadingLanguage 1.00\nshader s\nconst int c 1\ncode ___main___\nif c 1 c\nend\n",
        OsoKind::Line,
        5,
    ),
    (
        b"OpenShadingLanguage 1.00\nshader s\nconst int c 1\ncode ___main___\nexit %meta{int,a,1}\nend\n",
        OsoKind::Line,
        5,
    ),
    // Metadata where none stands, and escapes that are none.
    (
        b"OpenShadingLanguage 1.00\nshader s\nglobal point P %meta{int,a,1}\n",
        OsoKind::Line,
        3,
    ),
    (
        b"OpenShadingLanguage 1.00\nshader s\nconst int a 1 %meta{int,a,1}\n",
        OsoKind::Line,
        3,
    ),
    (
        b"OpenShadingLanguage 1.00\nshader s\ntemp int a %meta{int,a,1}\n",
        OsoKind::Line,
        3,
    ),
    (
        b"OpenShadingLanguage 1.00\nshader s\ncode ___main___ %meta{int,a,1}\nend\n",
        OsoKind::Line,
        3,
    ),
    (
        b"OpenShadingLanguage 1.00\nshader s\nconst string a \"\\134\"\n",
        OsoKind::Line,
        3,
    ),
    (
        b"OpenShadingLanguage 1.00\nshader s\nconst string a \"\\01\"\n",
        OsoKind::Line,
        3,
    ),
    (
        b"OpenShadingLanguage 1.00\nshader s\nconst string a \"\\\"\n",
        OsoKind::Line,
        3,
    ),
    // Symbols.
    (
        b"OpenShadingLanguage 1.00\nshader s\nlocal float a\ntemp int a\n",
        OsoKind::Symbol,
        4,
    ),
    (
        b"OpenShadingLanguage 1.00\nshader s\nparam float ___main___ 0\n",
        OsoKind::Symbol,
        3,
    ),
    (
        b"OpenShadingLanguage 1.00\nshader s\nlocal float a\nparam float b 0\n",
        OsoKind::Symbol,
        4,
    ),
    (
        b"OpenShadingLanguage 1.00\nshader s\nglobal float P\n",
        OsoKind::Symbol,
        3,
    ),
    (
        b"OpenShadingLanguage 1.00\nshader s\nglobal float time\n",
        OsoKind::Symbol,
        3,
    ),
    (
        b"OpenShadingLanguage 1.00\nshader s\nlocal float a\nlocal float a\nlocal float 1\n",
        OsoKind::Symbol,
        4,
    ),
    // Ops and sections.
    (
        b"OpenShadingLanguage 1.00\nshader s\nlocal float a\ncode ___main___\nnoise a a\nend\n",
        OsoKind::Op,
        5,
    ),
    (
        b"OpenShadingLanguage 1.00\nshader s\nlocal float a\ncode ___main___\nassign a b\nend\n",
        OsoKind::Op,
        5,
    ),
    (
        b"OpenShadingLanguage 1.00\nshader s\nlocal float a\ncode ___main___\nassign a 1\nend\n",
        OsoKind::Op,
        5,
    ),
    (
        b"OpenShadingLanguage 1.00\nshader s\nlocal float a\ncode ___main___\nassign a\nend\n",
        OsoKind::Op,
        5,
    ),
    (
        b"OpenShadingLanguage 1.00\nshader s\nconst float a 1\ncode ___main___\nassign a a\nend\n",
        OsoKind::Op,
        5,
    ),
    (
        b"OpenShadingLanguage 1.00\nshader s\nparam float a 0\nparam float b 0\ncode a\nassign a b\ncode ___main___\nend\n",
        OsoKind::Op,
        6,
    ),
    (
        b"OpenShadingLanguage 1.00\nshader s\nparam float a 0\nparam float b 0\ncode b\ncode a\ncode ___main___\nend\n",
        OsoKind::Op,
        6,
    ),
    (
        b"OpenShadingLanguage 1.00\nshader s\nparam float a 0\ncode ___main___\ncode a\nend\n",
        OsoKind::Op,
        5,
    ),
    (
        b"OpenShadingLanguage 1.00\nshader s\nparam float a 1\ncode a\ncode ___main___\nend\n",
        OsoKind::Op,
        4,
    ),
    (
        b"OpenShadingLanguage 1.00\nshader s\nlocal float a\ncode a\ncode ___main___\nend\n",
        OsoKind::Op,
        4,
    ),
    // The first line at fault, and the first kind of one line.
    (
        b"OpenShadingLanguage 1.00\nshader s\nglobal float P\nlocal float 1\n",
        OsoKind::Symbol,
        3,
    ),
    (
        b"OpenShadingLanguage 1.00\nshader s\nlocal float a 1\nlocal float a\nlocal float a\n",
        OsoKind::Line,
        3,
    ),
    (
        b"OpenShadingLanguage 1.00\nshader s\nlocal float[1024] a\nlocal matrix[1024] b\nlocal matrix[1024] c\nlocal matrix[1024] d\nlocal matrix[1024] e\ncode ___main___\nend\n",
        OsoKind::Limit,
        7,
    ),
    (
        b"OpenShadingLanguage 1.00\nshader s\nlocal matrix[1024] a\nlocal matrix[1024] b\nlocal matrix[1024] c\nlocal matrix[1024] d\nlocal float a\n",
        OsoKind::Symbol,
        7,
    ),
    (
        b"OpenShadingLanguage 1.00\nshader s\nconst int c 1\ncode ___main___\nif c 0 0\nnoise c\nend\n",
        OsoKind::Op,
        6,
    ),
    // Jumps, where there is nothing else.
    (
        b"OpenShadingLanguage 1.00\nshader s\nconst int c 1\ncode ___main___\nif c 1 2\nend\n",
        OsoKind::Jump,
        5,
    ),
    (
        b"OpenShadingLanguage 1.00\nshader s\nconst int c 1\ncode ___main___\nif c 1 0\nexit\nend\n",
        OsoKind::Jump,
        5,
    ),
    (
        b"OpenShadingLanguage 1.00\nshader s\ncode ___main___\nfunctioncall 1\nbreak\nend\n",
        OsoKind::Jump,
        5,
    ),
    // What is wrong first on a line, and edges of words.
    (
        b"OpenShadingLanguage 1.00\nshader s\nlocal float a\nlocal float a 1\n",
        OsoKind::Line,
        4,
    ),
    (
        b"OpenShadingLanguage 1.00\nshader s\nparam float ___main___ 7.0\n",
        OsoKind::Line,
        3,
    ),
    (
        b"OpenShadingLanguage 1.00\nshader s\nparam float a 0\ncode ___main___\nnoise a -1\nend\n",
        OsoKind::Line,
        5,
    ),
    (
        b"OpenShadingLanguage 1.00\nshader s\nlocal float a\nconst string s \"\"\ncode ___main___\nassign a s\nend\n",
        OsoKind::Op,
        6,
    ),
    (
        b"OpenShadingLanguage 1.00\nshader s\nconst int c 1\ncode ___main___\nif c 1\nend\n",
        OsoKind::Op,
        5,
    ),
    (
        b"OpenShadingLanguage 1.00\nshader s\nlocal int a\nconst int c 1\ncode ___main___\nassign a c 3\nend\n",
        OsoKind::Op,
        6,
    ),
    (
        b"OpenShadingLanguage 1.00\nshader s\nconst int c 1\ncode ___main___\nif c 01 2\nend\n",
        OsoKind::Line,
        5,
    ),
    (
        b"OpenShadingLanguage 1.00\nshader s\nconst int c 1\ncode ___main___\nif c 1 4294967296\nend\n",
        OsoKind::Line,
        5,
    ),
    (
        b"OpenShadingLanguage 1.00\nshader s\nconst int c 1\ncode ___main___\nif c 1 4294967295\nend\n",
        OsoKind::Jump,
        5,
    ),
    (
        b"OpenShadingLanguage 1.00\nshader s\nconst string s \"\\176\"\n",
        OsoKind::Line,
        3,
    ),
    (
        b"OpenShadingLanguage 1.00\nshader s\nconst string s \"\x7f\"\n",
        OsoKind::Line,
        3,
    ),
    (
        b"OpenShadingLanguage 1.00\nshader s\nconst int a -0\n",
        OsoKind::Line,
        3,
    ),
    (
        b"OpenShadingLanguage 1.00\nshader s\n%x{}\ncode ___main___\nend\n",
        OsoKind::Line,
        3,
    ),
    (
        b"OpenShadingLanguage 1.00\nshader s\ncode ___main___\nend\r",
        OsoKind::Line,
        4,
    ),
    (
        b"%x{}\nOpenShadingLanguage 1.00\nshader s\n",
        OsoKind::Header,
        1,
    ),
];

/// An output and a constant, and an op in a range.
const CHOICE: &[u8] =
    b"OpenShadingLanguage 1.00\nshader one\noparam float r -0.25\nconst int $1 1\ncode ___main___\nif $1 1 2\nassign r $1\nend\n";

#[test]
fn code_is_written(rt: HostRuntime) -> Result<(), Fail> {
    let alloc = rt.alloc();
    let symbols = vec![in alloc;
        numbered(alloc, Class::Oparam, Base::Float, "r", -250_000_000)?,
        numbered(alloc, Class::Const, Base::Int, "$1", 1)?,
    ]?;
    let ops = ops(
        alloc,
        &[(OpName::If, &[1], &[1, 2]), (OpName::Assign, &[0, 1], &[])],
    )?;
    let raw = code(
        alloc,
        b"one",
        symbols,
        sections(alloc, &[(None, 0, 2)])?,
        ops,
    )?;
    assert!(rt; raw.symbols.len() < 10 && raw.ops.len() < 10);
    match validate(alloc, raw) {
        Ok(shader) => assert_eq!(rt; write(alloc, &shader)?.as_slice(), CHOICE),
        Err(_refused) => assert!(rt; false),
    }
    Ok(())
}

#[test]
fn faults_have_their_kind_and_line(rt: HostRuntime) {
    for (text, kind, line) in &REFUSED {
        let answer = fault_of(rt.alloc(), text);
        assert_eq!(rt;
            answer,
            Some(OsoError::Bad {
                kind: *kind,
                line: *line
            }),
            "{kind:?} {line}"
        );
    }
}

/// A shader of so many calls, one in another, which all end at the op of this number, with lines before and behind them.
fn nested(
    alloc: Global,
    before: &[u8],
    depth: usize,
    end: i32,
    behind: &[u8],
) -> Result<Vec<u8>, Fail> {
    let mut text = Vec::from_slice(
        alloc,
        b"OpenShadingLanguage 1.00\nshader s\ncode ___main___\n",
    )?;
    text.extend_from_slice(before)?;
    for _call in 0..depth {
        text.extend_from_slice(b"functioncall ")?;
        write_int(end, &mut text)?;
        text.push(b'\n')?;
    }
    text.extend_from_slice(behind)?;
    text.extend_from_slice(b"end\n")?;
    Ok(text)
}

#[test]
fn ranges_nest_within_a_limit(rt: HostRuntime) -> Result<(), Fail> {
    let too_deep = OsoError::Bad {
        kind: OsoKind::Limit,
        line: 4612,
    };
    let too_far = OsoError::Bad {
        kind: OsoKind::Jump,
        line: 4,
    };
    let rows: [(&[u8], usize, i32, &[u8], Option<OsoError>); 4] = [
        (b"", 4608, 4608, b"", None),
        (b"", 4609, 4609, b"", Some(too_deep)),
        // Of a jump at fault and a range too deep the first line counts.
        (b"", 4609, 4610, b"break\n", Some(too_deep)),
        (b"functioncall 99999\n", 4609, 4610, b"", Some(too_far)),
    ];
    for (before, depth, end, behind, fault) in rows {
        let text = nested(rt.alloc(), before, depth, end, behind)?;
        assert_eq!(rt;
            fault_of(rt.alloc(), text.as_slice()),
            fault,
            "{depth} {end}"
        );
    }
    Ok(())
}

/// A text with a word of so many letters between these parts.
fn with_letters(
    alloc: Global,
    before: &[u8],
    count: usize,
    behind: &[u8],
) -> Result<Vec<u8>, Fail> {
    let mut text = Vec::from_slice(alloc, b"OpenShadingLanguage 1.00\n")?;
    text.extend_from_slice(before)?;
    for _letter in 0..count {
        text.push(b'x')?;
    }
    text.extend_from_slice(behind)?;
    text.extend_from_slice(b"\ncode ___main___\nend\n")?;
    Ok(text)
}

#[test]
fn strings_and_names_have_their_lengths(rt: HostRuntime) -> Result<(), Fail> {
    let name: (&[u8], &[u8]) = (b"shader s\nlocal int ", b"");
    let shader: (&[u8], &[u8]) = (b"shader ", b"");
    let string: (&[u8], &[u8]) = (b"shader s\nconst string a \"", b"\"");
    let datum: (&[u8], &[u8]) = (b"shader s %meta{string,t,\"", b"\"}");
    let rows = [
        (name, 255, None),
        (name, 256, Some((OsoKind::Line, 3))),
        (shader, 255, None),
        (shader, 256, Some((OsoKind::Header, 2))),
        (string, 512, None),
        (string, 513, Some((OsoKind::Line, 3))),
        (datum, 513, None),
    ];
    for ((before, behind), count, fault) in rows {
        let text = with_letters(rt.alloc(), before, count, behind)?;
        let fault = fault.map(|(kind, line)| OsoError::Bad { kind, line });
        assert_eq!(rt; fault_of(rt.alloc(), text.as_slice()), fault, "{count}");
    }
    Ok(())
}

/// A shader of so many ops.
fn long(alloc: Global, count: usize) -> Result<Vec<u8>, Fail> {
    let mut text = Vec::from_slice(
        alloc,
        b"OpenShadingLanguage 1.00\nshader s\nlocal closure color e\ncode ___main___\n",
    )?;
    for _op in 0..count {
        text.extend_from_slice(b"empty e\n")?;
    }
    text.extend_from_slice(b"end\n")?;
    Ok(text)
}

#[test]
fn ops_are_counted(rt: HostRuntime) -> Result<(), Fail> {
    for (count, fault) in [
        (65_536, None),
        (
            65_537,
            Some(OsoError::Bad {
                kind: OsoKind::Limit,
                line: 65_541,
            }),
        ),
    ] {
        let text = long(rt.alloc(), count)?;
        assert_eq!(rt; fault_of(rt.alloc(), text.as_slice()), fault);
    }
    Ok(())
}
