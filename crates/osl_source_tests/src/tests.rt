//! Rows of sources.

ghost use Rattle.std.specs.Prelude.{◌≤◌, length};

use crate::LIMIT;
use crate::shape::Shape;
use osl_lex::{LexError, lex};
use osl_parse::{SyntaxError, parse};
use osl_value::Memory;
use std::alloc::Global;
use std::test::Fail;

/// Sources, with their tokens and places or their first fault.
static TOKENS: [(&str, &str); 25] = [
    ("a _b1 float", "Word 0-1 Word 2-5 Word 6-11"),
    (
        "0 007 2147483647 0x1f 0XFFFFFFFF",
        "0 0-1 7 2-5 2147483647 6-16 31 17-21 -1 22-32",
    ),
    (
        "1.5 1. .5 1e3 1.5E-2f 9223372036.854775807",
        "1.5f 0-3 1f 4-6 0.5f 7-9 1000f 10-13 0.015f 14-21 9223372036.854775807f 22-42",
    ),
    ("\"\" \"a\\\"b\"", "Str 0-2 Str 3-9"),
    ("a//b\n/* c */\td", "Word 0-1 Word 13-14"),
    (
        "( ) { } [ ] [[ , ; . ? :",
        "OpenParen 0-1 CloseParen 2-3 OpenBrace 4-5 CloseBrace 6-7 OpenBracket 8-9 CloseBracket 10-11 OpenMeta 12-14 Comma 15-16 Semicolon 17-18 Dot 19-20 Question 21-22 Colon 23-24",
    ),
    (
        "= == != < > <= >= << >>",
        "Assign 0-1 Equal 2-4 NotEqual 5-7 Less 8-9 Greater 10-11 LessEqual 12-14 GreaterEqual 15-17 ShiftLeft 18-20 ShiftRight 21-23",
    ),
    (
        "+ - * / % ++ --",
        "Plus 0-1 Minus 2-3 Star 4-5 Slash 6-7 Percent 8-9 Increment 10-12 Decrement 13-15",
    ),
    (
        "+= -= *= /= <<= >>= &= |= ^=",
        "PlusAssign 0-2 MinusAssign 3-5 StarAssign 6-8 SlashAssign 9-11 ShiftLeftAssign 12-15 ShiftRightAssign 16-19 AndAssign 20-22 OrAssign 23-25 XorAssign 26-28",
    ),
    (
        "& | ^ ~ ! && ||",
        "And 0-1 Or 2-3 Xor 4-5 Tilde 6-7 Bang 8-9 AndAnd 10-12 OrOr 13-15",
    ),
    (
        "a+++b<<=c]]",
        "Word 0-1 Increment 1-3 Plus 3-4 Word 4-5 ShiftLeftAssign 5-8 Word 8-9 CloseBracket 9-10 CloseBracket 10-11",
    ),
    ("0x1e+5 1e+5", "30 0-4 Plus 4-5 5 5-6 100000f 7-11"),
    ("\"abc", "OpenString 0"),
    ("\"a\\\nb\"", "OpenString 0"),
    (" 1.2.3", "BadNumber 1"),
    ("12abc", "BadNumber 0"),
    ("0x", "BadNumber 0"),
    ("1e", "BadNumber 0"),
    ("1f", "BadNumber 0"),
    ("2147483648", "BadNumber 0"),
    ("1e10", "BadNumber 0"),
    ("a /* b", "OpenComment 2"),
    ("  # x", "Directive 2"),
    ("a # b", "BadByte 2"),
    ("a @", "BadByte 2"),
];

/// Statements of a shader, with their shapes.
static STATEMENTS: [(&str, &str); 49] = [
    (
        "a = b || c && d | e ^ f & g == h < i << j + k * l;",
        "(AssignSet a (Or b (And c (BitOr d (BitXor e (BitAnd f (Equal g (Less h (ShiftLeft i (Add j (Multiply k l)))))))))))",
    ),
    (
        "a * b + c << d < e == f & g ^ h | i && j || k;",
        "(Or (And (BitOr (BitXor (BitAnd (Equal (Less (ShiftLeft (Add (Multiply a b) c) d) e) f) g) h) i) j) k)",
    ),
    ("a - b - c;", "(Subtract (Subtract a b) c)"),
    ("a / b * c % d;", "(Remainder (Multiply (Divide a b) c) d)"),
    ("a >> b << c;", "(ShiftLeft (ShiftRight a b) c)"),
    (
        "a < b <= c > d >= e;",
        "(GreaterEqual (Greater (LessEqual (Less a b) c) d) e)",
    ),
    ("a == b != c;", "(NotEqual (Equal a b) c)"),
    ("a or b || c;", "(Or (Or a b) c)"),
    ("a and b && c;", "(And (And a b) c)"),
    (
        "a += b -= c *= d /= e <<= f >>= g &= h |= i ^= j;",
        "(AssignAdd a (AssignSubtract b (AssignMultiply c (AssignDivide d (AssignShiftLeft e (AssignShiftRight f (AssignBitAnd g (AssignBitOr h (AssignBitXor i j)))))))))",
    ),
    ("-a = b;", "(AssignSet (Minus a) b)"),
    ("a = b ? c : d;", "(AssignSet a (Choice b c d))"),
    ("a ? b : c ? d : e;", "(Choice a b (Choice c d e))"),
    ("a || b ? c = d : e;", "(Choice (Or a b) (AssignSet c d) e)"),
    ("-+~!not a;", "(Minus (Plus (Complement (Not (Not a)))))"),
    ("- -a * ++b;", "(Multiply (Minus (Minus a)) (Increment b))"),
    ("--a;", "(Decrement a)"),
    ("-a++;", "(Minus (PostfixIncrement a))"),
    ("(float) a + b;", "(Add (Cast Float a) b)"),
    ("(closure color) (int) a;", "(Cast Closure (Cast Int a))"),
    ("(float)(a);", "(Cast Float (Paren a))"),
    ("(a) + b;", "(Add (Paren a) b)"),
    (
        "a[b][c].x--;",
        "(PostfixDecrement (Field (Index (Index a b) c) x))",
    ),
    ("a[b[c]];", "(Index a (Index b c))"),
    ("f(a).x[b];", "(Index (Field (Call f a) x) b)"),
    ("f();", "(Call f)"),
    ("f(a, b = c);", "(Call f a (AssignSet b c))"),
    ("color(1, a, 2.5);", "(Color 1 a 2.5f)"),
    ("matrix();", "(Matrix)"),
    ("closure color(a);", "(Closure a)"),
    (
        "f(0x1F, 1., .5, 1e2, 2.5e-1f, \"a\\\"\\101\\q\");",
        "(Call f 31 1f 0.5f 100f 0.25f \"a\"Aq\")",
    ),
    (";", "Empty"),
    ("{}", "(Block)"),
    ("{ a; { b; } }", "(Block a (Block b))"),
    ("break; continue;", "Break Continue"),
    ("return; return a;", "(Return _) (Return a)"),
    ("if (a) b;", "(If a b)"),
    ("if (a) if (b) c; else d;", "(If a (If b c d))"),
    ("if (a) { if (b) c; } else d;", "(If a (Block (If b c)) d)"),
    (
        "if (a) while (b) if (c) d; else e;",
        "(If a (While b (If c d e)))",
    ),
    ("if (a) b; else if (c) d; else e;", "(If a b (If c d e))"),
    ("do a; while (b);", "(Do a b)"),
    ("for (;;) break;", "(For _ _ _ Break)"),
    (
        "for (int i = 0, j; i < 3; ++i) { }",
        "(For (Declare Int (Set i 0) j) (Less i 3) (Increment i) (Block))",
    ),
    ("for (i = 0; ; ) a;", "(For (AssignSet i 0) _ _ a)"),
    (
        "float a, b[3] = {1, 2}, c = 1;",
        "(Declare Float a (Set b[3] (List 1 2)) (Set c 1))",
    ),
    ("closure color a = 0;", "(Declare Closure (Set a 0))"),
    ("t a = b, c[2];", "(Declare t (Set a b) c[2])"),
    (
        "int i; color c; point p; vector v; normal n; matrix m; string s;",
        "(Declare Int i) (Declare Color c) (Declare Point p) (Declare Vector v) (Declare Normal n) (Declare Matrix m) (Declare Str s)",
    ),
];

/// What is no list of statements.
static NO_STATEMENTS: [&str; 21] = [
    "a + b = c;",
    "a ? b : c = d;",
    "(a) b;",
    "(float);",
    "f(a,);",
    "a[[b]];",
    "a.1;",
    "a b c;",
    "float 1;",
    "void a;",
    "closure a;",
    "int a[b];",
    "float a = {};",
    "float a = {1,};",
    "float a",
    "else a;",
    "do a while (b);",
    "for (a) b;",
    "if a b;",
    "{ a; ",
    "a; }",
];

/// Whole sources, with their shapes or the reason why they have none.
static SOURCES: [(&str, &str); 19] = [
    ("surface s() {}", "(Surface s (Block))"),
    ("displacement s() {}", "(Displacement s (Block))"),
    ("volume s() {}", "(Volume s (Block))"),
    (
        "surface s [[ string help = \"x\", int n[2] = {1, 2}, ]] (float a = 1 [[ int lockgeom = 0 ]], output color c = {a}, ) {}",
        "(Surface s (Datum Str help \"x\") (Datum Int n[2] (List 1 2)) (Input Float a 1 (Datum Int lockgeom 0)) (Output Color c (List a)) (Block))",
    ),
    (
        "struct t { float a, b[3]; color c; }; struct u {}; shader s(t x = a) {}",
        "(Structure t (Fields Float a b[3]) (Fields Color c)) (Structure u) (Shader s (Input t x a) (Block))",
    ),
    (
        "void f() {} t g(int i, output color c[2]) { return i; } shader s() {}",
        "(Function Void f (Block)) (Function t g (Input Int i) (Output Color c[2]) (Block (Return i))) (Shader s (Block))",
    ),
    (
        "shader checker(float scale = 4, color c1 = 1, color c2 = 0,\n               output color Cout = 0)\n{\n    int a = (int) floor(u * scale);\n    int b = (int) floor(v * scale);\n    Cout = (a + b) % 2 ? c2 : c1;\n}\n",
        "(Shader checker (Input Float scale 4) (Input Color c1 1) (Input Color c2 0) (Output Color Cout 0) (Block (Declare Int (Set a (Cast Int (Call floor (Multiply u scale))))) (Declare Int (Set b (Cast Int (Call floor (Multiply v scale))))) (AssignSet Cout (Choice (Remainder (Paren (Add a b)) 2) c2 c1))))",
    ),
    (
        "surface gloss(color Cs = 0.8,\n              float Ks = 0.1 [[int lockgeom = 0, float min = 0]])\n{\n    normal Nf = normalize(N);\n    Ci = (1 - Ks) * Cs * diffuse(Nf) + Ks * reflection(Nf, 1.5);\n}\n",
        "(Surface gloss (Input Color Cs 0.8f) (Input Float Ks 0.1f (Datum Int lockgeom 0) (Datum Float min 0)) (Block (Declare Normal (Set Nf (Call normalize N))) (AssignSet Ci (Add (Multiply (Multiply (Paren (Subtract 1 Ks)) Cs) (Call diffuse Nf)) (Multiply Ks (Call reflection Nf 1.5f))))))",
    ),
    ("", "syntax"),
    ("struct t {};", "syntax"),
    ("shader s() {} shader t() {}", "syntax"),
    ("shader s() {};", "syntax"),
    ("shader s(", "syntax"),
    ("shader s(float a) {}", "syntax"),
    ("shader s [[ ]] () {}", "syntax"),
    ("float f(int i,) {} shader s() {}", "syntax"),
    ("shader if() {}", "syntax"),
    ("shader s() { @ }", "BadByte 13"),
    ("#include \"stdosl.h\"\nshader s() {}", "Directive 0"),
];

/// The tokens of a source, or its first fault.
fn tokens_of(alloc: Global, source: &str) -> Result<Shape, Memory>
    requires { length source.now ≤ LIMIT }
{
    let mut shape = Shape::new(alloc);
    match lex(alloc, source.as_bytes()) {
        Ok(tokens) => {
            for token in tokens.as_slice() {
                shape.token(token)?;
            }
        }
        Err(LexError::Bad { kind, at }) => shape.fault(kind, at)?,
        Err(LexError::Memory) => return Err(Memory),
    }
    Ok(shape)
}

/// The shape of a source, or the reason why it has none.
fn shape_of(alloc: Global, source: &str) -> Result<Shape, Memory>
    requires { length source.now ≤ LIMIT }
{
    let mut shape = Shape::new(alloc);
    let tokens = match lex(alloc, source.as_bytes()) {
        Ok(tokens) => tokens,
        Err(LexError::Bad { kind, at }) => {
            shape.fault(kind, at)?;
            return Ok(shape);
        }
        Err(LexError::Memory) => return Err(Memory),
    };
    match parse(alloc, source.as_bytes(), tokens.as_slice()) {
        Ok(tree) => shape.tree(&tree)?,
        Err(SyntaxError::NoTree) => shape.word(b"syntax")?,
        Err(SyntaxError::Memory) => return Err(Memory),
    }
    Ok(shape)
}

#[test]
fn sources_have_their_tokens(rt: HostRuntime) -> Result<(), Fail> {
    for (source, tokens) in &TOKENS {
        assert!(rt; source.len() <= LIMIT);
        let shape = tokens_of(rt.alloc(), source)?;
        assert_eq!(rt; shape.as_str(), *tokens, "{source}");
    }
    Ok(())
}

#[test]
fn statements_have_their_shapes(rt: HostRuntime) -> Result<(), Fail> {
    let alloc = rt.alloc();
    for (text, shape) in &STATEMENTS {
        let source = format!(in alloc; "shader s() {{ {text} }}")?;
        assert!(rt; source.len() <= LIMIT);
        let found = shape_of(alloc, source.as_str())?;
        let wanted = format!(in alloc; "(Shader s (Block {shape}))")?;
        assert_eq!(rt; found.as_str(), wanted.as_str(), "{text}");
    }
    for text in &NO_STATEMENTS {
        let source = format!(in alloc; "shader s() {{ {text} }}")?;
        assert!(rt; source.len() <= LIMIT);
        let found = shape_of(alloc, source.as_str())?;
        assert_eq!(rt; found.as_str(), "syntax", "{text}");
    }
    Ok(())
}

#[test]
fn sources_have_their_shapes(rt: HostRuntime) -> Result<(), Fail> {
    for (source, shape) in &SOURCES {
        assert!(rt; source.len() <= LIMIT);
        let found = shape_of(rt.alloc(), source)?;
        assert_eq!(rt; found.as_str(), *shape, "{source}");
    }
    Ok(())
}

/// A default in so many pairs of parentheses.
fn nested(alloc: Global, pairs: usize) -> Result<String, Memory> {
    let mut source = String::from_str(alloc, "shader s(float a = ")?;
    for _pair in 0..pairs {
        source.push_str("(")?;
    }
    source.push_str("1")?;
    for _pair in 0..pairs {
        source.push_str(")")?;
    }
    source.push_str(") {}")?;
    Ok(source)
}

/// The number is 1 high, each pair of parentheses one more, the parameter one more, and the shader one more.
#[test]
fn a_tree_is_no_higher_than_256(rt: HostRuntime) -> Result<(), Fail> {
    let alloc = rt.alloc();
    for (pairs, is_tree) in [(253, true), (254, false)] {
        let source = nested(alloc, pairs)?;
        assert!(rt; source.len() <= LIMIT);
        let found = shape_of(alloc, source.as_str())?;
        assert_eq!(rt; found.as_str() != "syntax", is_tree, "{pairs}");
    }
    Ok(())
}
