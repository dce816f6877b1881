//! Words of strings, types, numbers and values, read and written.

use osl_value::{Base, Ty};
use osl_valuetext::{
    Spelling, Unread, read_number, read_string, read_text, read_type, read_value, split_words,
    write_string, write_type, write_value,
};
use std::alloc::Global;
use std::test::Fail;

static STRINGS: [(&[u8], &[u8]); 7] = [
    (b"\"\"", b""),
    (b"\"a b;#{\"", b"a b;#{"),
    (b"\"\\\"\\\\\"", b"\"\\"),
    (b"\"\\n\\t\\r\"", b"\n\t\r"),
    (b"\"\\000\\037\\177\\377\"", b"\x00\x1f\x7f\xff"),
    (b"\"\\0017\"", b"\x017"),
    (b"\"~ \"", b"~ "),
];

#[test]
fn strings_are_read_and_written(rt: HostRuntime) -> Result<(), Fail> {
    for (word, bytes) in &STRINGS {
        let read = read_string(rt.alloc(), word)?;
        assert_eq!(rt; read.as_slice(), *bytes);
        let mut out = Vec::new(rt.alloc());
        write_string(bytes, &mut out)?;
        assert_eq!(rt; out.as_slice(), *word);
    }
    Ok(())
}

/// An octal escape of a byte that needs none, other escapes, raw bytes, and quotes that are missing or in the middle.
static NO_STRINGS: [&[u8]; 16] = [
    b"",
    b"\"",
    b"a",
    b"\"a",
    b"a\"",
    b"\"a\"b\"",
    b"\"\\101\"",
    b"\"\\012\"",
    b"\"\\042\"",
    b"\"\\400\"",
    b"\"\\08\"",
    b"\"\\08a\"",
    b"\"\\a\"",
    b"\"\\\"",
    b"\"\x80\"",
    b"\"\x09\"",
];

#[test]
fn other_words_are_no_strings(rt: HostRuntime) {
    for word in &NO_STRINGS {
        assert!(rt; matches!(read_string(rt.alloc(), word), Err(Unread::Misspelled)));
    }
}

/// A word of as many `a` in quotes.
fn long_word(alloc: Global, count: u32) -> Result<Vec<u8>, Fail> {
    let mut word = Vec::new(alloc);
    word.push(b'"')?;
    for _at in 0..count {
        word.push(b'a')?;
    }
    word.push(b'"')?;
    Ok(word)
}

#[test]
fn a_text_has_at_most_512_bytes(rt: HostRuntime) -> Result<(), Fail> {
    let longest = long_word(rt.alloc(), 512)?;
    assert!(rt; read_text(rt.alloc(), longest.as_slice()).is_ok());
    let longer = long_word(rt.alloc(), 513)?;
    assert!(rt;
        matches!(
            read_text(rt.alloc(), longer.as_slice()),
            Err(Unread::Misspelled)
        )
    );
    assert!(rt; read_string(rt.alloc(), longer.as_slice()).is_ok());
    Ok(())
}

static TYPES: [(&[u8], Base, u32); 6] = [
    (b"int", Base::Int, 0),
    (b"float[3]", Base::Float, 3),
    (b"string[1]", Base::Str, 1),
    (b"matrix[1024]", Base::Matrix, 1024),
    (b"color", Base::Color, 0),
    (b"normal[10]", Base::Normal, 10),
];

#[test]
fn types_are_read_and_written(rt: HostRuntime) -> Result<(), Fail> {
    for (word, base, len) in &TYPES {
        let ty = Ty {
            base: *base,
            len: *len,
        };
        assert!(rt; read_type(word) == Some(ty));
        let mut out = Vec::new(rt.alloc());
        write_type(ty, &mut out)?;
        assert_eq!(rt; out.as_slice(), *word);
    }
    Ok(())
}

static NO_TYPES: [&[u8]; 15] = [
    b"",
    b"Float",
    b"floats",
    b"float[]",
    b"float[0]",
    b"float[03]",
    b"float[1025]",
    b"float[4294967299]",
    b"float[+3]",
    b"float [3]",
    b"float[3",
    b"float[3]]",
    b"closure",
    b"closure color",
    b"closure color[2]",
];

#[test]
fn other_words_are_no_types(rt: HostRuntime) {
    for word in &NO_TYPES {
        assert!(rt; read_type(word).is_none());
    }
}

/// A word with the number that it is by its canonical spelling, and by any spelling.
static NUMBERS: [(Base, &[u8], Option<i64>, Option<i64>); 12] = [
    (Base::Int, b"-7", Some(-7), Some(-7)),
    (Base::Int, b"007", None, Some(7)),
    (Base::Int, b"-0", None, Some(0)),
    (Base::Int, b"7.0", None, None),
    (Base::Int, b"2147483648", None, None),
    (Base::Float, b"7", Some(7_000_000_000), Some(7_000_000_000)),
    (Base::Float, b"7.0", None, Some(7_000_000_000)),
    (Base::Float, b".5", None, Some(500_000_000)),
    (Base::Color, b"25e-2", None, Some(250_000_000)),
    (Base::Point, b"0.12345678949", None, Some(123_456_789)),
    (
        Base::Matrix,
        b"-0.25",
        Some(-250_000_000),
        Some(-250_000_000),
    ),
    (Base::Normal, b"+1", None, None),
];

#[test]
fn numbers_are_read_by_their_spelling(rt: HostRuntime) {
    for (base, word, canonical, free) in &NUMBERS {
        assert_eq!(rt; read_number(Spelling::Canonical, *base, word), *canonical);
        assert_eq!(rt; read_number(Spelling::Free, *base, word), *free);
    }
}

/// A type and words, as on a line, and the line of its value, if it is one.
static VALUES: [(&[u8], &[u8], Option<&[u8]>); 12] = [
    (b"int", b"07", Some(b" 7")),
    (b"int", b"", None),
    (b"int", b"1 2", None),
    (b"color", b"1 .5 0.250", Some(b" 1 0.5 0.25")),
    (b"color", b"1 .5", None),
    (b"color", b"1 .5 0 0", None),
    (b"float[2]", b"1\t 2e1", Some(b" 1 20")),
    (b"float[2]", b"1", None),
    (b"string", b"\"a b\"", Some(b" \"a b\"")),
    (
        b"string[2]",
        b"\"\" \"\\\" \\000\"",
        Some(b" \"\" \"\\\" \\000\""),
    ),
    (b"string", b"\"a\" \"b\"", None),
    (b"string", b"7", None),
];

/// The line of the value that words are.
fn line_of(alloc: Global, ty: &[u8], line: &[u8]) -> Result<Option<Vec<u8>>, Fail> {
    let Some(ty) = read_type(ty) else {
        return Ok(None);
    };
    let mut words = Vec::new(alloc);
    split_words(line, &mut words)?;
    let read = read_value(alloc, Spelling::Free, ty, words.as_slice());
    if matches!(read, Err(Unread::Misspelled)) {
        return Ok(None);
    }
    let mut out = Vec::new(alloc);
    write_value(&read?, &mut out)?;
    Ok(Some(out))
}

#[test]
fn values_are_as_many_words_as_their_type_wants(rt: HostRuntime) -> Result<(), Fail> {
    for (ty, line, wanted) in &VALUES {
        let read = line_of(rt.alloc(), ty, line)?;
        assert!(rt; read.as_ref().map(|out| out.as_slice()) == *wanted);
    }
    Ok(())
}
