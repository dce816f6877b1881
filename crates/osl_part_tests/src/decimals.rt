//! Decimal texts, read and written.

use osl_decimal::{read_canonical_fx, read_canonical_int, read_fx, read_int, write_fx, write_int};
use osl_value::Fx;
use std::test::Fail;

#[test]
fn floats_are_read(rt: HostRuntime) {
    for (text, units) in [
        (b"0.12345678949999999999".as_slice(), Some(123_456_789)),
        (b"0.1234567895".as_slice(), Some(123_456_790)),
        (b"1e-9".as_slice(), Some(1)),
        (b"5e-10".as_slice(), Some(1)),
        (b"-5e-10".as_slice(), Some(-1)),
        (b"0.49999999999e-9".as_slice(), Some(0)),
        (b"9e-11".as_slice(), Some(0)),
        (b"1e10".as_slice(), None),
        (b"9223372036.854775807".as_slice(), Some(i64::MAX)),
        (b"9223372036.8547758074999".as_slice(), Some(i64::MAX)),
        (b"9223372036.8547758075".as_slice(), None),
        (b"9223372036.854775808".as_slice(), None),
        (b"-9223372036.854775807".as_slice(), Some(-i64::MAX)),
        (b"-9223372036.854775808".as_slice(), None),
        (b"1.".as_slice(), Some(1_000_000_000)),
        (b".5".as_slice(), Some(500_000_000)),
        (b"-0".as_slice(), Some(0)),
        (b"000.2500".as_slice(), Some(250_000_000)),
        (b"0.00025e+3".as_slice(), Some(250_000_000)),
        (b"25E-2".as_slice(), Some(250_000_000)),
        (b"1e-400000000".as_slice(), Some(0)),
        (b"1e400000000".as_slice(), None),
        (b"0e400000000".as_slice(), Some(0)),
        (b"1e-99999999999999999999999999".as_slice(), Some(0)),
        (b"0e99999999999999999999999999".as_slice(), Some(0)),
        (b"1e99999999999999999999999999".as_slice(), None),
    ] {
        assert_eq!(rt; read_fx(text).map(|x| x.units()), units);
    }
}

#[test]
fn other_texts_are_no_floats(rt: HostRuntime) {
    for text in [
        b"".as_slice(),
        b".".as_slice(),
        b"-".as_slice(),
        b"-.e1".as_slice(),
        b"+1".as_slice(),
        b"--1".as_slice(),
        b"1e".as_slice(),
        b"1e+".as_slice(),
        b"1e5.0".as_slice(),
        b"1e1e1".as_slice(),
        b"e5".as_slice(),
        b"1.2.3".as_slice(),
        b"1.5f".as_slice(),
        b" 1".as_slice(),
    ] {
        assert_eq!(rt; read_fx(text), None);
    }
}

#[test]
fn a_million_digits_are_read(rt: HostRuntime) -> Result<(), Fail> {
    let mut text = Vec::new(rt.alloc());
    for _digit in 0..1_000_000u32 {
        text.push(b'9')?;
    }
    assert_eq!(rt; read_fx(text.as_slice()), None);
    text.extend_from_slice(b"e-999999")?;
    assert_eq!(rt;
        read_fx(text.as_slice()).map(|x| x.units()),
        Some(10_000_000_000)
    );
    Ok(())
}

#[test]
fn ints_are_read(rt: HostRuntime) {
    for (text, number) in [
        (b"007".as_slice(), Some(7)),
        (b"-7".as_slice(), Some(-7)),
        (b"-0".as_slice(), Some(0)),
        (b"2147483647".as_slice(), Some(i32::MAX)),
        (b"2147483648".as_slice(), None),
        (b"-2147483648".as_slice(), Some(i32::MIN)),
        (b"-2147483649".as_slice(), None),
        (b"99999999999999999999999999".as_slice(), None),
        (b"".as_slice(), None),
        (b"-".as_slice(), None),
        (b"+1".as_slice(), None),
        (b"1.0".as_slice(), None),
        (b"0x10".as_slice(), None),
    ] {
        assert_eq!(rt; read_int(text), number);
    }
}

#[test]
fn floats_are_written(rt: HostRuntime) -> Result<(), Fail> {
    for (units, text) in [
        (-250_000_000, b"-0.25".as_slice()),
        (0, b"0".as_slice()),
        (1, b"0.000000001".as_slice()),
        (100, b"0.0000001".as_slice()),
        (1_000_000_000, b"1".as_slice()),
        (10_500_000_000, b"10.5".as_slice()),
        (i64::MAX, b"9223372036.854775807".as_slice()),
        (-i64::MAX, b"-9223372036.854775807".as_slice()),
    ] {
        let mut out = Vec::new(rt.alloc());
        write_fx(Fx::from_units(units), &mut out)?;
        assert_eq!(rt; out.as_slice(), text);
        assert_eq!(rt; read_canonical_fx(text).map(|x| x.units()), Some(units));
    }
    Ok(())
}

#[test]
fn ints_are_written(rt: HostRuntime) -> Result<(), Fail> {
    for (number, text) in [
        (-7, b"-7".as_slice()),
        (0, b"0".as_slice()),
        (i32::MAX, b"2147483647".as_slice()),
        (i32::MIN, b"-2147483648".as_slice()),
    ] {
        let mut out = Vec::new(rt.alloc());
        write_int(number, &mut out)?;
        assert_eq!(rt; out.as_slice(), text);
        assert_eq!(rt; read_canonical_int(text), Some(number));
    }
    Ok(())
}

#[test]
fn other_spellings_are_not_canonical(rt: HostRuntime) {
    for text in [
        b"00.25".as_slice(),
        b"0.250".as_slice(),
        b".25".as_slice(),
        b"1.".as_slice(),
        b"1.0".as_slice(),
        b"1e1".as_slice(),
        b"0.1234567891".as_slice(),
        b"07".as_slice(),
        b"-0".as_slice(),
        b"+7".as_slice(),
    ] {
        assert_eq!(rt; read_canonical_fx(text), None);
        assert_eq!(rt; read_canonical_int(text), None);
    }
}
