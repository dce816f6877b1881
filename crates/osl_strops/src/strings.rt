ghost use Rattle.std.specs.Prelude.{◌≡◌, ◌≤◌, ◌+◌, ◌++◌, IfOk, length, take, drop, vec_len};
ghost use Rattle.osl_value.specs.Numbers.{truth, count_of};
ghost use Rattle.osl_value.specs.Strings.{concat, substr, begin_of, strlen, startswith, endswith, getchar};
ghost use Rattle.osl_value.specs.Types.{longest_text};

use osl_value::{Memory, Text};
use std::alloc::Global;

/// The most bytes of a string.
const LONGEST: usize = 512;

/// The two strings joined, cut to the first 512 bytes.
///
/// # Errors
/// `Memory` where the bytes cannot be had.
pub fn concat(alloc: Global, a: &Text, b: &Text) -> Result<Text, Memory>
    ensures { IfOk result (λ text. text ≡ concat a.now b.now) }
{
    let first = a.bytes();
    let second = b.bytes();
    let rest = first_bytes(second, LONGEST - first.len());
    let bytes = joined(alloc, first, rest)?;
    Ok(text_of(bytes))
}

/// At most `len` bytes from `start` on, and none for a `len` below 0. A start below 0 counts from
/// the string's end, and then it is moved into the string.
///
/// # Errors
/// `Memory` where the bytes cannot be had.
pub fn substr(alloc: Global, s: &Text, start: i32, len: i32) -> Result<Text, Memory>
    ensures { IfOk result (λ text. text ≡ substr s.now start len) }
{
    let bytes = s.bytes();
    let rest = bytes_from(bytes, begin_of(bytes, start));
    let part = Vec::from_slice(alloc, first_bytes(rest, count_of(len)))?;
    Ok(text_of(part))
}

/// The number of bytes.
pub fn strlen(s: &Text) -> i32
    ensures { result ≡ strlen s.now }
{
    s.bytes().len() as i32
}

/// 1 where the first string begins with the second, else 0.
pub fn startswith(s: &Text, t: &Text) -> i32
    ensures { result ≡ startswith s.now t.now }
{
    truth(s.bytes().starts_with(t.bytes()))
}

/// 1 where the first string ends with the second, else 0.
pub fn endswith(s: &Text, t: &Text) -> i32
    ensures { result ≡ endswith s.now t.now }
{
    truth(s.bytes().ends_with(t.bytes()))
}

/// The byte at place `i`, and 0 where the string has no such place.
pub fn getchar(s: &Text, i: i32) -> i32
    ensures { result ≡ getchar s.now i }
{
    let bytes = s.bytes();
    if i < 0 || i as usize >= bytes.len() {
        return 0;
    }
    bytes[i as usize] as i32
}

/// The bytes of two slices, one after the other.
fn joined(alloc: Global, a: &[u8], b: &[u8]) -> Result<Vec<u8>, Memory>
    requires { length a.now + length b.now ≤ longest_text }
    ensures bytes { IfOk result (λ bytes. bytes.items ≡ a.now ++ b.now) }
    ensures count { IfOk result (λ bytes. vec_len bytes ≡ length a.now + length b.now) }
{
    let mut bytes = Vec::with_capacity(alloc, a.len() + b.len())?;
    bytes.extend_from_slice(a)?;
    bytes.extend_from_slice(b)?;
    Ok(bytes)
}

/// The first so many bytes, or all where there are fewer.
fn first_bytes(bytes: &[u8], count: usize) -> &[u8]
    ensures value { result.now ≡ take count bytes.now }
    ensures no_more { length result.now ≤ length bytes.now }
    ensures within { length result.now ≤ count }
{
    &bytes[..count.min(bytes.len())]
}

/// The bytes from a place on.
fn bytes_from(bytes: &[u8], place: usize) -> &[u8]
    requires { place ≤ length bytes.now }
    ensures value { result.now ≡ drop place bytes.now }
    ensures no_more { length result.now ≤ length bytes.now }
{
    &bytes[place..]
}

/// A count of bytes, none where it is below 0.
fn count_of(count: i32) -> usize
    ensures { result ≡ count_of count }
{
    count.max(0) as usize
}

/// Where the part of a string that is asked for by `start` begins.
fn begin_of(bytes: &[u8], start: i32) -> usize
    requires { length bytes.now ≤ longest_text }
    ensures place { result ≡ begin_of bytes.now start }
    ensures within { result ≤ length bytes.now }
{
    let from = if start < 0 {
        start as i64 + bytes.len() as i64
    } else {
        start as i64
    };
    (from.max(0) as usize).min(bytes.len())
}

/// The string of so many bytes as a string may have.
fn text_of(bytes: Vec<u8>) -> Text
    requires { vec_len bytes ≤ longest_text }
    ensures { result ≡ bytes.items }
{
    Text::new(bytes).unwrap()
}

/// 1 where a test holds, else 0.
fn truth(holds: bool) -> i32
    ensures { result ≡ truth holds }
{
    if holds { 1 } else { 0 }
}
