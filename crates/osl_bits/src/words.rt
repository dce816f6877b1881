//! Bits in one word, and the same operation on every word of a row: eight words at a time, then the rest one by one.

ghost use Rattle.std.specs.Prelude.{◌≡◌, ◌≢◌, ◌↔◌, ℕ, ◌+◌, ◌<◌, ◌≤◌, ◌==◌, ◌&&◌, ◌||◌, not, IsTrue, length, bit_or};
ghost use Rattle.std.specs.Int.{bit_at};
ghost use Rattle.osl_bits.specs.Bits.{bit_of};
ghost use Rattle.osl_bits.specs.Words.{Combined, SameWords, word_minus};

use std::simd::prelude::*;

/// How many words a vector has.
const LANES: usize = 8;

/// Whether the word has its bit `k`, the lowest being bit 0.
pub fn has_bit(word: u64, k: u32) -> bool
    requires { k < 64 }
    ensures { result ≡ (bit_at word k == 1) }
{
    word >> k & 1 == 1
}

/// The word with its bit `k` set to `on`.
pub fn with_bit(word: u64, k: u32, on: bool) -> u64
    requires { k < 64 }
    ensures same { (bit_at result k == 1) ≡ on }
    ensures others { (j : ℕ) → j < 64 → j ≢ k → bit_at result j ≡ bit_at word j }
{
    if on { word | 1 << k } else { word & !(1 << k) }
}

// ---- union

/// Adds to each word the bits of the word across from it.
pub fn union_words(words: &mut [u64], others: &[u64])
    requires { length words.old ≡ length others.now }
    ensures { (i : ℕ) → bit_of words.new i ≡ (bit_of words.old i || bit_of others.now i) }
{
    let done = union_vectors(words, others);
    union_rest(words, others, done);
}

/// The same for the whole vectors at the front; answers how many words those are.
fn union_vectors(words: &mut [u64], others: &[u64]) -> usize
    requires { length words.old ≡ length others.now }
    ensures within { result ≤ length words.new }
    ensures words { Combined bit_or words.old others.now words.new 0 result }
{
    let mut at = 0;
    while words.len() - at >= LANES {
        union_lanes(words, others, at);
        at += LANES;
    }
    at
}

/// The same for the eight words from `at` on.
fn union_lanes(words: &mut [u64], others: &[u64], at: usize)
    requires mine { at + 8 ≤ length words.old }
    requires across { at + 8 ≤ length others.now }
    ensures { Combined bit_or words.old others.now words.new at (at + 8) }
{
    let lanes = u64x8::from_slice(&words[at..]) | u64x8::from_slice(&others[at..]);
    lanes.copy_to_slice(&mut words[at..]);
}

/// The same for the words from `from` on, one by one.
fn union_rest(words: &mut [u64], others: &[u64], from: usize)
    requires len { length words.old ≡ length others.now }
    requires within { from ≤ length words.old }
    ensures { Combined bit_or words.old others.now words.new from (length words.new) }
{
    for k in from..words.len() {
        words[k] |= others[k];
    }
}

// ---- difference

/// Takes from each word the bits of the word across from it.
pub fn minus_words(words: &mut [u64], others: &[u64])
    requires { length words.old ≡ length others.now }
    ensures { (i : ℕ) → bit_of words.new i ≡ (bit_of words.old i && not (bit_of others.now i)) }
{
    let done = minus_vectors(words, others);
    minus_rest(words, others, done);
}

/// The same for the whole vectors at the front; answers how many words those are.
fn minus_vectors(words: &mut [u64], others: &[u64]) -> usize
    requires { length words.old ≡ length others.now }
    ensures within { result ≤ length words.new }
    ensures words { Combined word_minus words.old others.now words.new 0 result }
{
    let mut at = 0;
    while words.len() - at >= LANES {
        minus_lanes(words, others, at);
        at += LANES;
    }
    at
}

/// The same for the eight words from `at` on.
fn minus_lanes(words: &mut [u64], others: &[u64], at: usize)
    requires mine { at + 8 ≤ length words.old }
    requires across { at + 8 ≤ length others.now }
    ensures { Combined word_minus words.old others.now words.new at (at + 8) }
{
    let lanes = u64x8::from_slice(&words[at..]) & !u64x8::from_slice(&others[at..]);
    lanes.copy_to_slice(&mut words[at..]);
}

/// The same for the words from `from` on, one by one.
fn minus_rest(words: &mut [u64], others: &[u64], from: usize)
    requires len { length words.old ≡ length others.now }
    requires within { from ≤ length words.old }
    ensures { Combined word_minus words.old others.now words.new from (length words.new) }
{
    for k in from..words.len() {
        words[k] &= !others[k];
    }
}

// ---- equality

/// Whether as many words have the same bits.
pub fn equal_words(words: &[u64], others: &[u64]) -> bool
    requires { length words.now ≡ length others.now }
    ensures { IsTrue result ↔ ((i : ℕ) → bit_of words.now i ≡ bit_of others.now i) }
{
    let same = same_vectors(words, others);
    equal_rest(words, others, same)
}

/// How many words are in the vectors at the front that are those across.
fn same_vectors(words: &[u64], others: &[u64]) -> usize
    requires { length words.now ≡ length others.now }
    ensures within { result ≤ length words.now }
    ensures same { SameWords words.now others.now 0 result }
{
    let mut at = 0;
    while words.len() - at >= LANES {
        if !equal_lanes(words, others, at) {
            break;
        }
        at += LANES;
    }
    at
}

/// Whether the eight words from `at` on are those across.
fn equal_lanes(words: &[u64], others: &[u64], at: usize) -> bool
    requires mine { at + 8 ≤ length words.now }
    requires across { at + 8 ≤ length others.now }
    ensures { IsTrue result ↔ SameWords words.now others.now at (at + 8) }
{
    let lanes = u64x8::from_slice(&words[at..]);
    lanes.simd_eq(u64x8::from_slice(&others[at..])).all()
}

/// Whether the words from `from` on are those across, one by one.
fn equal_rest(words: &[u64], others: &[u64], from: usize) -> bool
    requires len { length words.now ≡ length others.now }
    requires within { from ≤ length words.now }
    ensures { IsTrue result ↔ SameWords words.now others.now from (length words.now) }
{
    for k in from..words.len() {
        if words[k] != others[k] {
            return false;
        }
    }
    true
}
