ghost use Rattle.std.specs.Prelude.{◌≡◌};
ghost use Rattle.osl_demo.specs.Fold.{fold_from, with_byte};

/// What one byte is multiplied by for each byte after it.
const FACTOR: u64 = 257;

/// Goes on with the number of a text, which starts at 0: for each byte `h * 257 + byte`, modulo 2^64.
pub fn fold(h: u64, bytes: &[u8]) -> u64
    ensures { result ≡ fold_from h bytes.now }
{
    bytes.iter().fold(h, |folded, byte| with(folded, *byte))
}

fn with(h: u64, byte: u8) -> u64
    ensures { result ≡ with_byte h byte }
{
    h.wrapping_mul(FACTOR).wrapping_add(u64::from(byte))
}
