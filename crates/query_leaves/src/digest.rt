//! A number for a text, by which texts that differ are mostly told apart.

ghost use Rattle.std.specs.Prelude.{◌≡◌};
ghost use Rattle.query_leaves.specs.Digests.{digest};

/// What the sum of the bytes so far is multiplied by.
const SPREAD: u32 = 2654435769;

/// The digest of a text with these bytes.
#[inline(always)]
fn digest_of(bytes: &[u8]) -> u32
    ensures { result ≡ digest bytes.now }
{
    let mut sum: u32 = 0;
    for byte in bytes {
        sum = sum.wrapping_add(u32::from(*byte)).wrapping_mul(SPREAD);
    }
    sum
}

/// A number for the text. Few texts share one.
#[inline(always)]
pub fn digest(text: &str) -> u32
    ensures { result ≡ digest text.now }
{
    digest_of(text.as_bytes())
}
