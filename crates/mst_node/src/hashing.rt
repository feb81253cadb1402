//! Digests of texts.
ghost use Rattle.std.specs.Prelude.{◌≡◌, []};
ghost use Rattle.sha2.specs.Sha256.{sha256};

use sha2::{Digest, Sha256};

/// The digest of a text: the SHA-256 (FIPS 180-4) of its bytes.
pub fn digest(text: &[u8]) -> [u8; 32]
    ensures digest { result ≡ sha256 text.now }
{
    Sha256::digest(text)
}

/// The root digest of the empty map: the SHA-256 (FIPS 180-4) of the empty string. It is a
/// constant, so that an absent child costs no hashing.
pub fn empty_digest() -> [u8; 32]
    ensures digest { result ≡ sha256 [] }
{
    [
        0xe3, 0xb0, 0xc4, 0x42, 0x98, 0xfc, 0x1c, 0x14, 0x9a, 0xfb, 0xf4, 0xc8, 0x99, 0x6f, 0xb9,
        0x24, 0x27, 0xae, 0x41, 0xe4, 0x64, 0x9b, 0x93, 0x4c, 0xa4, 0x95, 0x99, 0x1b, 0x78, 0x52,
        0xb8, 0x55,
    ]
}
