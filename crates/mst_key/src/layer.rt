//! The layer of a key.
ghost use Rattle.std.specs.Prelude.{◌≡◌, ◌≤◌};
ghost use Rattle.mst_key.specs.Layer.{layer, layer_in, byte_digits, digits, zeros_in_front, digits_a_byte, most_layer};
ghost use Rattle.mst_key.specs.declared.format.Format.TheVariants.{One, Two};

use crate::format::Format;
use crate::key::Key;
use sha2::{Digest, Sha256};

impl Key {
    /// The layer of the key: how many hexadecimal digits 0 begin the SHA-256 of its bytes (FIPS
    /// 180-4), 0 to 64. In each byte the high digit comes first (Auvolat and Taïani 2019, with base
    /// 16).
    pub fn layer(&self) -> u8
        ensures layer { result ≡ layer self.now }
        ensures range { result ≤ 64 }
    {
        self.layer_in(Format::One)
    }

    /// The layer of the key in a format: how many digits 0 begin the SHA-256 of its bytes (FIPS
    /// 180-4), in format 1 hexadecimal ones, 0 to 64, in format 2 base-four ones, 0 to 128. In each
    /// byte the high digit comes first.
    pub fn layer_in(&self, format: Format) -> u8
        ensures layer { result ≡ layer_in format self.now }
        ensures range { result ≤ most_layer format }
    {
        layer_of(format, self.bytes())
    }
}

/// The layer in a format of the key that has these bytes. It is inlined, since the reading of a
/// text calls it for each key.
#[inline(always)]
#[tactic(auto, unfolding(crate::specs::Layer::layer_in))]
pub fn layer_of(format: Format, key: &[u8]) -> u8
    ensures layer { result ≡ layer_in format key.now }
    ensures range { result ≤ most_layer format }
{
    let digest = Sha256::digest(key);
    zeros_of_digest(format, &digest)
}

/// How many hexadecimal digits 0 begin a byte.
fn zeros_of_byte(byte: u8) -> u8
    ensures zeros { result ≡ zeros_in_front (byte_digits One byte) }
    ensures range { result ≤ 2 }
{
    match byte {
        0 => 2,
        1..=15 => 1,
        _ => 0,
    }
}

/// How many base-four digits 0 begin a byte.
fn small_zeros_of_byte(byte: u8) -> u8
    ensures zeros { result ≡ zeros_in_front (byte_digits Two byte) }
    ensures range { result ≤ 4 }
{
    match byte {
        0 => 4,
        1..=3 => 3,
        4..=15 => 2,
        16..=63 => 1,
        _ => 0,
    }
}

/// How many digits 0 of a format begin a byte.
fn zeros_in_byte(format: Format, byte: u8) -> u8
    ensures zeros { result ≡ zeros_in_front (byte_digits format byte) }
    ensures range { result ≤ digits_a_byte format }
{
    match format {
        Format::One => zeros_of_byte(byte),
        Format::Two => small_zeros_of_byte(byte),
    }
}

/// How many digits 0 of a format begin a digest, byte after byte.
#[inline(never)]
fn zeros_of_bytes(format: Format, digest: &[u8; 32]) -> u8
    ensures zeros { result ≡ zeros_in_front (digits format digest.now) }
{
    let mut zeros = 0;
    for byte in digest {
        zeros += zeros_in_byte(format, *byte);
        if *byte != 0 {
            return zeros;
        }
    }
    zeros
}

/// How many digits 0 of a format begin a digest. Mostly its first byte decides, so the others are
/// left to a call.
fn zeros_of_digest(format: Format, digest: &[u8; 32]) -> u8
    ensures zeros { result ≡ zeros_in_front (digits format digest.now) }
{
    let first = digest[0];
    if first != 0 {
        zeros_in_byte(format, first)
    } else {
        zeros_of_bytes(format, digest)
    }
}
