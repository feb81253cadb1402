//! The words that name a root digest and a key.
ghost use Rattle.std.specs.Prelude.{◌≡◌};
ghost use Rattle.mst_report.specs.Words.{root_of, key_of};

use hex::FromHex;
use mst_key::Key;

/// The digest that a word spells: 64 hexadecimal digits in either case.
pub fn root_in(word: &str) -> Option<[u8; 32]>
    ensures root { result ≡ root_of word.now }
{
    <[u8; 32] as FromHex>::from_hex(word).ok()
}

/// The key that a word spells: 1 to 32 bytes, each of two hexadecimal digits in either case.
pub fn key_in(word: &str) -> Option<Key>
    ensures key { result ≡ key_of word.now }
{
    let mut room = [0; 32];
    let bytes = room.get_mut(..word.len() / 2)?;
    hex::decode_to_slice(word, bytes).ok()?;
    Key::new(bytes).ok()
}
