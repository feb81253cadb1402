//! The parts of a proof of a sharded map, each borrowed from its bytes.
ghost use Rattle.std.specs.Prelude.{◌≡◌, IfOk, IfErr};
ghost use Rattle.std.specs.declared.result.Result.TheVariants.{Ok, Err};
ghost use Rattle.mst_node.specs.Reading.{Gives};
ghost use Rattle.mst_proof.specs.Frame.{text_at};
ghost use Rattle.mst_sharded_proof.specs.Frame.{sharded_format_byte as byte_of, key_at, parts_at};

use crate::fault::ShardedFault;
use mst_key::{Format, Key};

/// The parts of a proof.
#[derive(Drop)]
pub(crate) struct Parts<'a> {
    /// The lower bound of the key's shard.
    pub low: Key,
    /// The directory's proof for the lower bound.
    pub directory: &'a [u8],
    /// The shard's proof for the key.
    pub shard: &'a [u8],
}

/// The first byte of a proof in a format. Texts and proofs of one map begin with 01 or 02.
pub(crate) fn sharded_format_byte(format: Format) -> u8
    ensures byte { result ≡ byte_of format }
{
    match format {
        Format::One => 3,
        Format::Two => 4,
    }
}

/// A key after its length, and the bytes after it.
fn key_of(bytes: &[u8]) -> Result<(Key, &[u8]), ShardedFault>
    ensures ok { IfOk result (λ x. key_at bytes.now ≡ Ok (x.0, x.1.now)) }
    ensures fault { IfErr result (λ fault. key_at bytes.now ≡ Err fault) }
{
    match bytes {
        [] => Err(ShardedFault::CutShort),
        [size, rest @ ..] => {
            let size = *size as usize;
            if rest.len() < size {
                return Err(ShardedFault::CutShort);
            }
            let (key, left) = rest.split_at(size);
            match Key::new(key) {
                Ok(key) => Ok((key, left)),
                Err(_) => Err(ShardedFault::NoKey),
            }
        }
    }
}

/// A text after its length in four bytes, the high one first, and the bytes after it.
#[tactic(auto, unfolding(mst_proof::specs::Frame::text_at, mst_node::specs::Reading::part_at))]
fn text_of(bytes: &[u8]) -> Option<(&[u8], &[u8])>
    ensures reading { Gives (λ x. (x.0.now, x.1.now)) result (text_at bytes.now) }
{
    match bytes {
        [a, b, c, d, rest @ ..] => {
            let size = u32::from_be_bytes([*a, *b, *c, *d]) as usize;
            if rest.len() < size {
                None
            } else {
                Some(rest.split_at(size))
            }
        }
        _ => None,
    }
}

impl<'a> Parts<'a> {
    /// The parts of a proof, or the fault of its frame. No proof is looked into.
    pub(crate) fn of(format: Format, proof: &[u8]) -> Result<Parts<'_>, ShardedFault>
        ensures ok { IfOk result (λ p. parts_at format proof.now
            ≡ Ok (record { low = p.low; directory = p.directory.now; shard = p.shard.now })) }
        ensures fault { IfErr result (λ fault. parts_at format proof.now ≡ Err fault) }
    {
        match proof {
            [] => Err(ShardedFault::CutShort),
            [first, bytes @ ..] => {
                if *first != sharded_format_byte(format) {
                    return Err(ShardedFault::FormatByte);
                }
                let (low, rest) = key_of(bytes)?;
                match text_of(rest) {
                    None => Err(ShardedFault::CutShort),
                    Some((directory, shard)) => Ok(Parts {
                        low,
                        directory,
                        shard,
                    }),
                }
            }
        }
    }
}
