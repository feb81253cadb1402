//! Root digests, proofs and directories, as C is told of them.
ghost use Rattle.std.specs.Prelude.{◌≡◌, length};
ghost use Rattle.mst_c_blocks.specs.Proving.{ProveTold, DirectoryTold};
ghost use Rattle.mst_c_blocks.specs.Told.{root_code, root_room, RootTold};

use crate::hand::{BlocksHand, give, take};
use crate::reading::read_refusal_code;
use mst_c::codes::{BAD_KEY, CLOSED, SHORT_ROOM, WRONG_STATE};
use mst_c::ranging::tell_pairs;
use mst_c::telling::{ROOT_LENGTH, tell_proof, write_first};
use mst_key::Key;
use std::alloc::Global;

/// The code of a root digest. The digest stands first in the room then, if it fits.
fn tell_root(found: Option<[u8; 32]>, room: &mut [u8]) -> i32
    ensures code { result ≡ root_code (length room.old) found }
    ensures room { room.new ≡ root_room room.old found }
{
    match found {
        Some(root) => {
            if room.len() < ROOT_LENGTH {
                return SHORT_ROOM;
            }
            write_first(room, &root);
            ROOT_LENGTH as i32
        }
        None => WRONG_STATE,
    }
}

/// As `mst_sharded_root` of `mst_exports` says.
pub fn root(alloc: Global, hand: &mut BlocksHand, room: &mut [u8]) -> i32
    ensures told { RootTold hand.old.held room.old result room.new hand.new.held }
{
    let Some(mut taken) = take(alloc, hand) else {
        return CLOSED;
    };
    let root = taken.held.root();
    give(hand, taken);
    tell_root(root, room)
}

/// As `mst_sharded_prove` of `mst_exports` says.
pub fn prove(
    alloc: Global,
    hand: &mut BlocksHand,
    key: &[u8],
    room: &mut [u8],
    size: &mut usize,
) -> i32
    ensures told { ProveTold hand.old.held key.now room.old size.old result room.new size.new
        hand.new.held }
{
    let Some(mut taken) = take(alloc, hand) else {
        return CLOSED;
    };
    let Ok(key) = Key::new(key) else {
        give(hand, taken);
        return BAD_KEY;
    };
    let found = taken.held.prove(alloc, &key);
    give(hand, taken);
    match found {
        Ok(proof) => tell_proof(proof.as_slice(), room, size),
        Err(fault) => read_refusal_code(fault),
    }
}

/// As `mst_sharded_directory` of `mst_exports` says.
pub fn directory(
    alloc: Global,
    hand: &mut BlocksHand,
    room: &mut [u8],
    count: &mut usize,
    size: &mut usize,
) -> i32
    ensures told { DirectoryTold hand.old.held room.old count.old size.old result room.new count.new
        size.new hand.new.held }
{
    let Some(mut taken) = take(alloc, hand) else {
        return CLOSED;
    };
    let found = taken.held.directory(alloc);
    give(hand, taken);
    match found {
        Ok(pairs) => tell_pairs(pairs.as_slice(), room, count, size),
        Err(fault) => read_refusal_code(fault),
    }
}
