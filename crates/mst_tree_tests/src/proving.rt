//! The search for a collision in proofs, also with each growth refused. Transcripts
//! (`tests/transcripts`) have what proofs show, proofs that are spelt out, and forged ones.
ghost use Rattle.std.specs.Prelude.{◌≤◌, length};
ghost use Rattle.mst_key.specs.Map.{IsMap};

pub mod collisions;
pub mod growths;
pub mod maps;
pub mod sizes;

use crate::confirming::{confirm, few};
use crate::heaps::heap_of;
use crate::pairs::key_of;
use crate::rows::standing::StandingMap;
use linked_list_allocator::LocalHeap;
use mst_key::{Format, Key, Value};
use mst_node::{build_in, is_map};
use mst_proof::{collide, collide_in};
use std::alloc::Global;
use std::process::Abort;

/// The proof of the map of `a` and `abc`, with the values `1` and `x`, for any key.
const TWO_PROOF: &str = "0101000000110100000200016101310003616263017800";

/// The proof of the map of `1`, `39` and `a`, with the values `x`, `y` and `z`, for the key `1`.
const THREE_PROOF: &str =
    "01020000004b01010001017dfdf041db1f9c4de0e5e646a376510cfb7c4e47760ef8f74cb3181b74c061e6023339017901d2c0950048c47bae86f8557f6e7357048963954bbb6f1328ea6cc19d8898c5d80000000a01000001000131017800";

/// The proof for the key in the map of the list.
fn proof_for(
    rt: &impl Abort,
    alloc: Global,
    format: Format,
    pairs: &[(Key, Value)],
    key: &[u8],
) -> Vec<u8> {
    let mut map = StandingMap::new(rt, alloc, format, pairs);
    let proof = map.prove(alloc, &key_of(rt, key));
    proof.expect(rt, "memory")
}

/// Whether `collide_in` finds no pair of texts with no tree.
fn finds_none_alone(alloc: Global, format: Format, key: &Key, proof: &[u8]) -> bool {
    matches!(collide_in(alloc, format, key, proof, None), Ok(None))
}

/// The same of `collide`, for a proof of format 1.
fn finds_none_in_one(alloc: Global, key: &Key, proof: &[u8]) -> bool {
    matches!(collide(alloc, key, proof, None), Ok(None))
}

/// Whether `collide_in` finds no pair of texts in one heap, with the tree of the list in another.
/// False if memory is refused.
fn finds_none<'h>(
    room: &'h LocalHeap,
    heap: &'h LocalHeap,
    format: Format,
    pairs: &[(Key, Value)],
    key: &Key,
    proof: &[u8],
) -> bool
    requires few { length pairs.now ≤ 65535 }
    requires map { IsMap pairs.now }
{
    match build_in(heap, format, pairs) {
        Ok(tree) => matches!(
            collide_in(room, format, key, proof, tree.as_deref()),
            Ok(None)
        ),
        Err(_) => false,
    }
}

/// Whether that is so in a heap of this many bytes, with the tree of the map in another of this
/// many. The heaps keep nothing of what was asked.
fn is_free_in(
    rt: &impl Abort,
    alloc: Global,
    format: Format,
    (room, bytes): (usize, usize),
    pairs: &[(Key, Value)],
    (key, proof): (&[u8], &[u8]),
) -> bool {
    few(rt, pairs);
    assert!(rt; is_map(pairs));
    let (room, heap) = (heap_of(rt, alloc, room), heap_of(rt, alloc, bytes));
    let key = key_of(rt, key);
    let free = finds_none(&room, &heap, format, pairs, &key, proof);
    confirm(rt, room.used() == 0 && heap.used() == 0, "nothing is kept");
    free
}

/// Whether nothing in the proof for the key collides together with the tree of the list, in ample
/// memory.
fn is_free(
    rt: &impl Abort,
    alloc: Global,
    format: Format,
    pairs: &[(Key, Value)],
    asked: (&[u8], &[u8]),
) -> bool {
    let room = 65_536usize.saturating_add(pairs.len().saturating_mul(512));
    is_free_in(rt, alloc, format, (room, room), pairs, asked)
}

/// Whether that is so of the map's own proof for the key.
fn has_free_proof(
    rt: &impl Abort,
    alloc: Global,
    format: Format,
    pairs: &[(Key, Value)],
    key: &[u8],
) -> bool {
    let proof = proof_for(rt, alloc, format, pairs, key);
    is_free(rt, alloc, format, pairs, (key, proof.as_slice()))
}
