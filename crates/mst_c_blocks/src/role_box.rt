//! What a hand of a sharded map holds: its writer, a reader or a snapshot, a block that was begun,
//! or a part of one, each with a share of the map.
ghost use Rattle.std.specs.Prelude.{◌≡◌, ◌≤◌, true, length, vec_len, Some, None, Ok, Err, IfOk, IfErr, IsSome, IsNone, IfSome};
ghost use Rattle.std.specs.Option.{option_copied};
ghost use Rattle.mst_key.specs.Map.{map_next, map_range};
ghost use Rattle.mst_c_blocks.specs.Holding.{shards_in, Numbers, HasRoot, Tries, Releases, Gets, Reads, Lists};
ghost use Rattle.mst_c_blocks.specs.Begun.{shards_to_begin, Begins, Prepares, Commits, Cancels};
ghost use Rattle.mst_c_blocks.specs.Counting.{CountsRows};
ghost use Rattle.mst_c_blocks.specs.Making.{Makes};
ghost use Rattle.mst_c_blocks.specs.declared.role_box.Role.TheVariants as role;
ghost use Rattle.mst_c_blocks.specs.Proving.{HasProof, HasDirectory};
ghost use Rattle.mst_c_blocks.specs.Reading.{OfMap, HasFormat};
ghost use Rattle.mst_c_blocks.specs.States.{IsThere, PinsNone};

use crate::asking::{GetRefusal, ReadRefusal, last_value, try_of};
use crate::begun::{
    BegunBlock, CommitRefusal, PartRefusal, PartShare, begin, cancel, commit, prepare,
};
use crate::counting::{RowsRefusal, free_in};
use crate::hand::{BlocksHand, BlocksTaken, PaddedBlocksHand, give};
use crate::making::{BlockRefusal, apply};
use mst_blocks::Writer;
use mst_c::packing::Packed;
use mst_key::{Format, Key, Value};
use mst_snapshots::{Reader, Snapshot};
use std::alloc::Global;
use std::marker::Model;
use std::mem::replace;

/// The writer of a map, a reader, a snapshot, or none while it is in use.
#[derive(Drop)]
pub enum Role {
    Away,
    Writer(Writer<Global>),
    Reader(Reader<Global>),
    Snapshot(Snapshot<Global>),
    /// A block that the writer has begun, with the writer.
    Block(BegunBlock),
    /// A part of such a block, or none where the block was not begun for want of memory.
    Part(Option<PartShare>),
}

/// What no call writes at the end of a box.
const PADDING: [u64; 16] = [0; 16];

/// What a hand holds, with its share of the map. Calls write it, so the box ends with padding, as
/// that of a pass.
#[derive(Drop)]
pub struct RoleBox {
    role: Role,
    padding: [u64; 16],
}

/// Contracts see the writer, the reader, the snapshot, the block or the part.
impl Model for RoleBox {
    ghost use Rattle.mst_c_blocks.specs.declared.role_box.Role.{Role};
    ghost use Rattle.mst_c_blocks.specs.States.{IsThere};

    ghost Value = { Role };

    ghost view = { λ b. b.role };

    ghost invariant = { λ b. IsThere b.role };
}

/// A writer or a reader goes into an empty hand. Nothing else makes a `RoleBox`, so no other body
/// has one to put in the place of what it took out of a hand.
pub(crate) fn hand_out(alloc: Global, role: Role, hand: &mut BlocksHand) -> bool
    requires there { IsThere role }
    requires empty { hand.old.held ≡ None }
    ensures held { result ≡ true → hand.new.held ≡ Some role }
{
    let held = RoleBox {
        role,
        padding: PADDING,
    };
    match Box::new(alloc, held) {
        Ok(held) => {
            give(hand, BlocksTaken::of(held));
            true
        }
        Err(refused) => {
            drop(refused);
            false
        }
    }
}

/// The same for a hand of an array.
pub(crate) fn hand_out_padded(alloc: Global, role: Role, hand: &mut PaddedBlocksHand) -> bool
    requires there { IsThere role }
    requires empty { hand.old.hand.held ≡ None }
    ensures held { result ≡ true → hand.new.hand.held ≡ Some role }
{
    hand_out(alloc, role, &mut hand.hand)
}

/// Puts a role where none is. What was there is dropped by a generic function: an assignment would
/// unfold in its proof all that a role may own.
fn put(place: &mut Role, role: Role)
    ensures put { place.new ≡ role }
{
    drop(replace(place, role));
}

impl RoleBox {
    /// How many shards there are.
    pub(crate) fn shards(&self) -> usize
        ensures count { result ≡ shards_in self.now }
        ensures most { result ≤ 1024 }
    {
        match &self.role {
            Role::Writer(writer) => writer.shards(),
            Role::Reader(reader) => reader.shards(),
            Role::Snapshot(snapshot) => snapshot.shards(),
            _ => 0,
        }
    }

    /// The number of the writer's last block, or of the snapshot's block.
    pub(crate) fn number(&self) -> Option<u64>
        ensures number { Numbers self.now result }
    {
        match &self.role {
            Role::Writer(writer) => Some(writer.number()),
            Role::Snapshot(snapshot) => Some(snapshot.number()),
            _ => None,
        }
    }

    /// The root digest of the writer's last block, or of the snapshot's block.
    pub(crate) fn root(&mut self) -> Option<[u8; 32]>
        ensures root { HasRoot self.old result self.new }
    {
        match &mut self.role {
            Role::Writer(writer) => Some(writer.root()),
            Role::Snapshot(snapshot) => Some(snapshot.root()),
            _ => None,
        }
    }

    /// Makes the edits of a buffer as the next block, if this is the writer.
    pub(crate) fn apply(&mut self, alloc: Global, packed: &Packed<'_>) -> Result<u64, BlockRefusal>
        ensures makes { Makes packed.now self.old result self.new }
    {
        let (role, made) = apply(replace(&mut self.role, Role::Away), alloc, packed);
        put(&mut self.role, role);
        made
    }

    /// How many shards there are, if this is the writer.
    pub(crate) fn shards_to_begin(&self) -> Option<usize>
        ensures count { result ≡ shards_to_begin self.now }
    {
        match &self.role {
            Role::Writer(writer) => Some(writer.shards()),
            _ => None,
        }
    }

    /// Begins a block of the edits of a buffer. Returns a share of each part of it, unless a growth
    /// was refused.
    pub(crate) fn begin(
        &mut self,
        alloc: Global,
        packed: &Packed<'_>,
    ) -> Option<Vec<PartShare, Global>>
        requires writer { IsSome (shards_to_begin self.old) }
        ensures begun { IfSome result
            (λ shares. Begins packed.now self.old shares.items self.new) }
        ensures count { IfSome result (λ shares. shards_to_begin self.old ≡ Some (vec_len shares)) }
        ensures same { IsNone result → self.new ≡ self.old }
    {
        let (role, begun) = begin(replace(&mut self.role, Role::Away), alloc, packed);
        put(&mut self.role, role);
        begun
    }

    /// The hand waits for a part, and this is its share.
    pub(crate) fn settle(&mut self, part: PartShare)
        requires waits { self.old ≡ role.Part None }
        ensures part { self.new ≡ role.Part (Some part) }
    {
        put(&mut self.role, Role::Part(Some(part)));
    }

    /// Prepares the part, if this is one.
    pub(crate) fn prepare(&mut self, alloc: Global) -> Result<(), PartRefusal>
        ensures prepares { Prepares self.old result self.new }
    {
        let (role, prepared) = prepare(replace(&mut self.role, Role::Away), alloc);
        put(&mut self.role, role);
        prepared
    }

    /// Makes the block, if this is one that was begun.
    pub(crate) fn commit(&mut self, alloc: Global) -> Result<u64, CommitRefusal>
        ensures commits { Commits self.old result self.new }
    {
        let (role, made) = commit(replace(&mut self.role, Role::Away), alloc);
        put(&mut self.role, role);
        made
    }

    /// Takes the block back, if this is one that was begun. There is no answer of what is none.
    pub(crate) fn cancel(&mut self) -> Option<bool>
        ensures cancels { Cancels self.old result self.new }
    {
        let (role, done) = cancel(replace(&mut self.role, Role::Away));
        put(&mut self.role, role);
        done
    }

    /// Whether a reader has turned into a snapshot. There is no answer of what is no reader.
    pub(crate) fn try_snapshot(&mut self) -> Option<bool>
        ensures tries { Tries self.old result self.new }
    {
        let (role, taken) = try_of(replace(&mut self.role, Role::Away));
        put(&mut self.role, role);
        taken
    }

    /// Ends the pins, if this is a snapshot.
    pub(crate) fn release(&mut self) -> bool
        ensures releases { Releases self.old result self.new }
        ensures free { PinsNone self.new }
    {
        match replace(&mut self.role, Role::Away) {
            Role::Snapshot(snapshot) => {
                put(&mut self.role, Role::Reader(snapshot.release()));
                true
            }
            other => {
                put(&mut self.role, other);
                false
            }
        }
    }

    /// The value of a key. The writer may have no answer: if another has written.
    pub(crate) fn get(&mut self, key: &Key) -> Result<Option<Value>, GetRefusal>
        ensures gets { Gets key.now self.old result self.new }
    {
        match &mut self.role {
            Role::Writer(writer) => last_value(writer, key),
            Role::Reader(reader) => Ok(reader.get(key)),
            Role::Snapshot(snapshot) => Ok(snapshot.get(key)),
            _ => Err(GetRefusal::NoMap),
        }
    }

    /// How many rows are free in the shard with this number, or in the directory, if this is the
    /// writer.
    pub(crate) fn free_rows(&mut self, shard: usize) -> Result<u32, RowsRefusal>
        ensures counts { CountsRows shard self.old result self.new }
    {
        match &mut self.role {
            Role::Writer(writer) => free_in(writer, shard),
            _ => Err(RowsRefusal::NoWriter),
        }
    }

    /// The pair of the least key above the bound, of a snapshot.
    pub(crate) fn next(&mut self, after: Option<&Key>) -> Option<Option<(Key, Value)>>
        ensures reads { Reads (OfMap (λ m. map_next m (option_copied after.entry))) self.old result
            self.new }
    {
        match &mut self.role {
            Role::Snapshot(snapshot) => Some(snapshot.next(after)),
            _ => None,
        }
    }

    /// How many pairs all shards have together, of a snapshot.
    pub(crate) fn len(&mut self) -> Option<u64>
        ensures reads { Reads (OfMap (λ m. length m)) self.old result self.new }
    {
        match &mut self.role {
            Role::Snapshot(snapshot) => Some(snapshot.len()),
            _ => None,
        }
    }

    /// The format of all shards, of a snapshot.
    pub(crate) fn format(&mut self) -> Option<Format>
        ensures reads { Reads HasFormat self.old result self.new }
    {
        match &mut self.role {
            Role::Snapshot(snapshot) => Some(snapshot.format()),
            _ => None,
        }
    }

    /// The first pairs, at most `limit`, of the keys that are at least `from` and below `to`, of a
    /// snapshot.
    #[tactic(auto, using(mst_c::proofs::Listing::range_few))]
    pub(crate) fn range(
        &mut self,
        alloc: Global,
        from: Option<&Key>,
        to: Option<&Key>,
        limit: usize,
    ) -> Result<Vec<(Key, Value), Global>, ReadRefusal>
        ensures ok { IfOk result (λ pairs. Lists
            (OfMap (λ m. map_range m (option_copied from.entry) (option_copied to.entry) limit))
            self.old (Ok pairs.items) self.new) }
        ensures few { IfOk result (λ pairs. length pairs.items ≤ limit) }
        ensures err { IfErr result (λ fault. Lists
            (OfMap (λ m. map_range m (option_copied from.entry) (option_copied to.entry) limit))
            self.old (Err fault) self.new) }
    {
        match &mut self.role {
            Role::Snapshot(snapshot) => match snapshot.range(alloc, from, to, limit) {
                Ok(pairs) => Ok(pairs),
                Err(refused) => Err(ReadRefusal::Memory(refused)),
            },
            _ => Err(ReadRefusal::NoSnapshot),
        }
    }

    /// The proof of the key's answer, of a snapshot.
    pub(crate) fn prove(&mut self, alloc: Global, key: &Key) -> Result<Vec<u8, Global>, ReadRefusal>
        ensures ok { IfOk result
            (λ bytes. Lists (HasProof key.now) self.old (Ok bytes.items) self.new) }
        ensures err { IfErr result
            (λ fault. Lists (HasProof key.now) self.old (Err fault) self.new) }
    {
        match &mut self.role {
            Role::Snapshot(snapshot) => match snapshot.prove(alloc, key) {
                Ok(proof) => Ok(proof),
                Err(refused) => Err(ReadRefusal::Memory(refused)),
            },
            _ => Err(ReadRefusal::NoSnapshot),
        }
    }

    /// The directory: of each shard its lower bound with the root digest and the upper bound, of a
    /// snapshot.
    pub(crate) fn directory(
        &mut self,
        alloc: Global,
    ) -> Result<Vec<(Key, Value), Global>, ReadRefusal>
        ensures ok { IfOk result (λ pairs. Lists HasDirectory self.old (Ok pairs.items) self.new) }
        ensures few { IfOk result (λ pairs. length pairs.items ≤ 1024) }
        ensures err { IfErr result (λ fault. Lists HasDirectory self.old (Err fault) self.new) }
    {
        match &mut self.role {
            Role::Snapshot(snapshot) => match snapshot.directory(alloc) {
                Ok(pairs) => Ok(pairs),
                Err(refused) => Err(ReadRefusal::Memory(refused)),
            },
            _ => Err(ReadRefusal::NoSnapshot),
        }
    }
}
