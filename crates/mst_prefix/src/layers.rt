//! What is kept of the texts of nodes, layer by layer.
ghost use Rattle.std.specs.Prelude.{◌≡◌, ◌≤◌, ◌*◌, ◌/◌, ℕ, List, [], IfOk, IfSome, Some, min, vec_capacity};
ghost use Rattle.sha2.specs.Sha256.{sha256};
ghost use Rattle.mst_prefix.specs.Kept.{HasTaken, AreSound};

use crate::beginnings::Beginnings;
use crate::hasher::TextHasher;
use crate::places::MOST_ITEMS;
use mst_key::Memory;
use std::alloc::Allocator;
use std::marker::Model;

/// In how many parts the rows are dealt out to the layers.
const PARTS: u32 = 32;

/// Beginnings of the texts of nodes, in rows of an arena: those of one layer in a room of its own,
/// so that the nodes of a path can be written one within another.
#[derive(Drop)]
pub struct LayerBeginnings<A: Allocator> {
    lowest: Option<Box<Beginnings<A>, A>>,
    second: Option<Box<Beginnings<A>, A>>,
    third: Option<Box<Beginnings<A>, A>>,
    /// Those of all higher layers.
    higher: Option<Box<Beginnings<A>, A>>,
}

/// Contracts see nothing of what is kept: it changes no answer.
impl<A: Allocator> Model for LayerBeginnings<A> {
    ghost use Rattle.std.specs.Prelude.{⊤};
    ghost use Rattle.mst_prefix.specs.Kept.{AreSound};

    ghost Value = { ⊤ };

    ghost view = { λ _. tt };

    ghost invariant = { λ b. AreSound b.lowest × AreSound b.second × AreSound b.third
        × AreSound b.higher };
}

/// A number of 32nds of the rows, or of as many as items can be told apart.
fn part_of(rows: u32, parts: u32) -> u16
    requires part { parts ≤ 32 }
    ensures part { result ≡ min rows 65535 * parts / 32 }
{
    (rows.min(MOST_ITEMS as u32) * parts / PARTS) as u16
}

/// Room for a layer's beginnings and digests of values, each a number of 32nds of the rows.
fn room<A: Allocator + Copy>(
    alloc: A,
    rows: u32,
    texts: u32,
    digests: u32,
) -> Result<Option<Box<Beginnings<A>, A>>, Memory>
    requires texts { texts ≤ 32 }
    requires digests { digests ≤ 32 }
    ensures sound { IfOk result (λ b. AreSound b) }
    ensures texts_room { IfOk result (λ lent. IfSome lent (λ b.
        vec_capacity b.value.kept.items ≡ min rows 65535 * texts / 32)) }
    ensures digests_room { IfOk result (λ lent. IfSome lent (λ b.
        vec_capacity b.value.digests.items ≡ min rows 65535 * digests / 32)) }
    ensures rows_room { IfOk result (λ lent. IfSome lent (λ b.
        (vec_capacity b.value.kept.numbers ≡ rows)
        × (vec_capacity b.value.digests.numbers ≡ rows))) }
{
    let texts = part_of(rows, texts);
    let digests = part_of(rows, digests);
    Ok(Some(Box::new(alloc, Beginnings::new(alloc, rows, texts, digests)?)?))
}

impl<A: Allocator + Copy> LayerBeginnings<A> {
    /// Nothing kept yet, for so many rows. Returns `Memory` if a growth was refused; no later call
    /// takes memory. It has no clause: contracts see nothing of what is kept, and `room` says how
    /// much memory each layer's takes.
    ///
    /// With most rows there is room for all entries of 30,000 keys: 15 in 16 keys of a map are of
    /// the lowest layer in format 1, and three in four in format 2, which alone keeps digests.
    pub fn new(alloc: A, rows: u32) -> Result<LayerBeginnings<A>, Memory> {
        Ok(LayerBeginnings {
            lowest: room(alloc, rows, 14, 11)?,
            second: room(alloc, rows, 3, 3)?,
            third: room(alloc, rows, 1, 1)?,
            higher: room(alloc, rows, 1, 1)?,
        })
    }
}

impl<A: Allocator> LayerBeginnings<A> {
    /// Takes what is kept of a layer's texts, unless it is lent.
    fn lend(&mut self, layer: u8) -> Option<Box<Beginnings<A>, A>>
        ensures sound { AreSound result }
    {
        match layer {
            0 => self.lowest.take(),
            1 => self.second.take(),
            2 => self.third.take(),
            _ => self.higher.take(),
        }
    }

    /// Takes back what was lent of a layer's texts. No clause says to which layer: what is kept
    /// elsewhere costs time alone.
    fn take_back(&mut self, layer: u8, lent: Box<Beginnings<A>, A>)
        requires sound { AreSound (Some lent) }
    {
        match layer {
            0 => self.lowest = Some(lent),
            1 => self.second = Some(lent),
            2 => self.third = Some(lent),
            _ => self.higher = Some(lent),
        }
    }

    /// A hasher of the text of a node of this layer, with what is kept of the layer's texts unless
    /// that is lent. [`LayerBeginnings::finish`] takes it back.
    pub fn hasher(&mut self, layer: u8) -> TextHasher<A>
        ensures empty { HasTaken result [] }
    {
        TextHasher::new(self.lend(layer))
    }

    /// The digest of the text of a node of this layer that a hasher has taken in.
    pub fn finish(&mut self, layer: u8, hasher: TextHasher<A>) -> [u8; 32]
        requires taken { (m : List ℕ) × HasTaken hasher m }
        ensures digest { (m : List ℕ) → HasTaken hasher m → result ≡ sha256 m }
    {
        let (digest, lent) = hasher.finish();
        if let Some(lent) = lent {
            self.take_back(layer, lent);
        }
        digest
    }
}
