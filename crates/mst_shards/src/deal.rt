//! The dealing of the passes of a sharded map: one lot to its writer, and one to each reader.
ghost use Rattle.std.specs.Prelude.{◌≡◌, ◌<◌, ◌+◌, ◌-◌, ◌∷◌, ℕ, [], map, length, get_or, slice_index_or, vec_len, IfOk, OnOk};
ghost use Rattle.std.specs.List.{AllByRecursion};
ghost use Rattle.mst_store.specs.Passes.{Known, new_passes};
ghost use Rattle.mst_shards.specs.Opening.{Dealt, dealt_more, IsLot, first_lots, lot as lot_of, seats_of};

use crate::sharded::{AllSeats, Sharded};
use mst_key::Memory;
use mst_store::{Laid, Pass, Seats, Store};
use std::alloc::Allocator;
use std::marker::Model;

/// What is dealt to a reader: a pass of each shard, and one of the directory, laid down.
#[derive(Drop)]
pub struct Lot<A: Allocator + Copy> {
    /// The passes of the shards, in the order of their keys.
    pub passes: Vec<Laid<A>, A>,
    /// The pass of the directory.
    pub directory: Laid<A>,
}

/// Contracts see what the passes know.
impl<A: Allocator + Copy> Model for Lot<A> {
    ghost use Rattle.mst_shards.specs.Opening.{Dealt};

    ghost Value = { Dealt };

    ghost view = { λ l. record { passes = l.passes.items; directory = l.directory } };
}

impl<A: Allocator + Copy> Lot<A> {
    // Adds the pass of one more shard.
    fn push(&mut self, pass: Pass<'_, A>) -> Result<(), Memory>
        ensures pushed { OnOk result (self.new ≡ dealt_more self.old pass.entry) }
    {
        self.passes.push(pass.lay())?;
        Ok(())
    }
}

/// What is dealt to the writer: there is one of it for each sharded map.
#[derive(Drop)]
pub struct WriterLot<A: Allocator + Copy> {
    lot: Lot<A>,
}

/// Contracts see the lot.
impl<A: Allocator + Copy> Model for WriterLot<A> {
    ghost use Rattle.mst_shards.specs.Opening.{Dealt};

    ghost Value = { Dealt };

    ghost view = { λ w. w.lot };
}

impl<A: Allocator + Copy> WriterLot<A> {
    /// The lot.
    pub fn into_lot(self) -> Lot<A>
        ensures same { result ≡ self }
    {
        self.lot
    }
}

// Deals the passes of the store at a place.
fn deal_at<'a, A: Allocator + Copy>(
    alloc: A,
    stores: &'a [Store<A>],
    place: usize,
    seats: Seats<A>,
) -> Result<Vec<Pass<'a, A>, A>, Memory>
    requires there { place < length stores.now }
    requires own { seats ≡ slice_index_or stores.now place seats }
    ensures ok { IfOk result (λ passes. passes.items ≡ new_passes seats) }
    ensures count { IfOk result (λ passes. vec_len passes ≡ seats.passes) }
{
    match stores[place].deal(alloc, seats) {
        Ok(passes) => Ok(passes),
        Err((refused, _)) => Err(refused),
    }
}

// Makes a lot of each pass of the directory.
fn lots_with<A: Allocator + Copy>(
    alloc: A,
    passes: Vec<Pass<'_, A>, A>,
) -> Result<Vec<Lot<A>, A>, Memory>
    ensures lots { IfOk result (λ lots. lots.items
        ≡ map (λ p. record { passes = []; directory = p }) passes.entry.items) }
{
    let mut lots = Vec::new(alloc);
    for pass in passes {
        lots.push(Lot {
            passes: Vec::new(alloc),
            directory: pass.lay(),
        })?;
    }
    Ok(lots)
}

// Deals the passes of the directory, and makes a lot of each.
fn lots_of<A: Allocator + Copy>(
    alloc: A,
    directory: &Store<A>,
    seats: Seats<A>,
) -> Result<Vec<Lot<A>, A>, Memory>
    requires own { seats ≡ directory.now }
    ensures lots { IfOk result
        (λ lots. lots.items ≡ first_lots [] directory.now directory.now.passes) }
{
    match directory.deal(alloc, seats) {
        Ok(passes) => lots_with(alloc, passes),
        Err((refused, _)) => Err(refused),
    }
}

// Gives each lot a pass of one more store.
fn hand_out<A: Allocator + Copy>(
    lots: &mut Vec<Lot<A>, A>,
    passes: Vec<Pass<'_, A>, A>,
) -> Result<(), Memory>
    requires count { vec_len passes ≡ vec_len lots.old }
    ensures count { OnOk result (length lots.new.items ≡ length lots.old.items) }
    ensures each { OnOk result ((k : ℕ) (d : Dealt) (e : Known) → k < length lots.old.items
        → get_or lots.new.items k d ≡ dealt_more (get_or lots.old.items k d)
        (get_or passes.entry.items k e)) }
{
    let mut place = 0;
    for pass in passes {
        lots[place].push(pass)?;
        place += 1;
    }
    Ok(())
}

// Makes the lots, and gives each its pass of each store.
fn all_lots<A: Allocator + Copy>(
    alloc: A,
    directory: &Store<A>,
    its_seats: Seats<A>,
    stores: &[Store<A>],
    seats: Vec<Seats<A>, A>,
) -> Result<Vec<Lot<A>, A>, Memory>
    requires own { seats.items ≡ stores.now }
    requires own_directory { its_seats ≡ directory.now }
    requires passes { AllByRecursion (λ s. s.passes ≡ directory.now.passes) stores.now }
    ensures lots { IfOk result
        (λ lots. lots.items ≡ first_lots stores.now directory.now directory.now.passes) }
{
    let mut lots = lots_of(alloc, directory, its_seats)?;
    let mut place = 0;
    for seats_here in seats {
        let passes = deal_at(alloc, stores, place, seats_here)?;
        hand_out(&mut lots, passes)?;
        place += 1;
    }
    Ok(lots)
}

impl<A: Allocator + Copy> Sharded<A> {
    /// Deals the passes of the map: to the writer those with the highest number, and to each reader
    /// those with one of the other numbers, in their order from 1.
    ///
    /// The seats must be those that were opened with this map. Returns `Memory` if a growth was
    /// refused. The seats are gone then, and since the map is still empty, it is opened again.
    pub fn deal(
        &self,
        alloc: A,
        seats: AllSeats<A>,
    ) -> Result<(WriterLot<A>, Vec<Lot<A>, A>), Memory>
        requires own { seats ≡ seats_of self.now }
        ensures writer { IfOk result (λ dealt. dealt.0
            ≡ lot_of self.now.stores self.now.directory self.now.directory.passes) }
        ensures readers { IfOk result (λ dealt. dealt.1.items ≡ first_lots self.now.stores
            self.now.directory (self.now.directory.passes - 1)) }
        ensures writer_is { IfOk result (λ dealt. IsLot self.now dealt.0) }
        ensures readers_are { IfOk result
            (λ dealt. AllByRecursion (IsLot self.now) dealt.1.items) }
    {
        let AllSeats { stores, directory } = seats;
        let mut lots = all_lots(
            alloc,
            &self.directory,
            directory,
            self.stores.as_slice(),
            stores,
        )?;
        let Some(lot) = lots.pop() else {
            unreachable!()
        };
        Ok((WriterLot { lot }, lots))
    }
}
