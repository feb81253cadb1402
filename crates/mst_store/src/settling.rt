//! Meeting and settling: two passes of a store, or all of them, come to have seen one history.
//!
//! A courier, which is a seat that is no pass, goes along the line of the passes and back. On its
//! way there it hears what each pass has seen and looks, so that what it has seen in the end begins
//! with what each of them had seen. On its way back each pass hears of that very history and sees
//! it, and not what was added since.
ghost use Rattle.std.specs.Prelude.{◌≡◌, ◌++◌, ◌<◌, [], length, map, All, IfSome, IfNone};
ghost use Rattle.mst_key.specs.History.{events_of, IsPrefix};
ghost use Rattle.mst_store.specs.Passes.{having_asked};
ghost use Rattle.mst_store.specs.Settling.{having_seen, Met, AreAllPasses, Settled, IsCourier, IsBeside, GoesOn};

use crate::pass::Pass;
use crate::pinned::Pinned;
use mst_words::Courier;
use std::alloc::Allocator;
use std::marker::Brand;

/// After the call both passes have seen one and the same history, which begins with all that either
/// had seen. It takes no memory, and each step is one load.
///
/// The passes must be of one store.
pub fn meet<'a, A: Allocator + Copy>(one: &mut Pass<'a, A>, other: &mut Pass<'a, A>)
    requires of_one { one.old.store ≡ other.old.store }
    ensures met { Met one.old other.old one.new other.new }
{
    let mut courier = send_courier(one);
    collect(other, &mut courier);
    deliver(one, &mut courier);
    deliver(other, &mut courier);
}

/// After the call all passes of `free` have seen one and the same history. It begins with all that
/// each of them had seen and with the history at each pin of `held`, and has no events but those of
/// the passes handed in. A pinned pass keeps its version. It takes no memory, and each step is one
/// load: it neither takes the turn nor waits for it.
///
/// The passes must be all those of one store, each free or pinned, in any order.
pub fn settle<'a, A: Allocator + Copy>(free: &mut [Pass<'a, A>], held: &mut [Pinned<'a, A>])
    requires whole { AreAllPasses (free.old ++ held.old) }
    ensures settled { Settled free.old held.old free.new held.new }
{
    let Some(mut courier) = first_courier(free, held) else {
        return;
    };
    collect_all(free, &mut courier);
    collect_held(held, &mut courier);
    deliver_all(free, &mut courier);
    deliver_held(held, &mut courier);
}

/// A courier from the first pass of the store, free or pinned. Returns `None` if there is no pass.
fn first_courier<'a, A: Allocator + Copy>(
    free: &mut [Pass<'a, A>],
    held: &mut [Pinned<'a, A>],
) -> Option<Courier<'a, A>>
    requires whole { AreAllPasses (free.old ++ held.old) }
    ensures same { (free.new ≡ free.old) × (held.new ≡ held.old) }
    ensures none { IfNone result ((free.old ≡ []) × (held.old ≡ [])) }
    ensures some { IfSome result (λ _. 0 < length (free.old ++ held.old)) }
    ensures courier { IfSome result (λ courier. IsCourier courier.me) }
    ensures own { IfSome result
        (λ courier. All (IsBeside courier.table courier.me.0.passes) (free.old ++ held.old)) }
{
    if !free.is_empty() {
        return Some(send_courier(&mut free[0]));
    }
    if !held.is_empty() {
        return Some(send_pinned_courier(&mut held[0]));
    }
    None
}

/// A courier that has heard what the pass has seen, and has looked.
fn send_courier<'a, A: Allocator + Copy>(pass: &mut Pass<'a, A>) -> Courier<'a, A>
    ensures same { pass.new ≡ pass.old }
    ensures courier { IsCourier result.me }
    ensures own { IsBeside result.table result.me.0.passes pass.old }
    ensures later { IsPrefix pass.old.seen result.me.0.seen }
{
    let mut courier = pass.seat.write_note().into_courier();
    courier.see_all();
    courier
}

/// A courier that has looked, from a pinned pass.
fn send_pinned_courier<'a, A: Allocator + Copy>(pinned: &mut Pinned<'a, A>) -> Courier<'a, A>
    ensures same { pinned.new ≡ pinned.old }
    ensures courier { IsCourier result.me }
    ensures own { IsBeside result.table result.me.0.passes pinned.old }
{
    let mut courier = pinned.seat.write_note().into_courier();
    courier.see_all();
    courier
}

/// The way there: the courier hears what each pass has seen, and looks after each.
fn collect_all<'a, A: Allocator + Copy>(line: &mut [Pass<'a, A>], courier: &mut Courier<'a, A>)
    requires own { All (IsBeside courier.old.table courier.old.me.0.passes) line.old }
    requires courier { IsCourier courier.old.me }
    ensures same { line.new ≡ line.old }
    ensures table { courier.new.table ≡ courier.old.table }
    ensures courier { GoesOn courier.old.me courier.new.me }
    ensures later { All (λ p. IsPrefix p.seen courier.new.me.0.seen) line.old }
{
    for pass in line.iter_mut() {
        collect(pass, courier);
    }
}

/// The way there along the pinned passes: each looks, the courier hears what it has seen, and looks
/// too.
fn collect_held<'a, A: Allocator + Copy>(line: &mut [Pinned<'a, A>], courier: &mut Courier<'a, A>)
    requires own { All (IsBeside courier.old.table courier.old.me.0.passes) line.old }
    requires courier { IsCourier courier.old.me }
    ensures asked { line.new ≡ map (having_asked 1) line.old }
    ensures table { courier.new.table ≡ courier.old.table }
    ensures courier { GoesOn courier.old.me courier.new.me }
    ensures later { All (λ p. IsPrefix p.seen courier.new.me.0.seen) line.old }
{
    for pinned in line.iter_mut() {
        collect_pinned(pinned, courier);
    }
}

/// The way back: each pass hears what the courier has seen, and has then seen it too.
fn deliver_all<'a, A: Allocator + Copy>(line: &mut [Pass<'a, A>], courier: &mut Courier<'a, A>)
    requires own { All (IsBeside courier.old.table courier.old.me.0.passes) line.old }
    requires later { All (λ p. IsPrefix p.seen courier.old.me.0.seen) line.old }
    ensures table { courier.new.table ≡ courier.old.table }
    ensures same { courier.new.me ≡ courier.old.me }
    ensures now { line.new ≡ map (having_seen courier.old.me.0.seen) line.old }
    ensures own { All (λ p. events_of p.number courier.old.me.0.seen ≡ p.mine) line.old }
{
    for pass in line.iter_mut() {
        deliver(pass, courier);
    }
}

/// The way back along the pinned passes: each hears what the courier has seen, and looks.
fn deliver_held<'a, A: Allocator + Copy>(line: &mut [Pinned<'a, A>], courier: &mut Courier<'a, A>)
    requires own { All (IsBeside courier.old.table courier.old.me.0.passes) line.old }
    requires later { All (λ p. IsPrefix p.seen courier.old.me.0.seen) line.old }
    ensures asked { line.new ≡ map (having_asked 2) line.old }
    ensures own { All (λ p. events_of p.number courier.old.me.0.seen ≡ p.mine) line.old }
{
    for pinned in line.iter_mut() {
        deliver_pinned(pinned, courier);
    }
}

/// The courier hears what the pass has seen, and looks.
fn collect<'a, A: Allocator + Copy>(pass: &mut Pass<'a, A>, courier: &mut Courier<'a, A>)
    requires own { IsBeside courier.old.table courier.old.me.0.passes pass.old }
    requires courier { IsCourier courier.old.me }
    ensures same { pass.new ≡ pass.old }
    ensures table { courier.new.table ≡ courier.old.table }
    ensures courier { GoesOn courier.old.me courier.new.me }
    ensures later { IsPrefix pass.old.seen courier.new.me.0.seen }
{
    let note = pass.seat.write_note();
    courier.hear_note::<Brand>(note);
    courier.see_all();
}

/// The pass hears what the courier has seen, and has then seen it too.
fn deliver<'a, A: Allocator + Copy>(pass: &mut Pass<'a, A>, courier: &mut Courier<'a, A>)
    requires own { IsBeside courier.old.table courier.old.me.0.passes pass.old }
    requires later { IsPrefix pass.old.seen courier.old.me.0.seen }
    ensures table { courier.new.table ≡ courier.old.table }
    ensures same { courier.new.me ≡ courier.old.me }
    ensures now { pass.new ≡ having_seen courier.old.me.0.seen pass.old }
    ensures own { events_of pass.old.number courier.old.me.0.seen ≡ pass.old.mine }
{
    let note = courier.write_note();
    pass.seat.hear_note::<Brand>(note);
    pass.seat.see_told();
}

/// The pinned pass looks, so that it has seen the history at its pin; the courier hears what it has
/// seen, and looks.
fn collect_pinned<'a, A: Allocator + Copy>(pinned: &mut Pinned<'a, A>, courier: &mut Courier<'a, A>)
    requires own { IsBeside courier.old.table courier.old.me.0.passes pinned.old }
    requires courier { IsCourier courier.old.me }
    ensures asked { pinned.new ≡ having_asked 1 pinned.old }
    ensures table { courier.new.table ≡ courier.old.table }
    ensures courier { GoesOn courier.old.me courier.new.me }
    ensures later { IsPrefix pinned.old.seen courier.new.me.0.seen }
{
    pinned.seat.see_all();
    let note = pinned.seat.write_note();
    courier.hear_note::<Brand>(note);
    courier.see_all();
}

/// The pinned pass hears what the courier has seen, and looks: the whole history has no event of
/// the pass that was not there at its pin, so the one between has none either.
fn deliver_pinned<'a, A: Allocator + Copy>(pinned: &mut Pinned<'a, A>, courier: &mut Courier<'a, A>)
    requires own { IsBeside courier.old.table courier.old.me.0.passes pinned.old }
    requires later { IsPrefix pinned.old.seen courier.old.me.0.seen }
    ensures table { courier.new.table ≡ courier.old.table }
    ensures same { courier.new.me ≡ courier.old.me }
    ensures asked { pinned.new ≡ having_asked 2 pinned.old }
    ensures own { events_of pinned.old.number courier.old.me.0.seen ≡ pinned.old.mine }
{
    let note = courier.write_note();
    pinned.seat.hear_note::<Brand>(note);
    pinned.seat.see_all();
}
