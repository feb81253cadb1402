//! Opening a store for C.
ghost use Rattle.std.specs.Prelude.{◌≡◌, ◌≢◌, ◌↔◌, ◌⊎◌, ◌<◌, ◌≤◌, ◌+◌, ℕ, true, pos, length, get_or, vec_len, Some, None, IsSome};
ghost use Rattle.std.specs.Arc.{arc_value};
ghost use Rattle.mst_store.specs.Passes.{Known, StoreId, new_pass, new_passes};
ghost use Rattle.mst_c.specs.Codes.{unknown_format, memory, bad_shape};
ghost use Rattle.mst_c.specs.declared.pass_box.State.TheVariants.{Free};
ghost use Rattle.mst_c.specs.declared.hand.PaddedHand.{PaddedHand};
ghost use Rattle.mst_c.specs.Formats.{format_named as named};
ghost use Rattle.mst_c.specs.Opened.{Opened, IsSize, AllEmpty};

use crate::codes::{BAD_SHAPE, MEMORY, UNKNOWN_FORMAT};
use crate::formats::format_named;
use crate::hand::PaddedHand;
use crate::pass_box::hand_out_padded;
use crate::telling::close;
use mst_key::Format;
use mst_store::{OpenFault, Pass, Seats, Shape, Store};
use std::alloc::Global;
use std::sync::Arc;

/// The most passes of a store, which are one for each hand.
pub const MOST_PASSES: usize = 32;

/// The pass goes into the hand, if all before it went into theirs.
fn hand_next(
    alloc: Global,
    store: &Arc<Store<Global>, Global>,
    pass: Pass<'_, Global>,
    hand: &mut PaddedHand,
    all: bool,
) -> bool
    requires own { pass.store ≡ arc_value store.now }
    requires empty { hand.old.hand.held ≡ None }
    ensures all { result ≡ true → all ≡ true }
    ensures held { result ≡ true → hand.new.hand.held ≡ Some (Free pass.entry) }
{
    all && hand_out_padded(alloc, store, pass, hand)
}

/// Each of the passes goes into the next hand. All hands are empty before.
fn hand_all(
    alloc: Global,
    store: &Arc<Store<Global>, Global>,
    passes: Vec<Pass<'_, Global>, Global>,
    hands: &mut [PaddedHand],
) -> bool
    requires count { vec_len passes ≤ length hands.old }
    requires own { (k : ℕ) (d : Known) → k < vec_len passes
        → (get_or passes.items k d).store ≡ arc_value store.now }
    requires empty { AllEmpty hands.old }
    ensures all { result ≡ true → (k : ℕ) (d : Known) (h : PaddedHand)
        → k < vec_len passes.entry
        → (get_or hands.new k h).hand.held ≡ Some (Free (get_or passes.entry.items k d)) }
{
    let mut all = true;
    let mut at = 0;
    for pass in passes {
        all = hand_next(alloc, store, pass, &mut hands[at], all);
        at += 1;
    }
    all
}

/// No hand holds a pass then.
fn close_all(alloc: Global, hands: &mut [PaddedHand])
    ensures empty { AllEmpty hands.new }
{
    for padded in hands.iter_mut() {
        let _code = close(alloc, &mut padded.hand);
    }
}

/// Hands all passes of a store out. If a growth is refused, all hands are empty.
fn hand_passes(
    alloc: Global,
    store: &Arc<Store<Global>, Global>,
    passes: Vec<Pass<'_, Global>, Global>,
    hands: &mut [PaddedHand],
) -> i32
    requires new { passes.items ≡ new_passes (arc_value store.now) }
    requires count { (arc_value store.now).passes ≡ length hands.old }
    requires empty { AllEmpty hands.old }
    ensures all { result ≡ pos 0 → (k : ℕ) (h : PaddedHand) → k < length hands.new
        → (get_or hands.new k h).hand.held ≡ Some (Free (new_pass (arc_value store.now) (k + 1))) }
    ensures empty { result ≢ pos 0 → AllEmpty hands.new }
    ensures range { (result ≡ pos 0) ⊎ (result ≡ memory) }
{
    if hand_all(alloc, store, passes, hands) {
        return 0;
    }
    close_all(alloc, hands);
    MEMORY
}

/// Hands all passes of a new store out, each together with a share of it.
fn hand_store(
    alloc: Global,
    store: Store<Global>,
    seats: Seats<Global>,
    hands: &mut [PaddedHand],
) -> i32
    requires own { seats ≡ store }
    requires count { store.passes ≡ length hands.old }
    requires empty { AllEmpty hands.old }
    ensures all { result ≡ pos 0 → (k : ℕ) (h : PaddedHand) → k < length hands.new
        → (get_or hands.new k h).hand.held ≡ Some (Free (new_pass store (k + 1))) }
    ensures empty { result ≢ pos 0 → AllEmpty hands.new }
    ensures range { (result ≡ pos 0) ⊎ (result ≡ memory) }
{
    let Ok(store) = Arc::new(alloc, store) else {
        return MEMORY;
    };
    match store.deal(alloc, seats) {
        Ok(passes) => hand_passes(alloc, &store, passes, hands),
        Err(_) => MEMORY,
    }
}

/// Opens a store in a format. All hands are empty before.
fn open_in(alloc: Global, format: Format, rows: u32, hands: &mut [PaddedHand]) -> i32
    requires empty { AllEmpty hands.old }
    ensures opened { result ≡ pos 0 → (s : StoreId) × (s.format ≡ format) × (s.rows ≡ rows)
        × (s.passes ≡ length hands.new)
        × ((k : ℕ) (h : PaddedHand) → k < length hands.new
        → (get_or hands.new k h).hand.held ≡ Some (Free (new_pass s (k + 1)))) }
    ensures empty { result ≢ pos 0 → AllEmpty hands.new }
    ensures size { result ≡ bad_shape ↔ ¬ (IsSize rows (length hands.old)) }
    ensures range { (result ≡ pos 0) ⊎ (result ≡ bad_shape) ⊎ (result ≡ memory) }
{
    if hands.len() > MOST_PASSES {
        return BAD_SHAPE;
    }
    let passes = hands.len() as u32;
    let shape = Shape {
        rows,
        passes,
        format,
    };
    match Store::open(alloc, shape) {
        Ok((store, seats)) => hand_store(alloc, store, seats, hands),
        Err(OpenFault::Shape) => BAD_SHAPE,
        Err(OpenFault::Memory(_)) => MEMORY,
    }
}

/// As `mst_open` of `mst_exports` says.
pub fn open(alloc: Global, format: u32, rows: u32, hands: &mut [PaddedHand]) -> i32
    ensures opened { result ≡ pos 0 → Opened format rows hands.new }
    ensures empty { result ≢ pos 0 → AllEmpty hands.new }
    ensures size { result ≡ bad_shape
        ↔ IsSome (named format) × (¬ (IsSize rows (length hands.old))) }
    ensures format { result ≡ unknown_format ↔ (named format ≡ None) }
    ensures range { (result ≡ pos 0) ⊎ (result ≡ unknown_format) ⊎ (result ≡ bad_shape)
        ⊎ (result ≡ memory) }
{
    close_all(alloc, hands);
    match format_named(format) {
        Some(format) => open_in(alloc, format, rows, hands),
        None => UNKNOWN_FORMAT,
    }
}
