//! Laws of the core, over every list of events. Each function does nothing: its contract is the
//! law.

ghost use Rattle.std.specs.Prelude.{◌≡◌, ◌≢◌, ◌⊎◌, ◌↔◌, ℕ, List, true, false, None, Some};
ghost use Rattle.mst_pin.specs.Laws.{WritesAreBlank, SomeRecordIsFree, FromPinOn, WhilePinned, HasPinOf};
ghost use Rattle.mst_pin.specs.State.{State, opening, IsRow, IsTaken, AreUsable, Steps, Runs, row_set};
ghost use Rattle.mst_pin.specs.declared.event.Event.{Event};
ghost use Rattle.mst_pin.specs.declared.event.Event.TheVariants.{Write, Publish, Ask};
ghost use Rattle.mst_pin.specs.declared.event.Answer.{Answer};
ghost use Rattle.mst_pin.specs.declared.event.Answer.TheVariants.{Done, Yes, No};

/// A write that is taken is of a row that no current and no pinned record has, whatever events
/// came before.
pub fn writes_are_blank()
    ensures { WritesAreBlank }
{}

/// If no transfer waits, some record can be published, whatever is pinned and whatever events were
/// before: a pass has at most one pin, and there are two records more than passes.
pub fn some_record_is_free()
    ensures { SomeRecordIsFree }
{}

/// From a pin to its unpin the record keeps its rows and none of them is written, whatever other
/// events lie between. It holds from each state, and at each point on the way.
pub fn pinned_rows_stay()
    // the pass pins the record that was current, and no other
    ensures pinned { FromPinOn (λ p r s u. (r ≡ s.current) × (u.pins p ≡ Some r)) }
    ensures rows { FromPinOn (λ p r s u. (x : ℕ) → u.rows r x ≡ s.rows r x) }
    ensures unwritten { FromPinOn (λ p r s u. (x : ℕ) (v : State) → Steps u (Write x) Done v
        → s.rows r x ≡ false) }
    // a row of the record that a later version left out is not in any version again
    ensures lost { WhilePinned (λ r s t. (x : ℕ) → s.rows r x ≡ true → s.rows s.current x ≡ false
        → t.rows t.current x ≡ false) }
{}

/// A row that neither the current record nor a pinned one has may be written if no transfer waits.
/// Such rows and those of the current record may be published.
pub fn other_rows_are_free()
    ensures write { (s : State) (x : ℕ) → IsRow x → s.due ≡ None → s.rows s.current x ≡ false
        → ((p r : ℕ) → s.pins p ≡ Some r → s.rows r x ≡ false) → IsTaken s (Write x) }
    ensures publish { (s : State) (rows : ℕ)
        → ((x : ℕ) → row_set rows x ≡ true → (s.rows s.current x ≡ true) ⊎ IsTaken s (Write x))
        → AreUsable s (row_set rows) }
{}

/// An ask that is taken is answered `Yes` if no pass pins the record and `No` if some pass does,
/// and changes nothing. So a record that was found drained may be published at once, and one that
/// was found pinned may not.
pub fn asks_tell_pins()
    ensures yes { (s t : State) (r : ℕ) → Steps s (Ask r) Yes t → (p : ℕ) → s.pins p ≢ Some r }
    ensures no { (s t : State) (r : ℕ) → Steps s (Ask r) No t → (p : ℕ) × (s.pins p ≡ Some r) }
    ensures either { (s t : State) (r : ℕ) (a : Answer) → IsTaken s (Ask r) → Steps s (Ask r) a t
        → (a ≡ Yes) ⊎ (a ≡ No) }
    ensures same { (s t : State) (r : ℕ) (a : Answer) → Steps s (Ask r) a t → t ≡ s }
    ensures publish { (s t : State) (r rows : ℕ) → Steps s (Ask r) Yes t
        → AreUsable s (row_set rows) → IsTaken s (Publish r rows) }
    ensures pinned { (s t : State) (r rows : ℕ) → Steps s (Ask r) No t
        → ¬ (IsTaken s (Publish r rows)) }
    // whatever events were before: `Yes` exactly if each pass that was told the record at a pin has
    // ended that pin
    ensures ended { (passes : ℕ) (events : List Event) (answers : List Answer) (s t : State)
        (r : ℕ) (a : Answer) → Runs (opening passes) events answers s → IsTaken s (Ask r)
        → Steps s (Ask r) a t → (a ≡ Yes) ↔ ((p : ℕ) → ¬ (HasPinOf p r events answers)) }
{}
