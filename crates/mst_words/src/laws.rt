//! Laws of the rule, each proved as the contract of a function that does nothing.
ghost use Rattle.std.specs.Prelude.{◌≡◌, ◌^◌, ◌<◌, ◌++◌, ℕ, List, [], ◌∷◌, length, slice_index, Option};
ghost use Rattle.atomic_table.specs.Table.{Me, Step};
ghost use Rattle.mst_arena.specs.Lives.{State};
ghost use Rattle.mst_words.specs.declared.view.DeskState.{DeskState};
ghost use Rattle.mst_pin.specs.declared.event.Event as core;
ghost use Rattle.mst_pin.specs.declared.event.Event.TheVariants.{Publish};
ghost use Rattle.mst_key.specs.declared.history.Event.{Event};
ghost use Rattle.mst_key.specs.History.{events_of};
ghost use Rattle.mst_words.specs.declared.view.View.{View};
ghost use Rattle.mst_words.specs.declared.view.Shape.{Shape};
ghost use Rattle.mst_words.specs.Layout.{row_words, row_word, current_word};
ghost use Rattle.mst_words.specs.Records.{IsLive};
ghost use Rattle.mst_words.specs.Notes.{note_of, having_heard};
ghost use Rattle.mst_words.specs.Steps.{IsDealer, IsWritable, IsReady, publishes};
ghost use Rattle.mst_words.specs.Stored.{stored, Reaches, version_of};
ghost use Rattle.mst_words.specs.Laws.{Table, IsRuled, HaveSeen, HaveMade, HasTurn, IsWordOf, Tells, IsPublication, IsOther, count_of, HasCounted};
ghost use Rattle.mst_words.specs.Deeds.{Deed, MayDo, told_by};
ghost use Rattle.mst_words.specs.Moves.{IsReachedBy, IsOpened, Does, moves_of, MakesCurrent, ChangesSeats, IsLedTo};
ghost use Rattle.mst_words.specs.World.{SeatAt, newcomer};

/// What the rule says of the history and of what may be written.
pub fn rule_laws()
    // if seats have seen the same, there is one history
    ensures one { (z : Shape) (s t : Table) (a : IsRuled z s) (b : IsRuled z t)
        → HaveSeen s t → HaveSeen t s → b.parts.log ≡ a.parts.log }
    // if passes have made the same events, both histories have these, each pass's in its order
    ensures made { (z : Shape) (s t : Table) (a : IsRuled z s) (b : IsRuled z t)
        → HaveMade s t → HaveMade t s
        → (p : ℕ) → events_of p b.parts.log ≡ events_of p a.parts.log }
    // so both have as many versions
    ensures versions { (z : Shape) (s t : Table) (a : IsRuled z s) (b : IsRuled z t)
        → HaveMade s t → HaveMade t s → length b.parts.log ≡ length a.parts.log }
    // no word of a live record is writable, nor one of a row that stands for its version
    ensures stays { (z : Shape) (s : Table) (a : IsRuled z s) (v : View) (r i : ℕ) → HasTurn s v
        → IsLive a.parts.cur s.views r → IsWordOf z.rows r (a.parts.used r) i
        → IsWritable (stored z.format) v i → ⊥ }
    // a row that is writable is reached by no live version
    ensures row { (z : Shape) (s : Table) (a : IsRuled z s) (v : View) (r x k : ℕ) → HasTurn s v
        → IsLive a.parts.cur s.views r → x < z.rows → k < row_words
        → IsWritable (stored z.format) v (row_word z.rows x k)
        → Reaches a.parts.desk (version_of a.parts.desk r) x → ⊥ }
    // the history grows by its event at a publication, and stays at every other step
    ensures grows { (z : Shape) (s t : Table) (a : IsRuled z s) (b : IsRuled z t) (e : Event)
        → IsPublication e s t → b.parts.log ≡ a.parts.log ++ e ∷ [] }
    ensures keeps { (z : Shape) (s t : Table) (a : IsRuled z s) (b : IsRuled z t)
        → IsOther s t → b.parts.log ≡ a.parts.log }
    // the words say what the history leaves
    ensures words { (z : Shape) (s : Table) (a : IsRuled z s) → Tells z s a.parts.log }
{}

/// What the rule says of the core of pins: one list of its events leads to the table, and each step
/// carries it on.
pub fn path_laws()
    // no event led to the table as it is opened
    ensures opens { (z : Shape) (s : Table) (a : IsRuled z s) → IsOpened z s
        → IsReachedBy z [] s a }
    // from each table that is as the rule says a seat can do each deed that it may do
    ensures can { (z : Shape) (s : Table) (a : IsRuled z s) (deed : Deed) (id i : ℕ)
        (me : Me (Option State) View) → SeatAt s.views id me.0 → MayDo deed i me
        → slice_index s.words i < 2 ^ 64 → (t : Table) × IsRuled z t
        × (d : Does deed s t) × (d.makes.id ≡ id) × (d.makes.before ≡ me) }
    // and publish a record that is ready
    ensures can_publish { (z : Shape) (s : Table) (a : IsRuled z s) (id into : ℕ)
        (me : Me (Option State) View) (e : Event) (d : DeskState) (used : List ℕ)
        → SeatAt s.views id me.0 → IsReady (stored me.0.format) into e d used me.0
        → slice_index s.words current_word < 2 ^ 64 → (t : Table) × IsRuled z t
        × (p : MakesCurrent into s t) × (p.publishes.made.id ≡ id)
        × (p.publishes.made.before ≡ me) }
    // a deed adds its events
    ensures deed { (z : Shape) (s t : Table) (a : IsRuled z s) (b : IsRuled z t)
        (moves : List core.Event) (deed : Deed) (d : Does deed s t) → IsReachedBy z moves s a
        → IsReachedBy z (moves_of deed d.makes.before.0 ++ moves) t b }
    // a publication adds one of its record
    ensures publication { (z : Shape) (s t : Table) (a : IsRuled z s) (b : IsRuled z t)
        (moves : List core.Event) (into : ℕ) → MakesCurrent into s t → IsReachedBy z moves s a
        → IsReachedBy z (Publish into 0 ∷ moves) t b }
    // a seat that is added or hears a note adds none
    ensures seats { (z : Shape) (s t : Table) (a : IsRuled z s) (b : IsRuled z t)
        (moves : List core.Event) → ChangesSeats s t → IsReachedBy z moves s a
        → IsReachedBy z moves t b }
    // so each table is reached by exactly the events of the steps that led to it
    ensures run { (z : Shape) (tables : List Table) (moves : List core.Event) (t : Table)
        (b : IsRuled z t) → IsLedTo z tables moves t → IsReachedBy z moves t b }
    // one list leads to one current record
    ensures current { (z : Shape) (moves : List core.Event) (s t : Table) (a : IsRuled z s)
        (b : IsRuled z t) → IsReachedBy z moves s a → IsReachedBy z moves t b
        → b.parts.cur ≡ a.parts.cur }
    // to one transfer that waits
    ensures due { (z : Shape) (moves : List core.Event) (s t : Table) (a : IsRuled z s)
        (b : IsRuled z t) → IsReachedBy z moves s a → IsReachedBy z moves t b
        → b.parts.due ≡ a.parts.due }
    // and to one pin of each pass
    ensures pin { (z : Shape) (moves : List core.Event) (s t : Table) (a : IsRuled z s)
        (b : IsRuled z t) → IsReachedBy z moves s a → IsReachedBy z moves t b
        → (i j : ℕ) (v w : View) → SeatAt s.views i v → SeatAt t.views j w → 0 < v.number
        → w.number ≡ v.number → w.pin ≡ v.pin }
{}

/// What each step adds to its seat's count of those whose answer depends on what other passes do.
/// The seat of a pass stays that of its pass.
pub fn count_laws()
    // a deed adds what it counts
    ensures deed { (deed : Deed) (st : Step (Option State)) (m m' : Me (Option State) View) (r : ℕ)
        → told_by deed st m r m' → HasCounted (count_of deed) m.0 m'.0 }
    // a publication one
    ensures publication { (e : Event) (d : DeskState) (st : Step (Option State))
        (m m' : Me (Option State) View) (r : ℕ) → publishes e d st m r m'
        → HasCounted 1 m.0 m'.0 }
    // a note that is heard one
    ensures heard { (v note : View) → HasCounted 1 v (having_heard v note) }
    // a note, and so a courier, is no pass
    ensures note { (v : View) → (note_of v).number ≡ 0 }
    // what the dealer deals is one
    ensures dealt { (m : Me (Option State) View) → IsDealer m → 0 < (newcomer m.0).number }
{}
