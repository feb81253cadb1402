//! The theorem of a store in one statement, and what it is in real time.
ghost use Rattle.std.specs.Prelude.{◌≡◌, ◌<◌, ◌≤◌, ◌+◌, ◌++◌, ℕ, Bool, List, [], ◌∷◌, All, filter, length, Some};
ghost use Rattle.mst_key.specs.declared.history.Change.{Change};
ghost use Rattle.mst_key.specs.History.{History, Reply, events_of, IsPrefix};
ghost use Rattle.mst_words.specs.declared.view.Shape.{Shape};
ghost use Rattle.mst_words.specs.declared.view.View.{View};
ghost use Rattle.mst_words.specs.Deeds.{pinning};
ghost use Rattle.mst_words.specs.Laws.{Table, IsRuled, IsPublication};
ghost use Rattle.mst_words.specs.Moves.{Does};
ghost use Rattle.mst_words.specs.World.{SeatAt};
ghost use Rattle.mst_key.specs.declared.history.Event.{Event};
ghost use Rattle.mst_store.specs.Passes.{StoreId, Known, HasShape, Wrote};
ghost use Rattle.mst_store.specs.Settling.{AreAllPasses, Settled};
ghost use Rattle.mst_theorem.specs.Headline.{Operation, Call, wrote, IsHonest, Holds, IsHistoryOf, IsNow, IsOneOrder, IsRun, NeverFalls, Sits, rank};
ghost use Rattle.mst_theorem.specs.ByContract.{ByContract};
ghost use Rattle.mst_theorem.specs.Time.{ByPoints, GoesOn, HasPoint};

/// Each call of a pass, of a pinned one or of a prepared batch is an operation of the one order:
/// what its contract says is all that the order asks of it.
pub fn call_laws()
    ensures honest { (o : Operation) (p q : Known) → ByContract o p q → IsHonest o p q }
{}

/// Whatever the passes of one store do, their calls have one order in which the one-thread ordered
/// map, asked by one thread, gives the answers that they got. It keeps the order of each pass's
/// calls, and its writes are exactly the events of the one history. So the store is sequentially
/// consistent. Of calls that come back one after another, and of which each had seen as far as
/// those before it, the order is that in which they came back.
pub fn headline()
    // of any run, and any history that holds what its passes have seen and done
    ensures one_order { (store : StoreId) (run : List Call) (now : ℕ → Known) (log : History)
        → IsRun store run now → IsHistoryOf store now log
        → (order : List Call) × IsOneOrder store run log order }
    // so of passes that settle
    ensures settled { (run : List Call) (now : ℕ → Known) (free held free' held' : List Known)
        (w : AreAllPasses (free ++ held)) (t : Settled free held free' held')
        → IsRun w.store run now → All (IsNow w.store now) (free ++ held)
        → (order : List Call) × IsOneOrder w.store run t.log order }
    // and between any two steps, with what the words of the table are then
    ensures moment { (z : Shape) (s : Table) (a : IsRuled z s) (store : StoreId) (run : List Call)
        (now : ℕ → Known) → HasShape z store → IsRun store run now
        → ((n : ℕ) → 0 < n → n ≤ store.passes → Sits s (now n)) → Holds z s a store run }
    // a call has seen as far as another, if its pass knew of as many events when it began as the
    // other's pass when that one ended: a version number in a message tells that
    ensures told { (a b : Call) → IsHonest b.operation b.old b.new
        → length a.new.seen ≤ length b.old.seen → rank a ≤ rank b }
    // where each call has seen as far as all before it, the run itself is the order
    ensures linear { (store : StoreId) (run order : List Call) (log : History)
        → IsOneOrder store run log order → NeverFalls run → order ≡ run }
    // two calls that are picked out of the run stand in the order as they stand in the run, if the
    // pass of the second had seen as many events when it began as that of the first when it ended
    ensures pair { (store : StoreId) (run order : List Call) (log : History)
        (picked : Call → Bool) (a b : Call) → IsOneOrder store run log order
        → filter picked run ≡ a ∷ b ∷ [] → IsHonest b.operation b.old b.new
        → length a.new.seen ≤ length b.old.seen → filter picked order ≡ a ∷ b ∷ [] }
{}

/// A version number is a note of what a pass has seen. Of two passes of one store that have seen as
/// many events, or more, one has seen all that the other has: so whoever is told a number, and
/// looks until it has seen as many events, has then seen all that led to it.
pub fn note_laws()
    // where there is a history that begins with what both have seen
    ensures number { (p q : Known) (log : History) → IsPrefix p.seen log → IsPrefix q.seen log
        → length p.seen ≤ length q.seen → IsPrefix p.seen q.seen }
    // there is one between any two steps
    ensures moment { (z : Shape) (s : Table) (a : IsRuled z s) (i j : ℕ) (v w : View)
        → SeatAt s.views i v → SeatAt s.views j w → length v.seen ≤ length w.seen
        → IsPrefix v.seen w.seen }
    // and so the number that a write made tells of its event, and of all before it
    ensures write { (e : Event) (p q r : Known) (answered : Reply) (log : History)
        → Wrote e p answered q → IsPrefix q.seen log → IsPrefix r.seen log
        → (n : ℕ) → q.made ≡ Some n → n ≤ length r.seen → IsPrefix q.seen r.seen }
{}

/// Real time, of steps: the history only grows from step to step, and each step at which a call
/// takes effect finds the whole of it. So it has all that any pass had seen or written before.
///
/// By `points` a store is linearizable in runs of atomic steps, pin and publication being the
/// linearization points. That stands on one premise: the point of a call lies within the call, of a
/// read of a pinned pass within its pin. Of writes it is proved (`within`). Of reads no contract
/// says it, but only that they make one step whose answer depends on others (the clauses `once`);
/// that this step is the pin is the code's, and PROTOCOL says what shows it.
pub fn time_laws()
    ensures later { (z : Shape) (s t : Table) (a : IsRuled z s) (b : IsRuled z t)
        (steps : List Table) → GoesOn z s steps t → IsPrefix a.parts.log b.parts.log }
    // a pin is of the whole history
    ensures pin { (z : Shape) (s t : Table) (a : IsRuled z s) (b : IsRuled z t)
        (d : Does pinning s t) → d.makes.after.0.pinned_history ≡ a.parts.log }
    // and so is a write, whose event follows on it
    ensures write { (z : Shape) (s t : Table) (a : IsRuled z s) (b : IsRuled z t) (e : Event)
        (p : IsPublication e s t) → p.made.before.0.seen ≡ a.parts.log }
    // so what a pass has seen at any step, each later pin and each later write has seen
    ensures seen { (z : Shape) (s t u : Table) (a : IsRuled z s) (b : IsRuled z t)
        (c : IsRuled z u) (i : ℕ) (v : View) (steps : List Table) (d : Does pinning t u)
        → SeatAt s.views i v → GoesOn z s steps t
        → IsPrefix v.seen d.makes.after.0.pinned_history }
    ensures followed { (z : Shape) (s t u : Table) (a : IsRuled z s) (b : IsRuled z t)
        (c : IsRuled z u) (i : ℕ) (v : View) (steps : List Table) (e : Event)
        (p : IsPublication e t u) → SeatAt s.views i v → GoesOn z s steps t
        → IsPrefix v.seen p.made.before.0.seen }
    // so calls that are listed in the order of their points, each a step of its own pass, stand in
    // the one order as they are listed
    ensures points { (z : Shape) (s : Table) (a : IsRuled z s) (store : StoreId)
        (run order : List Call) (log : History) (chosen : Call → Bool)
        → IsOneOrder store run log order → ByPoints z s s (filter chosen run)
        → filter chosen order ≡ filter chosen run }
    // the point of a write is one of the steps between the table at which its pass begins the call
    // and the one at which it ends
    ensures within { (z : Shape) (s t : Table) (a : IsRuled z s) (b : IsRuled z t)
        (steps : List Table) (c : Call) → IsHonest c.operation c.old c.new
        → events_of c.old.number c.old.seen ≡ c.old.mine → Sits s c.old → Sits t c.new
        → GoesOn z s steps t → (change : Change) (answered : Reply)
        → c.operation ≡ wrote change answered → HasPoint z c s steps t }
{}
