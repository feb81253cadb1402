//! Laws of the definitions that contracts cite, each proved as the contract of a function that does
//! nothing.
ghost use Rattle.std.specs.Prelude.{◌≡◌, ◌⊎◌, ◌+◌, ◌<◌, ◌≤◌, ℕ, List, [], ◌∷◌, ◌++◌, length};
ghost use Rattle.mst_key.specs.declared.format.Format.{Format};
ghost use Rattle.mst_key.specs.declared.history.Change.{Change};
ghost use Rattle.mst_key.specs.declared.history.Change.TheVariants.{Put, Remove};
ghost use Rattle.mst_key.specs.declared.history.Change.TheVariants as change;
ghost use Rattle.mst_key.specs.declared.history.Edit.{Edit};
ghost use Rattle.mst_key.specs.History.{History, Reply, done, events_of, IsPrefix};
ghost use Rattle.mst_key.specs.Map.{Pair};
ghost use Rattle.mst_words.specs.Notes.{IsOfPasses};
ghost use Rattle.mst_batching.specs.Applying.{RefusesBatch};
ghost use Rattle.mst_batching.specs.declared.faults.ApplyFault.{ApplyFault};
ghost use Rattle.mst_batching.specs.declared.faults.ApplyFault.TheVariants.{Busy, VersionsSpent, NoRoom};
ghost use Rattle.mst_versions.specs.declared.faults.WriteFault.TheVariants as write;
ghost use Rattle.mst_store.specs.Passes.{Known, Looks, made_by, AreFree, Wrote, HasRoom, LacksRoom, Refuses};
ghost use Rattle.mst_store.specs.Preparing.{Prepares, published};
ghost use Rattle.mst_store.specs.Settling.{Met};
ghost use Rattle.mst_versions.specs.Writes.{rows_needed};

/// Each event that a pass sees is of a pass of its store. In a store of one pass all of them are
/// its own, so its version grows by its own writes alone.
pub fn event_laws()
    ensures alone { (log : History) → IsOfPasses 1 log → events_of 1 log ≡ log }
    // an event of pass 3 is of one of three passes, and of none of two; no event is of pass 0
    ensures third { (change : Change) → IsOfPasses 3 (record { pass = 3; change = change } ∷ []) }
    ensures no_third { (change : Change)
        → IsOfPasses 2 (record { pass = 3; change = change } ∷ []) → ⊥ }
    ensures no_pass { (passes : ℕ) (change : Change)
        → IsOfPasses passes (record { pass = 0; change = change } ∷ []) → ⊥ }
{}

/// Passes that have met have seen one history. It begins with what each had seen, so one of the two
/// had seen the beginning of what the other had.
pub fn meeting_laws()
    ensures one { (p q m n : Known) → Met p q m n
        → (m.seen ≡ n.seen) × IsPrefix p.seen m.seen × IsPrefix q.seen m.seen }
    ensures either { (p q m n : Known) → Met p q m n
        → IsPrefix p.seen q.seen ⊎ IsPrefix q.seen p.seen }
    // in a store of two passes it has the events of these two and no others
    ensures two { (p q m n : Known) → Met p q m n → p.store.passes ≡ 2 → p.number ≡ 1
        → q.number ≡ 2 → length m.seen ≡ length p.mine + length q.mine }
{}

/// A change finds room or lacks it, and never both. A batch of at most one edit is never refused
/// memory, and an empty one never room.
pub fn room_laws()
    ensures not_both { (rows : ℕ) (format : Format) (m : List Pair) (change : Change)
        → HasRoom rows format m change → LacksRoom rows format m change → ⊥ }
    ensures one { (rows : ℕ) (format : Format) (m : List Pair) (change : Change)
        → (LacksRoom rows format m change → ⊥) → HasRoom rows format m change }
    // the first put takes two rows, of its entry and its node; a remove from the empty map none
    ensures first_put { (format : Format) (k v : List ℕ)
        → HasRoom 2 format [] (Put k v) × LacksRoom 1 format [] (Put k v) }
    ensures no_remove { (format : Format) (k : List ℕ) → HasRoom 0 format [] (Remove k) }
    ensures no_edits { (fault : ApplyFault) (p q : Known) → RefusesBatch fault [] p q
        → (fault ≡ Busy) ⊎ (fault ≡ VersionsSpent) }
    ensures one_edit { (fault : ApplyFault) (edit : Edit) (p q : Known)
        → RefusesBatch fault (edit ∷ []) p q
        → (fault ≡ Busy) ⊎ (fault ≡ VersionsSpent) ⊎ (fault ≡ NoRoom) }
{}

/// How many rows are free decides whether the next write finds room, if it finds the history and
/// the pinned versions that were found when they were counted. A change that needs at most that
/// many is not refused for room, and one that needs more is not made.
pub fn free_rows_laws()
    ensures enough { (free : ℕ) (change : Change) (p q : Known) → AreFree free p
        → rows_needed p.store.format p.seen change ≤ free
        → q.seen ≡ p.seen → q.found ≡ p.found → Refuses write.NoRoom change p q → ⊥ }
    ensures too_few { (free : ℕ) (change : Change) (answered : Reply) (p q : Known)
        → AreFree free p → free < rows_needed p.store.format p.seen change
        → q.seen ≡ p.seen ++ made_by p change ∷ [] → q.found ≡ p.found
        → Wrote (made_by p change) p answered q → ⊥ }
{}

/// A batch that was prepared and then published was written, and one that was prepared was seen by
/// nobody: its pass has seen a history with no event of it.
pub fn preparing_laws()
    ensures wrote { (edits : List Edit) (p r : Known) → Prepares edits p r
        → Wrote (made_by p (change.Batch edits)) p done (published edits r) }
    ensures nothing { (edits : List Edit) (p r : Known) → Prepares edits p r → Looks p r }
{}
