//! Laws of the definitions that the contracts cite: the order of keys, maps, histories and layers.
//!
//! The functions here do nothing. Each clause is a proved law, by which a reader can judge the
//! definitions of `specs/`.
ghost use Rattle.std.specs.Prelude.{◌≡◌, ◌≢◌, ◌↔◌, ◌⊎◌, ◌<◌, ◌≤◌, ℕ, List, [], ◌∷◌, ◌++◌, Option, Some, None, IfSome, Contains, length};
ghost use Rattle.std.specs.Cmp.{IsTotalOrder};
ghost use Rattle.std.specs.declared.cmp.Ordering.TheVariants.{Less, Equal};
ghost use Rattle.mst_key.specs.Bytes.{IsKey, IsValue};
ghost use Rattle.mst_key.specs.Map.{Pair, key_cmp, AllBelow, AllAbove, IsMap, map_get, put, remove, map_next, map_range};
ghost use Rattle.mst_key.specs.Layer.{layer_in};
ghost use Rattle.mst_key.specs.declared.format.Format.TheVariants.{One, Two};
ghost use Rattle.mst_key.specs.declared.format.Format.{Format};
ghost use Rattle.mst_key.specs.declared.history.Change.TheVariants.{Put, Remove, Migrate, Batch};
ghost use Rattle.mst_key.specs.declared.history.Edit.{Edit};
ghost use Rattle.mst_key.specs.declared.history.Edit.TheVariants as edit;
ghost use Rattle.std.specs.List.{AllByRecursion};
ghost use Rattle.std.specs.List.Sorted.{IsPermutation};
ghost use Rattle.mst_key.specs.declared.history.Event.{Event};
ghost use Rattle.mst_key.specs.Edits.{HaveOwnKeys};
ghost use Rattle.mst_key.specs.History.{batched, value_after, IsEdited, IsSmall, singles, History, changed, changed_format, after, format_after, had, was, done, reply, change_of, key_of, events_of, IsPrefix, LeavesAlone, KeepsFormat, IsPossible};

/// The order of keys is total and bytewise; a proper prefix of a key is less than the key.
pub fn order_laws()
    ensures total { IsTotalOrder key_cmp }
    ensures equal { (a b : List ℕ) → (key_cmp a b ≡ Equal) ↔ (a ≡ b) }
    // the first byte in which two keys differ decides
    ensures bytewise { (front : List ℕ) (a b : ℕ) (xs ys : List ℕ) → a < b
        → key_cmp (front ++ a ∷ xs) (front ++ b ∷ ys) ≡ Less }
    ensures shorter_first { (front : List ℕ) (b : ℕ) (ys : List ℕ)
        → key_cmp front (front ++ b ∷ ys) ≡ Less }
{}

/// What a look-up finds after a put and after a remove, that both give maps, that a map is
/// determined by its look-ups, and where its pairs stand.
pub fn map_laws()
    ensures put_same { (m : List Pair) (k v : List ℕ) → map_get (put m k v) k ≡ Some v }
    ensures put_other { (m : List Pair) (k v q : List ℕ) → q ≢ k
        → map_get (put m k v) q ≡ map_get m q }
    ensures remove_same { (m : List Pair) (k : List ℕ) → map_get (remove m k) k ≡ None }
    ensures remove_other { (m : List Pair) (k q : List ℕ) → q ≢ k
        → map_get (remove m k) q ≡ map_get m q }
    ensures empty_is_map { IsMap [] }
    ensures put_is_map { (m : List Pair) (k v : List ℕ) → IsMap m → IsKey k → IsValue v
        → IsMap (put m k v) }
    ensures remove_is_map { (m : List Pair) (k : List ℕ) → IsMap m → IsMap (remove m k) }
    // a look-up finds exactly the pairs of the list
    ensures found { (m : List Pair) (k v : List ℕ) → IsMap m
        → (map_get m k ≡ Some v) ↔ Contains m (k, v) }
    ensures determined { (m n : List Pair) → IsMap m → IsMap n
        → ((k : List ℕ) → map_get m k ≡ map_get n k) → m ≡ n }
    // a put of the value that the key has, and a remove of an absent key, leave the map as it is
    ensures put_again { (m : List Pair) (k v : List ℕ) → IsMap m → map_get m k ≡ Some v
        → put m k v ≡ m }
    ensures remove_absent { (m : List Pair) (k : List ℕ) → IsMap m → map_get m k ≡ None
        → remove m k ≡ m }
    // the pair of a key stands between the lesser keys and the greater ones
    ensures put_adds { (front back : List Pair) (k v : List ℕ) → AllBelow front k → AllAbove back k
        → put (front ++ back) k v ≡ front ++ (k, v) ∷ back }
    ensures put_replaces { (front back : List Pair) (k v w : List ℕ) → AllBelow front k
        → AllAbove back k
        → put (front ++ (k, w) ∷ back) k v ≡ front ++ (k, v) ∷ back }
    ensures remove_takes { (front back : List Pair) (k w : List ℕ) → AllBelow front k
        → AllAbove back k
        → remove (front ++ (k, w) ∷ back) k ≡ front ++ back }
{}

/// The map that a history leaves, the order by which one history begins another, and the events of
/// a pass.
pub fn history_laws()
    ensures map { (h : History) → IsPossible h → IsMap (after h) }
    ensures step { (h : History) (e : Event) → after (h ++ e ∷ []) ≡ changed (after h) e.change }
    // a key has the value that the last change of it left, and none if it was never changed
    ensures last_put { (g h : History) (pass : ℕ) (k v : List ℕ) → LeavesAlone h k
        → map_get (after (g ++ record { pass = pass; change = Put k v } ∷ h)) k ≡ Some v }
    ensures last_remove { (g h : History) (pass : ℕ) (k : List ℕ) → LeavesAlone h k
        → map_get (after (g ++ record { pass = pass; change = Remove k } ∷ h)) k ≡ None }
    ensures no_change { (h : History) (k : List ℕ) → LeavesAlone h k → map_get (after h) k ≡ None }
    // the format is that of the last migration, or the first one if there was none
    ensures format_step { (first : Format) (h : History) (e : Event)
        → format_after first (h ++ e ∷ []) ≡ changed_format (format_after first h) e.change }
    ensures last_migration { (first to : Format) (g h : History) (pass : ℕ) → KeepsFormat h
        → format_after first (g ++ record { pass = pass; change = Migrate to } ∷ h) ≡ to }
    ensures no_migration { (first : Format) (h : History) → KeepsFormat h
        → format_after first h ≡ first }
    ensures begins_itself { (h : History) → IsPrefix h h }
    ensures begins_chain { (f g h : History) → IsPrefix f g → IsPrefix g h → IsPrefix f h }
    ensures begins_both_ways { (g h : History) → IsPrefix g h → IsPrefix h g → g ≡ h }
    // of two beginnings of one history, one begins the other
    ensures begins_one { (f g h : History) → IsPrefix f h → IsPrefix g h → IsPrefix f g
        ⊎ IsPrefix g f }
    ensures events_append { (pass : ℕ) (g h : History)
        → events_of pass (g ++ h) ≡ events_of pass g ++ events_of pass h }
    // a history between two that have the same events of a pass has them too
    ensures events_between { (pass : ℕ) (mine f g h : History) → IsPrefix f g → IsPrefix g h
        → events_of pass f ≡ mine → events_of pass h ≡ mine → events_of pass g ≡ mine }
{}

/// What the write that adds an event to a history returns: what the history had left before it.
pub fn reply_laws()
    // a put and a remove return the value that their key had
    ensures edit { (first : Format) (h : History) (pass : ℕ) (e : Edit)
        → reply first h (record { pass = pass; change = change_of e })
        ≡ had (map_get (after h) (key_of e)) }
    // in a map of whatever formats: a migration before them changes no reply of theirs
    ensures past_migration { (first other to : Format) (g h : History) (by pass : ℕ) (e : Edit)
        → reply first (g ++ record { pass = by; change = Migrate to } ∷ h)
        (record { pass = pass; change = change_of e })
        ≡ reply other (g ++ h) (record { pass = pass; change = change_of e }) }
    // a migration returns the format before it, whatever its own
    ensures migration { (first to : Format) (h : History) (pass : ℕ)
        → reply first h (record { pass = pass; change = Migrate to })
        ≡ was (format_after first h) }
    // that is the format of the last migration before it, or the first one if there was none
    ensures next_migration { (first to next : Format) (g h : History) (by pass : ℕ) → KeepsFormat h
        → reply first (g ++ record { pass = by; change = Migrate to } ∷ h)
        (record { pass = pass; change = Migrate next }) ≡ was to }
    ensures first_migration { (first to : Format) (h : History) (pass : ℕ) → KeepsFormat h
        → reply first h (record { pass = pass; change = Migrate to }) ≡ was first }
    ensures batch { (first : Format) (h : History) (pass : ℕ) (es : List Edit)
        → reply first h (record { pass = pass; change = Batch es }) ≡ done }
{}

/// What a batch leaves: the map that its edits leave one after another, but as one event.
pub fn batch_laws()
    ensures empty { (m : List Pair) → batched m [] ≡ m }
    ensures one_by_one { (h : History) (pass : ℕ) (es : List Edit)
        → after (h ++ record { pass = pass; change = Batch es } ∷ [])
        ≡ after (h ++ singles pass es) }
    ensures format { (first : Format) (h : History) (pass : ℕ) (es : List Edit)
        → format_after first (h ++ record { pass = pass; change = Batch es } ∷ [])
        ≡ format_after first h }
    ensures joined { (m : List Pair) (es fs : List Edit)
        → batched m (es ++ fs) ≡ batched (batched m es) fs }
    ensures map { (m : List Pair) (es : List Edit) → IsMap m → AllByRecursion IsSmall es
        → IsMap (batched m es) }
    // the last edit of a key decides, and a key without one keeps what it has
    ensures last_put { (m : List Pair) (es fs : List Edit) (k v : List ℕ) → (IsEdited k fs → ⊥)
        → map_get (batched m (es ++ edit.Put k v ∷ fs)) k ≡ Some v }
    ensures last_remove { (m : List Pair) (es fs : List Edit) (k : List ℕ) → (IsEdited k fs → ⊥)
        → map_get (batched m (es ++ edit.Remove k ∷ fs)) k ≡ None }
    ensures other { (m : List Pair) (es : List Edit) (q : List ℕ) → (IsEdited q es → ⊥)
        → map_get (batched m es) q ≡ map_get m q }
    ensures looked { (m : List Pair) (es : List Edit) (q : List ℕ)
        → map_get (batched m es) q ≡ value_after es q (map_get m q) }
    // so edits may be sorted, and earlier ones of a key dropped: batches that leave each key the
    // same value leave one map
    ensures alike { (m : List Pair) (es fs : List Edit) → IsMap m
        → ((q : List ℕ) → value_after es q (map_get m q) ≡ value_after fs q (map_get m q))
        → batched m es ≡ batched m fs }
    // edits of which no two are of one key leave one map in any order
    ensures any_order { (m : List Pair) (es fs : List Edit) → IsMap m → HaveOwnKeys es
        → IsPermutation es fs → batched m es ≡ batched m fs }
    // `a` and `c` have `x`; then `b` gets `y`, `a` is removed, `b` gets `z`, and `d`, which is not
    // there, is removed
    ensures worked { batched ((97 ∷ [], 120 ∷ []) ∷ (99 ∷ [], 120 ∷ []) ∷ [])
        (edit.Put (98 ∷ []) (121 ∷ []) ∷ edit.Remove (97 ∷ [])
        ∷ edit.Put (98 ∷ []) (122 ∷ []) ∷ edit.Remove (100 ∷ []) ∷ [])
        ≡ (98 ∷ [], 122 ∷ []) ∷ (99 ∷ [], 120 ∷ []) ∷ [] }
{}

/// The pair of the least key above a bound, and the first pairs between two bounds. `None` as a
/// bound does not bind.
pub fn range_laws()
    // the next pair stands in the map, above the bound, and before each other pair above it
    ensures next_above { (m : List Pair) (bound : Option (List ℕ)) (p : Pair)
        → map_next m bound ≡ Some p → Contains m p × IfSome bound (λ b. key_cmp b p.0 ≡ Less) }
    ensures next_least { (m : List Pair) (bound : Option (List ℕ)) (p q : Pair) → IsMap m
        → map_next m bound ≡ Some p → Contains m q → IfSome bound (λ b. key_cmp b q.0 ≡ Less)
        → (q ≡ p) ⊎ (key_cmp p.0 q.0 ≡ Less) }
    // if there is none, no pair stands above the bound
    ensures next_none { (m : List Pair) (bound : Option (List ℕ)) (q : Pair)
        → map_next m bound ≡ None → Contains m q → IfSome bound (λ b. key_cmp b q.0 ≡ Less) → ⊥ }
    // a span has pairs of the map in their order, at least `from`, below `to`, and no more than the
    // limit
    ensures span_within { (m : List Pair) (from to : Option (List ℕ)) (limit : ℕ) (p : Pair)
        → Contains (map_range m from to limit) p → Contains m p
        × IfSome from (λ b. key_cmp p.0 b ≢ Less) × IfSome to (λ b. key_cmp p.0 b ≡ Less) }
    ensures span_is_map { (m : List Pair) (from to : Option (List ℕ)) (limit : ℕ) → IsMap m
        → IsMap (map_range m from to limit) }
    ensures span_limit { (m : List Pair) (from to : Option (List ℕ)) (limit : ℕ)
        → length (map_range m from to limit) ≤ limit }
    // each such pair is in it, or it is full of lesser ones
    ensures span_first { (m : List Pair) (from to : Option (List ℕ)) (limit : ℕ) (q : Pair)
        → IsMap m → Contains m q → IfSome from (λ b. key_cmp q.0 b ≢ Less)
        → IfSome to (λ b. key_cmp q.0 b ≡ Less) → Contains (map_range m from to limit) q
        ⊎ ((length (map_range m from to limit) ≡ limit)
        × AllBelow (map_range m from to limit) q.0) }
{}

/// The layers of three keys in both formats: of `8`, whose SHA-256 begins with the bytes 2c 62, of
/// `4l`, with 02 7c, and of `05f`, with 00 04 0c.
pub fn layer_examples()
    ensures one_of_8 { layer_in One (56 ∷ []) ≡ 0 }
    ensures two_of_8 { layer_in Two (56 ∷ []) ≡ 1 }
    ensures one_of_4l { layer_in One (52 ∷ 108 ∷ []) ≡ 1 }
    ensures two_of_4l { layer_in Two (52 ∷ 108 ∷ []) ≡ 3 }
    ensures one_of_05f { layer_in One (48 ∷ 53 ∷ 102 ∷ []) ≡ 3 }
    ensures two_of_05f { layer_in Two (48 ∷ 53 ∷ 102 ∷ []) ≡ 6 }
{}
