//! Laws of the definitions, each proved as the contract of a function that does nothing.
ghost use Rattle.std.specs.Prelude.{◌≡◌, ◌<◌, ◌≤◌, ◌+◌, ◌++◌, ◌↔◌, ℕ, List, [], ◌∷◌, false, Some, length, replicate, slice_get};
ghost use Rattle.std.specs.List.{AllByRecursion};
ghost use Rattle.mst_key.specs.History.{History, after, format_after};
ghost use Rattle.mst_key.specs.declared.format.Format.{Format};
ghost use Rattle.mst_key.specs.declared.history.Event.{Event};
ghost use Rattle.mst_key.specs.Map.{Pair};
ghost use Rattle.mst_node.specs.Cost.{cost, same_format};
ghost use Rattle.mst_node.specs.Stays.{held};
ghost use Rattle.mst_node.specs.Text.{highest_count};
ghost use Rattle.mst_node.specs.Tree.{node, tree, pairs};
ghost use Rattle.mst_arena.specs.Content.{Content};
ghost use Rattle.mst_arena.specs.Lives.{State, version, next, reaches, SameReach, free_count};
ghost use Rattle.mst_arena.specs.Lists.{In, times};
ghost use Rattle.mst_arena.specs.declared.life.Life.TheVariants.{Free};
ghost use Rattle.mst_arena.specs.declared.row.Root.{Root};
ghost use Rattle.mst_arena.specs.Standing.{Placed, used, IsDistinct, Stands, numbers};
ghost use Rattle.mst_arena.specs.declared.life.Life.{Life};
ghost use Rattle.mst_path.specs.Changing.{AreOld, MapStands, OnlyFreeWritten};
ghost use Rattle.mst_arena.specs.Ages.{placed_nodes, HasAges};
ghost use Rattle.mst_path.specs.Ages.{IsAged, HasPlace};
ghost use Rattle.mst_path.specs.Made.{IsMade};
ghost use Rattle.mst_path.specs.Moves.{Moves};
ghost use Rattle.mst_path.specs.Takes.{Takes, KeepsBut};
ghost use Rattle.mst_path.specs.Planting.{IsTreeOf, node_count};
ghost use Rattle.mst_path.specs.Reached.{ReachesExactly, TogetherReach, Changes, advanced, swept_by, IsSettled};
ghost use Rattle.mst_path.specs.Versions.{HasMap, Kept, numbers_kept, AreNumbers, rows_kept, Keeps};

/// Which rows a version reaches after a put or a remove, the advance after it, and a sweep; for any
/// set of versions that are live.
///
/// `before` and `after` are the numbers of the rows that stand before and after the change. A state
/// is settled if no write is under way.
pub fn reach_laws()
    // each version up to the current one reaches the rows that it reached before
    ensures older { (old new : State) (before after : List ℕ) (into : ℕ)
        → Changes old new before after
        → SameReach (λ v. v ≤ version old) old.lives (advanced into new).lives }
    // the new version is the one that was to come, and it reaches exactly the rows that stand after
    // the change
    ensures number { (old new : State) (before after : List ℕ) (into : ℕ)
        → Changes old new before after → into < length old.versions
        → version (advanced into new) ≡ next old }
    ensures newest { (old new : State) (before after : List ℕ) (into : ℕ)
        → Changes old new before after → into < length old.versions → IsSettled old
        → ReachesExactly old.lives (version old) before
        → ReachesExactly (advanced into new).lives (version (advanced into new)) after }
    ensures settled { (old new : State) (before after : List ℕ) (into : ℕ)
        → Changes old new before after → into < length old.versions → IsSettled old
        → IsSettled (advanced into new) }
    // there are as many rows as before
    ensures rows { (old new : State) (before after : List ℕ) → Changes old new before after
        → length new.lives ≡ length old.lives }
    // a tree that is planted is a change from no rows
    ensures planted { (old new : State) (rows : List ℕ) → Takes old new rows
        → Changes old new [] rows }
    // and a tree that is planted while the one that stands is felled, a change of all rows
    ensures felled { (old mid new : State) (before after : List ℕ) → Takes old mid after
        → Moves mid new [] before → Changes old new before after }
    // what the current version reaches may be changed: it is alive, and of that version or an
    // earlier one
    ensures old { (s : State) (rows : List ℕ) → IsSettled s
        → ReachesExactly s.lives (version s) rows → AreOld s rows }
    // a sweep leaves the rows of each version that is live
    ensures sweep { (s : State) (live : List ℕ)
        → SameReach (λ v. In v live) s.lives (swept_by live s).lives }
    ensures settled_sweep { (s : State) (live : List ℕ) → IsSettled s
        → IsSettled (swept_by live s) }
    // after a sweep by versions of which the current one is one, a row is free exactly if none of
    // them reaches it
    ensures free { (s : State) (live : List ℕ) (r : ℕ) → IsSettled s → In (version s) live
        → r < length s.lives → slice_get (swept_by live s).lives r ≡ Some Free
        ↔ ((v : ℕ) → In v live → reaches s.lives v r ≡ false) }
    // so all rows are free but those that they reach
    ensures count { (s : State) (live rows : List ℕ) → IsSettled s → In (version s) live
        → IsDistinct rows → TogetherReach s.lives live rows
        → free_count (swept_by live s).lives + length rows ≡ length s.lives }
    ensures count_alone { (s : State) (rows : List ℕ) → IsSettled s → IsDistinct rows
        → ReachesExactly s.lives (version s) rows
        → free_count (swept_by (version s ∷ []) s).lives + length rows ≡ length s.lives }
{}

/// The maps of versions, from one write to the next. The map of a version that is live stays as it
/// is, whatever is written after it, and the rows on which no map of a live version stands are
/// free.
///
/// `kept` are the versions that are kept, each with its format, its root and its map: the current
/// one and any earlier ones. They may be of both formats.
pub fn version_laws()
    // a new desk keeps the empty map
    ensures open { (f : Format) (content : Content) (at : Root) (rows records first : ℕ)
        → 0 < records
        → Stands f content at []
        → Keeps content
        (record { current = 0; versions = replicate records first; lives = replicate rows Free })
        (record { number = first; format = f; root = at; pairs = [] } ∷ []) }
    // a write that is advanced adds its version, and leaves the map of each version that is kept
    ensures write { (f g : Format) (old new : State) (before after : Content) (root at : Root)
        (m n : List Pair)
        (kept : List Kept) (into : ℕ) (has : HasMap f before old.lives (version old) root m)
        (stands : Stands g after at n) → Changes old new (numbers has.stands) (numbers stands)
        → OnlyFreeWritten old before after → into < length old.versions → Keeps before old kept
        → Keeps after (advanced into new)
        (record { number = next old; format = g; root = at; pairs = n } ∷ kept) }
    // so does a map that is planted in place of the empty map
    ensures plant { (f g : Format) (old new : State) (before after : Content) (root at : Root)
        (n : List Pair)
        (kept : List Kept) (into : ℕ) (stands : Stands g after at n)
        → HasMap f before old.lives (version old) root [] → Takes old new (numbers stands)
        → KeepsBut (numbers stands) before after → into < length old.versions
        → Keeps before old kept
        → Keeps after (advanced into new)
        (record { number = next old; format = g; root = at; pairs = n } ∷ kept) }
    // and so does a map that is planted in another format, while its tree in the first is felled
    ensures migrate { (f g : Format) (old mid new : State) (before after : Content)
        (root at : Root) (m : List Pair) (kept : List Kept) (into : ℕ)
        (has : HasMap f before old.lives (version old) root m) (stands : Stands g after at m)
        → Takes old mid (numbers stands) → Moves mid new [] (numbers has.stands)
        → KeepsBut (numbers stands) before after → into < length old.versions
        → Keeps before old kept
        → Keeps after (advanced into new)
        (record { number = next old; format = g; root = at; pairs = m } ∷ kept) }
    // a version that is not the current one may be forgotten
    ensures forget { (content : Content) (s : State) (k : Kept) (xs ys : List Kept)
        → In (version s) (numbers_kept (xs ++ ys)) → Keeps content s (xs ++ k ∷ ys)
        → Keeps content s (xs ++ ys) }
    // a sweep by the versions that are kept leaves their maps
    ensures sweep { (content : Content) (s : State) (live : List ℕ) (kept : List Kept)
        → AreNumbers live kept → Keeps content s kept → Keeps content (swept_by live s) kept }
    // after it a row is free exactly if none of their maps stands on it
    ensures free { (content : Content) (s : State) (live : List ℕ) (kept : List Kept) (r : ℕ)
        → AreNumbers live kept → (keeps : Keeps content s kept) → r < length s.lives
        → slice_get (swept_by live s).lives r ≡ Some Free
        ↔ (times r (rows_kept content s.lives kept keeps.maps) ≡ 0) }
    ensures count { (content : Content) (s : State) (live rows : List ℕ) (kept : List Kept)
        → AreNumbers live kept → (keeps : Keeps content s kept) → IsDistinct rows
        → ((r : ℕ) → In r rows ↔ In r (rows_kept content s.lives kept keeps.maps))
        → free_count (swept_by live s).lives + length rows ≡ length s.lives }
    // a map stands on a row for each pair and one for each node; if no other version is kept, all
    // others are free
    ensures rows { (f : Format) (content : Content) (at : Root) (m : List Pair)
        (stands : Stands f content at m)
        → length (numbers stands) ≡ length m + node_count (tree f m) }
    ensures room { (f : Format) (content : Content) (s : State) (at : Root) (m : List Pair)
        → IsSettled s
        → HasMap f content s.lives (version s) at m
        → free_count (swept_by (version s ∷ []) s).lives + (length m + node_count (tree f m))
        ≡ length s.lives }
{}

/// How old the rows of a node are. A put or a remove leaves a node on the rows on which it stood,
/// or makes it anew in new rows, and the latter only if its tree did not stand before. So the
/// versions that reach a row of a node are those since which the node's tree has stood.
pub fn age_laws()
    ensures node { (f : Format) (old new : State) (before after : Content) (root at : Root)
        (m n : List Pair) (stood : Stands f before root m) (stands : Stands f after at n)
        → AreOld old (numbers stood) → Changes old new (numbers stood) (numbers stands)
        → OnlyFreeWritten old before after → IsMade new stands.tree.placed
        → free_count new.lives + cost f m n ≡ free_count old.lives
        → AllByRecursion (IsAged f f new stood.tree.placed) (placed_nodes stands.tree.placed) }
    // so is each node of a tree that is planted in another format, while the one that stood is
    // felled
    ensures migrated { (f g : Format) (old new : State) (before after : Placed)
        → same_format g f ≡ false → Moves old new (used after) (used before)
        → AllByRecursion (IsAged f g new before) (placed_nodes after) }
    // the empty map has no rows
    ensures open { (first : Format) (content : Content) (lives : List Life) (at : Root)
        (stands : Stands first content at []) → HasAges first lives [] stands.tree.placed }
    // a write that is advanced, with its event
    ensures write { (first : Format) (old new : State) (before now : Content) (root at : Root)
        (h : History) (e : Event) (into : ℕ)
        (stood : Stands (format_after first h) before root (after h))
        (stands : Stands (format_after first (h ++ e ∷ [])) now at (after (h ++ e ∷ [])))
        → ReachesExactly old.lives (version old) (numbers stood)
        → Changes old new (numbers stood) (numbers stands)
        → AllByRecursion
        (IsAged (format_after first h) (format_after first (h ++ e ∷ [])) new stood.tree.placed)
        (placed_nodes stands.tree.placed)
        → IsSettled old → version old ≡ length h → HasAges first old.lives h stood.tree.placed
        → HasAges first (advanced into new).lives (h ++ e ∷ []) stands.tree.placed }
    // it leaves the ages of the versions before it
    ensures older { (first : Format) (old new : State) (before after : List ℕ) (into : ℕ)
        (h : History) (p : Placed) → Changes old new before after → length h ≤ version old
        → HasAges first old.lives h p → HasAges first (advanced into new).lives h p }
    // so does a sweep by versions of which this is one
    ensures sweep { (first : Format) (s : State) (live : List ℕ) (h : History) (p : Placed)
        → In (length h) live → ReachesExactly s.lives (length h) (used p)
        → HasAges first s.lives h p → HasAges first (swept_by live s).lives h p }
{}

/// What the kept versions of a history leave free. `live` names them, the current one and any
/// before it.
pub fn room_laws()
    // after a sweep by them all rows are free but those that they hold
    ensures held { (first : Format) (s : State) (h : History) (live : List ℕ) → IsSettled s
        → In (version s) live
        → ((v : ℕ) → In v live → (v ≤ length h) × HasPlace first s.lives h v)
        → free_count (swept_by live s).lives + held first h live ≡ length s.lives }
{}

/// What the calls and the laws require can be met.
pub fn premises_can_be_met()
    // each map of at most 65,535 pairs has its tree, which may be planted
    ensures tree { (f : Format) (m : List Pair) → length m ≤ highest_count
        → IsTreeOf f (tree f m) m }
    // if no write is under way, the map of the current version stands and may be changed
    ensures stands { (f : Format) (content : Content) (s : State) (at : Root) (m : List Pair)
        → IsSettled s → HasMap f content s.lives (version s) at m → MapStands f content s at }
    // the versions that are kept have a list of their numbers, and its parts may change places
    ensures numbers { (kept : List Kept) (xs ys : List ℕ) → numbers_kept kept ≡ xs ++ ys
        → AreNumbers (ys ++ xs) kept }
{}
