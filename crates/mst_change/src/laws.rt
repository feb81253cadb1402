//! Laws of the definitions, each proved as the contract of a function that does nothing.
ghost use Rattle.std.specs.Prelude.{◌≡◌, ◌<◌, ◌≤◌, ◌+◌, ◌++◌, ℕ, List, length, true, false, None, filter};
ghost use Rattle.std.specs.Ordering.{is_lt, is_gt};
ghost use Rattle.mst_key.specs.Map.{Pair, IsMap, IsAscending, key_cmp, map_get};
ghost use Rattle.mst_key.specs.Map as map;
ghost use Rattle.mst_key.specs.declared.format.Format.{Format};
ghost use Rattle.mst_node.specs.Cost.{subtrees, same_format, same_tree, new_rows, cost, weight};
ghost use Rattle.mst_node.specs.Shape.{with_entries};
ghost use Rattle.mst_node.specs.Tree.{Tree, empty, node, Entries, last, tree, pairs, IsMst, IsUnder};
ghost use Rattle.mst_change.specs.Split.{below, above};
ghost use Rattle.mst_change.specs.Join.{join};
ghost use Rattle.mst_change.specs.Parts.{cells, first_child, last_child, with_first};
ghost use Rattle.mst_change.specs.Put.{tree_put};
ghost use Rattle.mst_change.specs.Remove.{tree_remove};
ghost use Rattle.mst_change.specs.Cost.{put_cost, remove_cost};
ghost use Rattle.std.specs.Prelude.{◌↔◌, ◌∷◌, []};
ghost use Rattle.mst_key.specs.declared.history.Edit.{Edit};
ghost use Rattle.mst_key.specs.declared.history.Edit.TheVariants as edit;
ghost use Rattle.mst_key.specs.History.{batched};
ghost use Rattle.mst_node.specs.Cost.{is_subtree};
ghost use Rattle.mst_change.specs.Batch.{tree_batched, rows_beside, HasOnTop};

/// A tree split at a key: two search trees of no higher layers, with the pairs below the key and
/// the pairs above it. If all goes to one side, that side is the tree itself.
pub fn split_laws()
    ensures below { (t : Tree) (k : List ℕ) → IsAscending (pairs t)
        → pairs (below k t) ≡ filter (λ p. is_lt (key_cmp p.0 k)) (pairs t) }
    ensures above { (t : Tree) (k : List ℕ) → IsAscending (pairs t)
        → pairs (above k t) ≡ filter (λ p. is_gt (key_cmp p.0 k)) (pairs t) }
    ensures search_trees { (format : Format) (t : Tree) (k : List ℕ) → IsMst format t
        → IsMst format (below k t) × IsMst format (above k t) }
    ensures layers { (format : Format) (t : Tree) (k : List ℕ) (l : ℕ) → IsMst format t
        → IsUnder l t → IsUnder l (below k t) × IsUnder l (above k t) }
    ensures all_below { (format : Format) (t : Tree) (k : List ℕ) → IsMst format t
        → IsAscending (pairs t) → map_get (pairs t) k ≡ None → above k t ≡ empty → below k t ≡ t }
    ensures all_above { (format : Format) (t : Tree) (k : List ℕ) → IsMst format t
        → IsAscending (pairs t) → map_get (pairs t) k ≡ None → below k t ≡ empty → above k t ≡ t }
{}

/// Two trees joined: a search tree of no higher layer, with the pairs of the one and then those of
/// the other. Of two nodes the one of the greater layer stays on top; two of one layer become one
/// node.
pub fn join_laws()
    ensures pairs { (a b : Tree) → pairs (join a b) ≡ pairs a ++ pairs b }
    ensures search_tree { (format : Format) (a b : Tree) → IsMst format a → IsMst format b
        → IsMst format (join a b) }
    ensures layer { (a b : Tree) (l : ℕ) → IsUnder l a → IsUnder l b → IsUnder l (join a b) }
    ensures none_before { (b : Tree) → join empty b ≡ b }
    ensures none_behind { (a : Tree) → join a empty ≡ a }
    ensures higher { (g h : Format) (l j : ℕ) (es fs : Entries) → j < l
        → let a = node g l es in let b = node h j fs in
        join a b ≡ node g l (with_entries (cells es) (last (join (last_child es) b))) }
    ensures lower { (g h : Format) (l j : ℕ) (es fs : Entries) → l < j
        → let a = node g l es in let b = node h j fs in
        join a b ≡ node h j (with_first (join a (first_child fs)) fs) }
    ensures level { (g h : Format) (l : ℕ) (es fs : Entries)
        → join (node g l es) (node h l fs) ≡ node g l
        (with_entries (cells es) (with_first (join (last_child es) (first_child fs)) fs)) }
{}

/// The tree of the map after a put or a remove is the old one, split or joined along one path.
pub fn path_laws()
    ensures put { (format : Format) (m : List Pair) (k v : List ℕ) → IsMap m
        → tree_put format (tree format m) k v ≡ tree format (map.put m k v) }
    ensures remove { (format : Format) (m : List Pair) (k : List ℕ) → IsMap m
        → tree_remove (tree format m) k ≡ tree format (map.remove m k) }
{}

/// What is counted along the path is what the change costs, and it is bounded by what a search for
/// the key meets.
pub fn cost_laws()
    ensures different { (t u : Tree) → same_tree t u ≡ true → t ≡ u }
    ensures same { (t u : Tree) → t ≡ u → same_tree t u ≡ true }
    ensures put { (format : Format) (m : List Pair) (k v : List ℕ) → IsMap m
        → cost format m (map.put m k v) ≡ put_cost format (tree format m) k v }
    ensures remove { (format : Format) (m : List Pair) (k : List ℕ) → IsMap m
        → cost format m (map.remove m k) ≡ remove_cost (tree format m) k }
    ensures put_bound { (format : Format) (m : List Pair) (k v : List ℕ) → IsMap m
        → cost format m (map.put m k v) ≤ weight format m k + 2 }
    ensures remove_bound { (format : Format) (m : List Pair) (k : List ℕ) → IsMap m
        → cost format m (map.remove m k) ≤ weight format (map.remove m k) k + 2 }
    // a map that goes to another format takes a row for each pair and each node; to its own, none
    ensures moved { (f g : Format) (m : List Pair) → same_format g f ≡ false
        → new_rows (tree f m) (tree g m) ≡ length m + length (subtrees (tree g m)) }
    ensures stays { (t : Tree) → new_rows t t ≡ 0 }
{}

/// The tree after a batch. Its nodes are told from those of the old tree by one look-up each: a key
/// stands in one node, so a node stands in the old tree exactly if it is the node there that has
/// one of its keys.
pub fn batch_laws()
    ensures tree { (format : Format) (m : List Pair) (es : List Edit) → IsMap m
        → tree_batched format (tree format m) es ≡ tree format (batched m es) }
    // a batch of one edit costs what the edit costs
    ensures one_put { (format : Format) (m : List Pair) (k v : List ℕ) → IsMap m
        → cost format m (batched m (edit.Put k v ∷ [])) ≡ put_cost format (tree format m) k v }
    ensures one_remove { (format : Format) (m : List Pair) (k : List ℕ) → IsMap m
        → cost format m (batched m (edit.Remove k ∷ [])) ≡ remove_cost (tree format m) k }
    // a walk of the new tree that stops at each node that stands in the old one counts the cost
    ensures counted { (format : Format) (m : List Pair) (es : List Edit)
        → rows_beside (tree format m) (tree format (batched m es))
        ≡ cost format m (batched m es) }
    ensures stands { (old n u : Tree) (q : List ℕ) → IsAscending (pairs old)
        → is_subtree u old ≡ true → HasOnTop q u → HasOnTop q n
        → (is_subtree n old ≡ true) ↔ (n ≡ u) }
{}
