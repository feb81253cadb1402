//! Laws of the definitions, each proved as the contract of a function that does nothing.
ghost use Rattle.std.specs.Prelude.{◌≡◌, ◌+◌, ◌↔◌, ℕ, Bool, true, List, [], ◌∷◌};
ghost use Rattle.std.specs.List.{AllByRecursion};
ghost use Rattle.mst_key.specs.Bytes.{IsKey, IsValue};
ghost use Rattle.mst_key.specs.History.{batched, IsSmall};
ghost use Rattle.mst_key.specs.Layer.{layer_in};
ghost use Rattle.mst_key.specs.Map.{Pair};
ghost use Rattle.mst_key.specs.declared.format.Format.{Format};
ghost use Rattle.mst_key.specs.declared.history.Edit.{Edit};
ghost use Rattle.mst_key.specs.declared.history.Edit.TheVariants as edit;
ghost use Rattle.mst_node.specs.Cost.{cost};
ghost use Rattle.mst_node.specs.Tree.{Tree, Entries, node, tree, IsMst};
ghost use Rattle.mst_change.specs.Batch.{HasEntry};
ghost use Rattle.mst_arena.specs.Content.{Content};
ghost use Rattle.mst_arena.specs.Lives.{State};
ghost use Rattle.mst_arena.specs.Standing.{Stands, numbers};
ghost use Rattle.mst_arena.specs.declared.row.Root.{Root};
ghost use Rattle.mst_path.specs.Changing.{AreOld, MapStands};
ghost use Rattle.mst_batch.specs.Beside.{node_at, plan_beside, entries_beside, link_of_key, AreMarks, Matches};
ghost use Rattle.mst_batch.specs.Carrying.{IsPlanOf};
ghost use Rattle.mst_batch.specs.Kept.{is_marked};
ghost use Rattle.mst_batch.specs.Plans.{kept, made, last, entry, rows_planned, tree_planned};

/// What the calls require of a plan and of its marks can be met.
pub fn plans_can_be_met()
    // a list of marks can have one at the row of a link and no other, and for link 0 none
    ensures marks { (link : ℕ) → (marks : List Bool)
        × ((row : ℕ) → (is_marked marks row ≡ true) ↔ (row + 1 ≡ link)) }
    // with such marks the plan that keeps the whole tree is one of the change that changes nothing
    ensures kept { (format : Format) (content : Content) (s : State) (root : Root)
        (marks : List Bool) → MapStands format content s root
        → ((row : ℕ) → (is_marked marks row ≡ true) ↔ (row + 1 ≡ root.link))
        → IsPlanOf format content s root marks (kept root.link) (λ m. m) }
    // where the empty map stands, a node of one pair is a plan of the batch of its put, whatever
    // is marked; it takes two rows
    ensures planted { (format : Format) (content : Content) (s : State) (root : Root)
        (marks : List Bool) (k v : List ℕ) → Stands format content root [] → IsKey k → IsValue v
        → IsPlanOf format content s root marks
        (made (layer_in format k) (entry (kept 0) k v (last (kept 0))))
        (λ m. batched m (edit.Put k v ∷ [])) }
    ensures planted_rows { (layer : ℕ) (k v : List ℕ)
        → rows_planned (made layer (entry (kept 0) k v (last (kept 0)))) ≡ 2 }
{}

/// The plan of a tree next to the one that stands, which keeps each node that stands there: it is
/// that tree; and of the tree after a batch it takes what the batch costs, and can be carried out.
pub fn plans_beside()
    ensures tree { (format : Format) (content : Content) (root : Root) (m : List Pair)
        (stands : Stands format content root m) (t : Tree) → IsMst format t
        → tree_planned format (node_at stands.tree.placed)
        (plan_beside format stands.tree.placed t) ≡ t }
    ensures rows { (format : Format) (content : Content) (root : Root) (m : List Pair)
        (stands : Stands format content root m) (es : List Edit)
        → rows_planned (plan_beside format stands.tree.placed (tree format (batched m es)))
        ≡ cost format m (batched m es) }
    ensures plan { (format : Format) (content : Content) (s : State) (root : Root)
        (marks : List Bool) (es : List Edit) (m : List Pair)
        (stands : Stands format content root m) → AreOld s (numbers stands)
        → AllByRecursion IsSmall es
        → AreMarks marks (plan_beside format stands.tree.placed (tree format (batched m es)))
        → IsPlanOf format content s root marks
        (plan_beside format stands.tree.placed (tree format (batched m es))) (λ n. batched n es) }
    // which of its nodes stand is decided by one look-up of a key of theirs
    ensures stays { (format : Format) (content : Content) (root : Root) (m : List Pair)
        (stands : Stands format content root m) (l : ℕ) (es : Entries) (q : List ℕ)
        → HasEntry q es → IsMst format (node format l es)
        → Matches stands.tree.placed (link_of_key q stands.tree.placed) l
        (entries_beside format stands.tree.placed es)
        → plan_beside format stands.tree.placed (node format l es)
        ≡ kept (link_of_key q stands.tree.placed) }
    ensures made { (format : Format) (content : Content) (root : Root) (m : List Pair)
        (stands : Stands format content root m) (l : ℕ) (es : Entries) (q : List ℕ)
        → HasEntry q es → IsMst format (node format l es)
        → (Matches stands.tree.placed (link_of_key q stands.tree.placed) l
        (entries_beside format stands.tree.placed es) → ⊥)
        → plan_beside format stands.tree.placed (node format l es)
        ≡ made l (entries_beside format stands.tree.placed es) }
{}
