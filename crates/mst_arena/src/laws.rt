//! Laws of the definitions that the contracts cite: which row words spell, which version reaches
//! which row, what rows stand for, and how old they are.
//!
//! The functions here do nothing. Each clause is a proved law, by which a reader can judge the
//! definitions of `specs/`.
ghost use Rattle.std.specs.Prelude.{◌≡◌, ◌≢◌, ◌≤◌, ◌<◌, ◌==◌, ◌↔◌, ℕ, List, Some, false, true, length, map, slice_get, slice_set};
ghost use Rattle.std.specs.List.{list_any, AllByRecursion};
ghost use Rattle.mst_key.specs.declared.format.Format.{Format};
ghost use Rattle.mst_key.specs.History.{History, format_after};
ghost use Rattle.mst_key.specs.Map.{Pair};
ghost use Rattle.mst_node.specs.Cost.{is_subtree};
ghost use Rattle.mst_node.specs.Stays.{tree_at};
ghost use Rattle.mst_node.specs.Tree.{Tree};
ghost use Rattle.mst_arena.specs.Ages.{HasAge, top_rows};
ghost use Rattle.mst_arena.specs.Content.{Content, Writes};
ghost use Rattle.mst_arena.specs.Lists.{In};
ghost use Rattle.mst_arena.specs.Lives.{reaches, SameReach, swept_life};
ghost use Rattle.mst_arena.specs.Standing.{Stands, StandsAt, Placed, head, cell, end, HasRows, rows_of, head_row, link_of, numbers, tree_of};
ghost use Rattle.mst_arena.specs.Row.{IsRow, HasBytes};
ghost use Rattle.mst_arena.specs.Words.{words_of, row_in};
ghost use Rattle.mst_arena.specs.declared.life.Life.{Life};
ghost use Rattle.mst_arena.specs.declared.life.Life.TheVariants.{Free, Born, Dead};
ghost use Rattle.mst_arena.specs.declared.row.Root.{Root};
ghost use Rattle.mst_arena.specs.declared.row.Row.{Row};
ghost use Rattle.mst_arena.specs.declared.row.Row.TheVariants.{Entry};

/// Each row has words that spell it and no other row, and words that spell a row are the words of
/// that row.
pub fn words_laws()
    ensures row { (row : Row) → IsRow row → HasBytes row → row_in (words_of row) ≡ Some row }
    ensures words { (words : List ℕ) (row : Row) → row_in words ≡ Some row
        → IsRow row × HasBytes row × (words_of row ≡ words) }
{}

/// What the calls of a desk do to the rows that a version reaches, for any set of live versions.
/// `next` is the version to come.
pub fn life_laws()
    // a row that is taken is reached by no earlier version, before and after
    ensures take { (lives : List Life) (row next : ℕ) → slice_get lives row ≡ Some Free
        → SameReach (λ v. v < next) lives (slice_set lives row (Born next)) }
    // a row that is killed is reached by the same earlier versions as before
    ensures kill { (lives : List Life) (row b next : ℕ) → slice_get lives row ≡ Some (Born b)
        → SameReach (λ v. v < next) lives (slice_set lives row (Dead b next)) }
    // a row that is given back was reached by no earlier version
    ensures give_back { (lives : List Life) (row next : ℕ) → slice_get lives row ≡ Some (Born next)
        → SameReach (λ v. v < next) lives (slice_set lives row Free) }
    // the live versions reach the same rows after a sweep
    ensures sweep { (lives : List Life) (live : List ℕ)
        → SameReach (λ v. list_any (λ w. w == v) live ≡ true) lives (map (swept_life live) lives) }
    // no version reaches a free row
    ensures free { (lives : List Life) (row v : ℕ) → slice_get lives row ≡ Some Free
        → reaches lives v row ≡ false }
    // a row that was killed for the version to come is reached by no later version
    ensures dead { (lives : List Life) (row b next v : ℕ) → slice_get lives row ≡ Some (Dead b next)
        → next ≤ v → reaches lives v row ≡ false }
    // a row that is taken is reached by the version to come, and by each after it
    ensures taken { (lives : List Life) (row next v : ℕ) → slice_get lives row ≡ Some Free
        → next ≤ v → reaches (slice_set lives row (Born next)) v row ≡ true }
    // until it is killed: then still by each version from its own to before the version to come
    ensures killed { (lives : List Life) (row b next v : ℕ) → slice_get lives row ≡ Some (Born b)
        → b ≤ v → v < next → reaches (slice_set lives row (Dead b next)) v row ≡ true }
    // what is done to other rows, and a sweep, leave a row as it was
    ensures others { (lives : List Life) (row other v : ℕ) (life : Life) → other ≢ row
        → reaches (slice_set lives other life) v row ≡ reaches lives v row }
    ensures lasts { (lives : List Life) (live : List ℕ) (row b v : ℕ)
        → slice_get lives row ≡ Some (Born b) → b ≤ v
        → reaches (map (swept_life live) lives) v row ≡ true }
{}

/// What stands at a root is one map, in one placing; it stays as long as its rows do, and it is put
/// together from its parts.
pub fn standing_laws()
    ensures one { (f : Format) (c : Content) (at : Root) (m n : List Pair)
        → Stands f c at m → Stands f c at n → m ≡ n }
    ensures one_placing { (f : Format) (c : Content) (link : ℕ) (t u : Tree)
        (s : StandsAt f c link t) (r : StandsAt f c link u) → s.placed ≡ r.placed }
    // what stands, stands in each content that has its rows as before
    ensures frame { (f : Format) (old new : Content) (at : Root) (m : List Pair)
        (s : Stands f old at m) → AllByRecursion (λ k. new k ≡ old k) (numbers s)
        → Stands f new at m }
    // and so it stands after a write of a row that is none of its own
    ensures write { (f : Format) (old new : Content) (row : ℕ) (value : Row) (at : Root)
        (m : List Pair) (s : Stands f old at m) → Writes old new row value
        → AllByRecursion (λ k. k ≢ row) (numbers s) → Stands f new at m }
    // a node of one entry between two trees that stand
    ensures join { (f : Format) (c : Content) (p q : Placed) (h e l : ℕ) (k v : List ℕ)
        → HasRows c (rows_of f p) → HasRows c (rows_of f q)
        → c h ≡ Some (head_row f l (cell e p k v (end q)))
        → c e ≡ Some (Entry (link_of p) 0 k v)
        → HasRows c (rows_of f (head h l (cell e p k v (end q)))) }
{}

/// How old the rows of a node of the last version's tree are.
pub fn age_laws()
    // exactly the versions reach them from which on the node's tree has stood in each version
    ensures stood { (first : Format) (lives : List Life) (h : History) (p : Placed) (r v : ℕ)
        → HasAge first lives h p → In r (top_rows p) → v ≤ length h
        → reaches lives v r ≡ true ↔ ((u : ℕ) → v ≤ u → u ≤ length h
        → is_subtree (tree_of (format_after first h) p) (tree_at first h u) ≡ true) }
{}
