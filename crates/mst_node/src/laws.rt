//! Laws of the definitions, each proved as the contract of a function that does nothing.
ghost use Rattle.std.specs.Prelude.{◌≡◌, ◌≢◌, ◌+◌, ◌<◌, ◌≤◌, ◌↔◌, ℕ, List, [], ◌∷◌, length, None, Some, Contains};
ghost use Rattle.std.specs.List.{AllByRecursion};
ghost use Rattle.mst_key.specs.Bytes.{IsBytes};
ghost use Rattle.mst_key.specs.Layer.{layer_in};
ghost use Rattle.mst_key.specs.Map.{Pair, IsMap, IsAscending};
ghost use Rattle.mst_key.specs.declared.format.Format.{Format};
ghost use Rattle.mst_node.specs.Collision.{HasCollision};
ghost use Rattle.mst_node.specs.Reading.{node_at};
ghost use Rattle.mst_node.specs.Tree.{Tree, empty, node, Entries, layers, greatest, entries_of, tree, pairs, entries_subtrees, IsMst};
ghost use Rattle.mst_node.specs.Gaps.{LayersFall, LiesBetween};
ghost use Rattle.mst_node.specs.Text.{FlatNode, spelling, text, digest_of, highest_count};
ghost use Rattle.mst_node.specs.Grammar.{IsFlatNode, InGrammar, KeysFit};
ghost use Rattle.mst_node.specs.Cost.{subtrees};
ghost use Rattle.mst_node.specs.Stays.{held};
ghost use Rattle.mst_key.specs.History.{History, after, format_after};

/// The tree by its equations: that of no pairs is empty; that of others is a node of their greatest
/// layer, whose entries are the pairs of that layer, and in each gap stands the tree of the pairs
/// there.
pub fn tree_by_gaps()
    ensures none { (format : Format) → tree format [] ≡ empty }
    ensures some { (format : Format) (m : List Pair) → 0 < length m →
        let l = greatest (layers (layer_in format) m) in
        tree format m ≡ node format l (entries_of (layer_in format) (tree format) l [] m) }
{}

/// The tree of a map is a Merkle search tree that holds the map's pairs in order, and the only one.
/// So two maps with one tree are one map.
pub fn one_tree()
    ensures search_tree { (format : Format) (m : List Pair) → IsMst format (tree format m) }
    ensures pairs { (format : Format) (m : List Pair) → pairs (tree format m) ≡ m }
    ensures only { (format : Format) (t : Tree) → IsMst format t → tree format (pairs t) ≡ t }
    ensures one_map { (format : Format) (m n : List Pair) → tree format m ≡ tree format n → m ≡ n }
{}

/// Layers fall strictly from a node to its children, and the keys of a gap lie strictly between the
/// keys next to it.
pub fn order_of_tree()
    ensures layers { (format : Format) (m : List Pair) → LayersFall (tree format m) }
    ensures gaps { (format : Format) (m : List Pair) → IsAscending m
        → LiesBetween None None (tree format m) }
    // if layers fall, each node below another, however far, has a lesser layer
    ensures below { (format other : Format) (l k : ℕ) (es below : Entries)
        → LayersFall (node format l es) → Contains (entries_subtrees es) (node other k below)
        → k < l }
{}

/// A text spells one flat node. The text of each node of the tree of a map is in the grammar, so it
/// is read.
pub fn one_text()
    ensures one_node { (m n : FlatNode) → IsFlatNode m → IsFlatNode n → spelling m ≡ spelling n
        → m ≡ n }
    // Every subtree of a map's tree is such a tree.
    ensures in_grammar { (format : Format) (t : Tree) → IsMst format t → IsMap (pairs t)
        → AllByRecursion (λ p. IsBytes p.0 × IsBytes p.1) (pairs t) → 0 < length (pairs t)
        → length (pairs t) ≤ highest_count → InGrammar format (text t) }
{}

/// A text is read as the flat node that it spells, if its keys fit, and as none exactly if it is
/// not in the grammar of the format.
pub fn text_by_grammar()
    ensures found { (format : Format) (text : List ℕ) (n : FlatNode) → IsBytes text
        → ((node_at format text ≡ Some n) × KeysFit n)
        ↔ ((n.format ≡ format) × IsFlatNode n × (text ≡ spelling n)) }
    ensures nothing { (format : Format) (text : List ℕ) → IsBytes text
        → ((n : FlatNode) → node_at format text ≡ Some n → KeysFit n → ⊥)
        ↔ (InGrammar format text → ⊥) }
{}

/// Texts have a collision exactly if two of them differ and have one SHA-256. A single text has
/// none.
pub fn collision_of_two()
    ensures two { (texts : List (List ℕ)) → HasCollision texts
        ↔ ((one : List ℕ) × (other : List ℕ) × Contains texts one × Contains texts other
        × (one ≢ other) × (digest_of one ≡ digest_of other)) }
    ensures alone { (text : List ℕ) → HasCollision (text ∷ []) → ⊥ }
{}

/// What the kept versions of a history hold in rows: `live` names the versions.
pub fn held_laws()
    // the last version alone holds a row for each pair and one for each node
    ensures last { (format : Format) (h : History)
        → held format h (length h ∷ []) ≡ length (after h) + length
        (subtrees (tree (format_after format h) (after h))) }
    // in what order the versions are named, and how often, does not matter
    ensures same { (format : Format) (h : History) (one other : List ℕ)
        → ((v : ℕ) → Contains one v ↔ Contains other v) → held format h one ≡ held format h other }
    // more versions never hold less
    ensures more { (format : Format) (h : History) (one other : List ℕ)
        → ((v : ℕ) → Contains one v → Contains other v) → held format h one ≤ held format h other }
{}
