//! Laws of the definitions, each proved as the contract of a function that does nothing.
ghost use Rattle.std.specs.Prelude.{◌≡◌, ◌≢◌, ◌≤◌, ◌↔◌, List, ℕ, None, Some, Contains, length};
ghost use Rattle.std.specs.declared.result.Result.TheVariants.{Err};
ghost use Rattle.mst_key.specs.Bytes.{IsBytes};
ghost use Rattle.mst_key.specs.Map.{Pair, IsAscending, IsMap};
ghost use Rattle.mst_key.specs.declared.format.Format.{Format};
ghost use Rattle.mst_key.specs.declared.format.Format.TheVariants.{One, Two};
ghost use Rattle.mst_node.specs.Collision.{HasCollision};
ghost use Rattle.mst_node.specs.Grammar.{InGrammar};
ghost use Rattle.mst_node.specs.Text.{FlatNode, digest_of, root as root_of, highest_count};
ghost use Rattle.mst_node.specs.Trail.{trail};
ghost use Rattle.mst_node.specs.Tree.{tree};
ghost use Rattle.mst_proof.specs.Beside.{texts_named, CollidesAmong};
ghost use Rattle.mst_proof.specs.Faults.{Spells, FailsBy, ProofFails};
ghost use Rattle.mst_proof.specs.Spans.{nodes_around};
ghost use Rattle.mst_proof.specs.Theorem.{HasRoot, claim_in, CollidesWith};
ghost use Rattle.mst_proof.specs.declared.claim.Claim.TheVariants.{Given};
ghost use Rattle.mst_proof.specs.Verdict.{node_in, step_at, verdict};
ghost use Rattle.mst_proof.specs.declared.expected.Expected.{Expected};
ghost use Rattle.mst_proof.specs.declared.fault.ProofFault.{ProofFault};

/// The trail of a key, whose texts a proof is made of, is the nodes of the map's tree in whose span
/// the key falls, from the top down to the one that decides. The span of a node lies between the
/// keys next to the gap in which it stands.
pub fn trail_by_spans()
    ensures trail { (format : Format) (m : List Pair) (k : List ℕ) → IsAscending m
        → trail format m k ≡ nodes_around k (tree format m) }
{}

/// A trail has at most 65 nodes in format 1, and 129 in format 2: layers fall from node to node,
/// from at most 64 or 128. So the number of its texts fits the one byte that a proof has for it.
pub fn trail_is_short()
    ensures few { (m : List Pair) (k : List ℕ) → length (trail One m k) ≤ 65 }
    ensures few_in_format_2 { (m : List Pair) (k : List ℕ) → length (trail Two m k) ≤ 129 }
{}

/// Each map of at most 65,535 pairs has its root digest, and no other digest. So what `verify` says
/// of a map that has the root holds of each such map.
pub fn each_map_has_its_root()
    ensures has { (format : Format) (m : List Pair) → IsMap m → length m ≤ highest_count
        → HasRoot format m (root_of format m) }
    ensures only { (format : Format) (m : List Pair) (d : List ℕ) → HasRoot format m d
        → d ≡ root_of format m }
{}

/// The pair behind a false answer: two different texts with one SHA-256. Each of them is a text of
/// the proof, the text of a node of the map's tree, or the empty text; or in format 2 one is the
/// value that the proof claims, and the other a value of the map.
pub fn collisions_among()
    ensures named { (format : Format) (m : List Pair) (k proof one other : List ℕ)
        → CollidesWith format m k proof one other
        → CollidesAmong (texts_named format proof (tree format m)) one other }
    // in format 1 no value is claimed
    ensures no_value { (proof one : List ℕ) → claim_in One proof ≢ Given one }
    // two texts collide among others exactly if both are of them, differ, and have one SHA-256
    ensures two { (texts : List (List ℕ)) (one other : List ℕ) → CollidesAmong texts one other
        ↔ (Contains texts one × Contains texts other × (one ≢ other)
        × (digest_of one ≡ digest_of other)) }
    // then those others have a collision
    ensures has { (texts : List (List ℕ)) (one other : List ℕ) → CollidesAmong texts one other
        → HasCollision texts }
{}

/// A text is read as the one flat node that it spells, and as none exactly if it is not in the
/// grammar.
pub fn texts_by_grammar()
    ensures found { (format : Format) (text : List ℕ) (n : FlatNode) → IsBytes text
        → (node_in format text ≡ Some n) ↔ Spells format text n }
    ensures nothing { (format : Format) (text : List ℕ) → IsBytes text
        → (node_in format text ≡ None) ↔ (InGrammar format text → ⊥) }
{}

/// What a proof has passed when its verdict is a fault: the frame with its tail before any text,
/// each text before the next, and of one text the grammar, then the digest, then the layer, then
/// the keys. In format 2 the claim of the tail is compared last.
pub fn faults_in_order()
    // a text is refused with a fault exactly if it has passed the tests before that one, and fails
    // that one
    ensures text { (format : Format) (k : List ℕ) (x : Expected) (text : List ℕ)
        (fault : ProofFault) → IsBytes text → (step_at format k x text ≡ Err fault)
        ↔ FailsBy format x.digest x.upper x.span.low x.span.high text fault }
    // and so is a whole proof
    ensures fails { (format : Format) (root k proof : List ℕ) (fault : ProofFault) → IsBytes proof
        → (verdict format root k proof ≡ Err fault) ↔ ProofFails format root k proof fault }
{}
