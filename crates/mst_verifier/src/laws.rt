//! Laws of what the library returns. Each function does nothing: its contract is the law.
ghost use Rattle.std.specs.Prelude.{◌≡◌, ◌≢◌, ◌<◌, ◌+◌, ℕ, List, [], ◌∷◌, ◌++◌, Option, map, pos, negsuc, length, IfSome};
ghost use Rattle.std.specs.List.{AllByRecursion};
ghost use Rattle.mst_key.specs.declared.format.Format.{Format};
ghost use Rattle.mst_node.specs.Frame.{FramesFirst};
ghost use Rattle.mst_node.specs.Gaps.{IsBetween};
ghost use Rattle.mst_node.specs.Grammar.{InGrammar};
ghost use Rattle.mst_node.specs.Text.{FlatNode, digest_of};
ghost use Rattle.mst_proof.specs.Faults.{FailsBy, Spells};
ghost use Rattle.mst_proof.specs.declared.fault.ProofFault.{ProofFault};
ghost use Rattle.mst_proof.specs.declared.fault.ProofFault.TheVariants.{FormatByte, CutShort, LeftOver, NoNode, OtherDigest, LayerNotBelow, KeyOutside, Unfinished, TextBehind, OtherValue};
ghost use Rattle.mst_sharded_proof.specs.declared.fault.ShardedFault.TheVariants.{FormatByte as OtherFormatByte, CutShort as Cut, NoKey, Directory, NotListed, NoListing, KeyBelow, KeyNotBelow, Shard};
ghost use Rattle.mst_verifier.specs.Codes.{code_of, fault_code, refusal_code, sharded_code, test_number};
ghost use Rattle.mst_verifier.specs.Question.{answer_of};
ghost use Rattle.mst_verifier.specs.Top.{TellsTop};
ghost use Rattle.mst_verifier.specs.Worked.{told, told_of, zeros, leaf, parent, leaf_in_format_2};
ghost use Rattle.mst_verifier.specs.declared.question.Refusal.{Refusal};

/// The numbers of refusals: -11 to -20 in the order of the tests, for a sharded map -100 to -910.
/// No two are the same, and none is that of an answer. Of the tests of a text each is named by what
/// the text then fails.
pub fn code_laws()
    ensures tests { map fault_code (FormatByte ∷ CutShort ∷ LeftOver ∷ NoNode ∷ OtherDigest
        ∷ LayerNotBelow ∷ KeyOutside ∷ Unfinished ∷ TextBehind ∷ OtherValue ∷ [])
        ≡ negsuc 10 ∷ negsuc 11 ∷ negsuc 12 ∷ negsuc 13 ∷ negsuc 14 ∷ negsuc 15 ∷ negsuc 16
        ∷ negsuc 17 ∷ negsuc 18 ∷ negsuc 19 ∷ [] }
    ensures sharded_tests { map sharded_code (OtherFormatByte ∷ Cut ∷ NoKey ∷ NotListed ∷ NoListing
        ∷ KeyBelow ∷ KeyNotBelow ∷ [])
        ≡ negsuc 99 ∷ negsuc 199 ∷ negsuc 299 ∷ negsuc 499 ∷ negsuc 599 ∷ negsuc 699
        ∷ negsuc 799 ∷ [] }
    // S4 and S9, each followed by the number of the part's test
    ensures directory_tests { (fault : ProofFault)
        → sharded_code (Directory fault) ≡ negsuc (399 + test_number fault) }
    ensures shard_tests { (fault : ProofFault)
        → sharded_code (Shard fault) ≡ negsuc (899 + test_number fault) }
    ensures part_tests { map test_number (FormatByte ∷ CutShort ∷ LeftOver ∷ NoNode ∷ OtherDigest
        ∷ LayerNotBelow ∷ KeyOutside ∷ Unfinished ∷ TextBehind ∷ OtherValue ∷ [])
        ≡ 1 ∷ 2 ∷ 3 ∷ 4 ∷ 5 ∷ 6 ∷ 7 ∷ 8 ∷ 9 ∷ 10 ∷ [] }
    ensures differ { (a b : Refusal) → refusal_code a ≡ refusal_code b → a ≡ b }
    ensures apart { (r : Refusal) → (n : ℕ) × (refusal_code r ≡ negsuc (2 + n)) }
    // -14: it is the text of no node
    ensures grammar { (format : Format) (d text : List ℕ) (upper : Option ℕ)
        (low high : Option (List ℕ)) (fault : ProofFault) → fault_code fault ≡ negsuc 13
        → FailsBy format d upper low high text fault → ¬ (InGrammar format text) }
    // -15: its digest is another
    ensures digest { (format : Format) (d text : List ℕ) (upper : Option ℕ)
        (low high : Option (List ℕ)) (fault : ProofFault) → fault_code fault ≡ negsuc 14
        → FailsBy format d upper low high text fault → digest_of text ≢ d }
    // -16: its node's layer is not below that of the node above
    ensures layer { (format : Format) (d text : List ℕ) (upper : Option ℕ)
        (low high : Option (List ℕ)) (fault : ProofFault) → fault_code fault ≡ negsuc 15
        → FailsBy format d upper low high text fault
        → (n : FlatNode) × Spells format text n × ¬ (IfSome upper (λ u. n.layer < u)) }
    // -17: the layer is below, and some key lies outside the gap
    ensures keys { (format : Format) (d text : List ℕ) (upper : Option ℕ)
        (low high : Option (List ℕ)) (fault : ProofFault) → fault_code fault ≡ negsuc 16
        → FailsBy format d upper low high text fault
        → (n : FlatNode) × Spells format text n × IfSome upper (λ u. n.layer < u)
        × ¬ (AllByRecursion (λ e. IsBetween low high e.key) n.entries) }
{}

/// Questions that were worked by hand, each with its number.
pub fn worked_codes()
    // no format, no root digest, no key
    ensures format { told 3 zeros (1 ∷ 0 ∷ []) ≡ negsuc 2 }
    ensures root { told 1 [] (1 ∷ 0 ∷ []) ≡ negsuc 3 }
    ensures key { code_of 0 (answer_of 1 zeros [] (1 ∷ 0 ∷ [])) ≡ negsuc 4 }
    // a proof of the other format, of one byte, and with a byte left over
    ensures format_byte { told 1 zeros (2 ∷ 0 ∷ []) ≡ negsuc 10 }
    ensures cut_short { told 1 zeros (1 ∷ []) ≡ negsuc 11 }
    ensures left_over { told 1 zeros (1 ∷ 0 ∷ 0 ∷ []) ≡ negsuc 12 }
    // one text, of no bytes
    ensures no_node { told 1 zeros (1 ∷ 1 ∷ 0 ∷ 0 ∷ 0 ∷ 0 ∷ []) ≡ negsuc 13 }
    // no texts, and a root digest that is not the empty map's
    ensures other_digest { (root : List ℕ) → length root ≡ 32 → root ≢ digest_of []
        → told 1 root (1 ∷ 0 ∷ []) ≡ negsuc 14 }
    // for a key in whose gap is a child the proof ends; for one that is held a text follows
    ensures unfinished { told_of (0x39 ∷ []) 1 (digest_of parent)
        (1 ∷ 1 ∷ 0 ∷ 0 ∷ 0 ∷ 42 ∷ parent) ≡ negsuc 17 }
    ensures text_behind { told 1 (digest_of leaf)
        (1 ∷ 2 ∷ 0 ∷ 0 ∷ 0 ∷ 10 ∷ leaf ++ (0 ∷ 0 ∷ 0 ∷ 0 ∷ [])) ≡ negsuc 18 }
    // the tail claims that a key which is held is absent
    ensures other_value { told 2 (digest_of leaf_in_format_2)
        (2 ∷ 1 ∷ 0 ∷ 0 ∷ 0 ∷ 40 ∷ leaf_in_format_2 ++ (0 ∷ [])) ≡ negsuc 19 }
{}

/// What is returned for a proof's first text is its length and no other number, and -1 only if
/// there is none.
pub fn top_laws()
    ensures length { (proof text : List ℕ) (n : ℕ) → FramesFirst proof text
        → TellsTop proof (pos n) → n ≡ length text }
    ensures none { (proof text : List ℕ) (n : ℕ) → FramesFirst proof text
        → ¬ (TellsTop proof (negsuc n)) }
{}
