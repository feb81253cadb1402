//! Laws of what C is told. Each function does nothing: its contract is the law.
ghost use Rattle.std.specs.Prelude.{◌≡◌, [], ◌∷◌, List, ℕ, Ok, Err};
ghost use Rattle.std.specs.List.{AllByRecursion};
ghost use Rattle.mst_key.specs.declared.history.Edit.{Edit};
ghost use Rattle.mst_key.specs.declared.history.Edit.TheVariants.{Put, Remove};
ghost use Rattle.mst_key.specs.Bytes.{IsBytes};
ghost use Rattle.mst_key.specs.History.{IsSmall};
ghost use Rattle.mst_c.specs.declared.packing.EditFault.TheVariants.{KeySize, ValueSize, Form};
ghost use Rattle.mst_c.specs.Batches.{edits_bytes, edits_in};

/// Any edits can stand in a buffer, which then spells these and no others. A buffer that spells
/// edits has these bytes and no others.
pub fn batch_laws()
    ensures packed { (es : List Edit) → AllByRecursion IsSmall es
        → edits_in (edits_bytes es) ≡ Ok es }
    ensures only { (bytes : List ℕ) (es : List Edit) → IsBytes bytes → edits_in bytes ≡ Ok es
        → bytes ≡ edits_bytes es }
{}

/// Buffers that were worked by hand, with what they spell.
pub fn worked_batches()
    ensures none { edits_in [] ≡ Ok [] }
    ensures put { edits_in (1 ∷ 0 ∷ 1 ∷ 0 ∷ 2 ∷ 97 ∷ 49 ∷ 50 ∷ [])
        ≡ Ok (Put (97 ∷ []) (49 ∷ 50 ∷ []) ∷ []) }
    // a put of a value of no bytes, and a remove
    ensures two { edits_in (1 ∷ 0 ∷ 1 ∷ 0 ∷ 0 ∷ 97 ∷ 2 ∷ 0 ∷ 2 ∷ 0 ∷ 0 ∷ 98 ∷ 99 ∷ [])
        ≡ Ok (Put (97 ∷ []) [] ∷ Remove (98 ∷ 99 ∷ []) ∷ []) }
    // the second edit is of a key of no bytes, the first of one of 33 or, with the high byte first,
    // of 256
    ensures no_key { edits_in (1 ∷ 0 ∷ 1 ∷ 0 ∷ 0 ∷ 97 ∷ 2 ∷ 0 ∷ 0 ∷ 0 ∷ 0 ∷ [])
        ≡ Err record { place = 1; fault = KeySize } }
    ensures long_key { edits_in (1 ∷ 0 ∷ 33 ∷ 0 ∷ 65 ∷ [])
        ≡ Err record { place = 0; fault = KeySize } }
    ensures high_byte { edits_in (2 ∷ 1 ∷ 0 ∷ 0 ∷ 0 ∷ [])
        ≡ Err record { place = 0; fault = KeySize } }
    ensures long_value { edits_in (1 ∷ 0 ∷ 1 ∷ 0 ∷ 65 ∷ [])
        ≡ Err record { place = 0; fault = ValueSize } }
    // cut short in its lengths, and in its value
    ensures no_lengths { edits_in (1 ∷ 0 ∷ 1 ∷ 0 ∷ [])
        ≡ Err record { place = 0; fault = Form } }
    ensures cut_short { edits_in (2 ∷ 0 ∷ 1 ∷ 0 ∷ 0 ∷ 97 ∷ 1 ∷ 0 ∷ 1 ∷ 0 ∷ 2 ∷ 97 ∷ 49 ∷ [])
        ≡ Err record { place = 1; fault = Form } }
    // a kind that is none, and a remove with a value
    ensures kind { edits_in (0 ∷ 0 ∷ 1 ∷ 0 ∷ 0 ∷ 97 ∷ [])
        ≡ Err record { place = 0; fault = Form } }
    ensures removed_value { edits_in (2 ∷ 0 ∷ 1 ∷ 0 ∷ 1 ∷ 97 ∷ 49 ∷ [])
        ≡ Err record { place = 0; fault = Form } }
{}
