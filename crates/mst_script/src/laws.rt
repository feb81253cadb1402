//! Laws of the script machine. The function does nothing: its contract is the laws.
ghost use Rattle.std.specs.Prelude.{◌≡◌, ◌≢◌, ℕ, List, Option, Some, None, Ok, Err, codes};
ghost use Rattle.mst_key.specs.declared.format.Format.{Format};
ghost use Rattle.mst_key.specs.declared.history.Change.{Change};
ghost use Rattle.mst_key.specs.declared.history.Edit.{Edit};
ghost use Rattle.mst_key.specs.History.{History, after, format_after, value_after};
ghost use Rattle.mst_key.specs.Map.{map_get};
ghost use Rattle.mst_store.specs.Passes.{StoreId};
ghost use Rattle.mst_versions.specs.Writes.{rows_of};
ghost use Rattle.mst_requests.specs.declared.request.Command.TheVariants.{Put, Batch, Get};
ghost use Rattle.mst_requests.specs.declared.request.Fault.{Fault};
ghost use Rattle.mst_requests.specs.Grammar.{asked};
ghost use Rattle.mst_requests.specs.Texts.{fault_words, line_of, rows_words, value_words};
ghost use Rattle.mst_script.specs.Machine.{Machine, Applies, Counts, Line, Migrates, Writes};

/// What the machine answers.
pub fn script_laws()
    // in a store of one pass no line is answered `busy`, and `rows` is answered the count alone
    ensures lone_write { (store : StoreId) (p : ℕ) (change : Change) (h new : History)
        (text : List ℕ) → store.passes ≡ 1 → Writes store p change h text new
        → text ≢ line_of (codes "busy") }
    ensures lone_migration { (store : StoreId) (p : ℕ) (to : Format) (h new : History)
        (text : List ℕ) → store.passes ≡ 1 → Migrates store p to h text new
        → text ≢ line_of (codes "busy") }
    ensures lone_batch { (store : StoreId) (p : ℕ) (es : List Edit) (h new : History)
        (text : List ℕ) → store.passes ≡ 1 → Applies store p es h text new
        → text ≢ line_of (codes "busy") }
    ensures lone_count { (store : StoreId) (h new : History) (text : List ℕ) → store.passes ≡ 1
        → Counts store h text new
        → text ≡ line_of (rows_words (Some (rows_of (format_after store.format h) (after h)))) }
    // a line with a fault has one answer, and changes nothing
    ensures fault { (store : StoreId) (m new : Machine) (line : Option (List ℕ)) (text : List ℕ)
        (why : Fault) → asked store.passes line ≡ Err why → Line store m line text new
        → (text ≡ line_of (fault_words why)) × (new ≡ m) }
    // after a put that was made, each pass with no pin is told the value that was put
    ensures told { (store : StoreId) (m n o : Machine) (line next : Option (List ℕ))
        (text told : List ℕ) (p q : ℕ) (k v : List ℕ)
        → asked store.passes line ≡ Ok (record { pass = p; command = Put k v })
        → asked store.passes next ≡ Ok (record { pass = q; command = Get k }) → m.pinned q ≡ None
        → Line store m line text n → Line store n next told o → n.history ≢ m.history
        → told ≡ line_of (value_words (Some v)) }
    // after a batch that was made, each such pass is told what the batch leaves a key
    ensures told_by_batch { (store : StoreId) (m n o : Machine) (line next : Option (List ℕ))
        (text told : List ℕ) (p q : ℕ) (es : List Edit) (k : List ℕ)
        → asked store.passes line ≡ Ok (record { pass = p; command = Batch es })
        → asked store.passes next ≡ Ok (record { pass = q; command = Get k }) → m.pinned q ≡ None
        → Line store m line text n → Line store n next told o → n.history ≢ m.history
        → told ≡ line_of (value_words (value_after es k (map_get (after m.history) k))) }
{}
