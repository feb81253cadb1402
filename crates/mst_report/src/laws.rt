//! Laws of the lines. The function does nothing: its contract is the laws.
ghost use Rattle.std.specs.Prelude.{◌≡◌, ◌≢◌, ◌++◌, ℕ, List, true, codes};
ghost use Rattle.mst_report.specs.Report.{line_of, is_refusal};
ghost use Rattle.mst_report.specs.declared.report.Report.{Report};

/// What a line tells of its report.
pub fn line_laws()
    // no other report has the line of a refusal
    ensures differ { (a b : Report) → is_refusal a ≡ true → line_of a ≡ line_of b → a ≡ b }
    // the line of a refusal does not begin as that of an answer
    ensures apart { (a : Report) (rest : List ℕ) → is_refusal a ≡ true
        → (line_of a ≢ codes "present" ++ rest) × (line_of a ≢ codes "absent" ++ rest) }
{}
