//! Laws of the numbers of snapshots, and of the steps that they take, proved as the contracts of
//! functions that do nothing.
ghost use Rattle.std.specs.Prelude.{◌≡◌, ◌≤◌, ◌+◌, ℕ};
ghost use Rattle.mst_key.specs.History.{IsPrefix};
ghost use Rattle.mst_shards.specs.BlockHistory.{Whole, IsOneBlock, IsNumber};
ghost use Rattle.mst_snapshots.specs.Numbers.{HaveOneDirectory};
ghost use Rattle.mst_snapshots.specs.Reading.{SeesOn};
ghost use Rattle.mst_snapshots.specs.Tries.{PinsAfter, AllMakeSteps};

/// Of two snapshots of one map, of which one has seen a directory's history that the other's
/// begins with: the number of the later is no lower, and if the numbers are the same, so are the
/// directory, the format and the root digest.
pub fn number_laws()
    ensures rise { (w v : Whole) (n m : ℕ) → IsPrefix w.directory.seen v.directory.seen
        → IsNumber n w → IsNumber m v → n ≤ m }
    ensures same { (w v : Whole) (n : ℕ) → IsOneBlock w → IsOneBlock v
        → v.directory.store ≡ w.directory.store
        → IsPrefix w.directory.seen v.directory.seen → IsNumber n w → IsNumber n v
        → HaveOneDirectory w v }
    // a reader's snapshots, one after the other, are of such blocks
    ensures later { (w v : Whole) → SeesOn w v → (v.directory.store ≡ w.directory.store)
        × IsPrefix w.directory.seen v.directory.seen }
{}

/// Each try of a snapshot is one step of each pass.
pub fn tries_laws()
    ensures steps { (w v : Whole) (a : PinsAfter w v) → AllMakeSteps (a.tries + 1) w v }
{}
