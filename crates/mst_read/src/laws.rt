//! A law of the definitions, proved as the contract of a function that does nothing.
ghost use Rattle.std.specs.Prelude.{List};
ghost use Rattle.mst_key.specs.Map.{Pair};
ghost use Rattle.mst_key.specs.declared.format.Format.{Format};
ghost use Rattle.mst_arena.specs.Content.{Content};
ghost use Rattle.mst_arena.specs.Standing.{Stands};
ghost use Rattle.mst_arena.specs.declared.row.Root.{Root};
ghost use Rattle.mst_read.specs.Search.{MapStands};

/// If the rows of a map stand, in either format, the reads that walk links may be called.
pub fn each_map_may_be_read()
    ensures stands { (format : Format) (content : Content) (at : Root) (m : List Pair)
        → Stands format content at m → MapStands content at }
{}
