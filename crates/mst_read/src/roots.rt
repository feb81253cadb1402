//! The root digest.
ghost use Rattle.std.specs.Prelude.{◌≡◌, List};
ghost use Rattle.mst_key.specs.declared.format.Format.{Format};
ghost use Rattle.mst_key.specs.Map.{Pair};
ghost use Rattle.mst_node.specs.Text as text;
ghost use Rattle.mst_arena.specs.Standing.{Stands};
ghost use Rattle.mst_read.specs.Search.{MapStands};

use mst_arena::{Root, Rows};

/// The root digest of the map that stands at the root: the SHA-256 (FIPS 180-4) of the text of its
/// tree's top node, or of the empty string for the empty map.
///
/// It reads no row: the root carries the digest.
pub fn root<R: Rows>(_rows: &mut R, root: &Root) -> [u8; 32]
    requires stands { MapStands (R.content _rows.old) root.now }
    ensures digest { (f : Format) (m : List Pair) → Stands f (R.content _rows.old) root.now m
        → result ≡ text.root f m }
    ensures same { _rows.new ≡ _rows.old }
{
    root.digest
}
