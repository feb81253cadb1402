//! A batch of one edit: a put or a remove.
ghost use Rattle.std.specs.Prelude.{◌≡◌, ◌<◌, List, [], ◌∷◌, IfOk, IfErr};
ghost use Rattle.mst_key.specs.History.{batched};
ghost use Rattle.mst_key.specs.Map.{Pair};
ghost use Rattle.mst_node.specs.Cost.{cost};
ghost use Rattle.mst_arena.specs.Lives.{free_count};
ghost use Rattle.mst_arena.specs.Standing.{Stands};
ghost use Rattle.mst_path.specs.Takes.{FreeIsBlank, StaysBeside};
ghost use Rattle.mst_path.specs.Changing.{MapStands};
ghost use Rattle.mst_path.specs.AfterChange.{AfterChange};

use mst_arena::{Desk, Root, Rows};
use mst_key::{Edit, Format};
use mst_path::{NoRoom, put, remove};
use std::alloc::Allocator;

/// Makes one edit in the map that stands at a root, as `apply` makes a batch of it. No memory is
/// taken.
pub(crate) fn apply_one<R: Rows, A: Allocator>(
    rows: &mut R,
    desk: &mut Desk<A>,
    root: &Root,
    edit: &Edit,
    format: Format,
) -> Result<Root, NoRoom>
    requires stands { MapStands format (R.content rows.old) desk.old root.now }
    requires free { FreeIsBlank desk.old.lives (R.blank rows.old) }
    ensures changed { IfOk result (λ done. AfterChange format (R.content rows.old)
        (R.content rows.new) desk.old desk.new root.now done (λ m. batched m (edit.now ∷ []))) }
    ensures beside { StaysBeside R.blank R.kept rows.old rows.new }
    ensures no_room { IfErr result (λ _. (m : List Pair)
        → Stands format (R.content rows.old) root.now m
        → free_count desk.old.lives < cost format m (batched m (edit.now ∷ []))) }
    ensures untouched { IfErr result (λ _. (desk.new ≡ desk.old) × (rows.new ≡ rows.old)) }
{
    match edit {
        Edit::Put(key, value) => Ok(put(rows, desk, root, key, value, format)?.0),
        Edit::Remove(key) => Ok(remove(rows, desk, root, key, format)?.0),
    }
}
