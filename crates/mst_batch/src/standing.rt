//! A tree that stands, as an item.
ghost use Rattle.std.specs.Prelude.{◌≡◌, ◌++◌, OnOk};
ghost use Rattle.mst_key.specs.declared.format.Format.{Format};
ghost use Rattle.mst_arena.specs.Standing.{Placed};
ghost use Rattle.mst_read.specs.Search.{Lies, TreeLies};
ghost use Rattle.mst_batch.specs.Tops.{tree_items};

use crate::items::Item;
use mst_arena::Rows;
use mst_key::Memory;
use mst_read::head_at;
use std::alloc::Allocator;

/// Adds the tree at a link, if there is one.
pub(crate) fn push_tree<R: Rows, A: Allocator>(
    rows: &mut R,
    link: u32,
    items: &mut Vec<Item<'_>, A>,
) -> Result<(), Memory>
    requires lies { TreeLies (R.content rows.old) link }
    ensures items { OnOk result ((format : Format) (p : Placed)
        → Lies format (R.content rows.old) link p
        → items.new.items ≡ items.old.items ++ tree_items p) }
    ensures same { rows.new ≡ rows.old }
{
    if let Some(head) = head_at(rows, link) {
        items.push(Item::Subtree {
            link,
            layer: head.layer,
        })?;
    }
    Ok(())
}
