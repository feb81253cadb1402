//! The greatest layer of items, and trees of it, opened.
ghost use Rattle.std.specs.Prelude.{◌≡◌, ◌<◌, List, [], ◌∷◌, ◌++◌, IfOk, OnOk};
ghost use Rattle.std.specs.List.{AllByRecursion, flat_map};
ghost use Rattle.mst_key.specs.declared.format.Format.{Format};
ghost use Rattle.mst_arena.specs.Standing.{Placed};
ghost use Rattle.mst_read.specs.Search.{Lies, TreeLies};
ghost use Rattle.mst_batch.specs.Items.{IsItem, layer_of as layer_of_item};
ghost use Rattle.mst_batch.specs.Tops.{IsStanding, IsTop, is_tree, node_items, opened as opened_item};
ghost use Rattle.mst_batch.specs.declared.items.Item.{Item};

use crate::items::Item;
use crate::standing::push_tree;
use mst_arena::Rows;
use mst_key::Memory;
use std::alloc::Allocator;

/// The greatest layer of items, and what is of it.
#[derive(Clone, Copy)]
pub(crate) struct Top {
    /// The greatest layer, 0 if there is no item.
    pub layer: u8,
    /// Whether a tree is of this layer.
    pub has_tree: bool,
    /// How many pairs are of this layer. It is a hint for the room that their node needs, and has
    /// no clause: a wrong one costs a growth alone.
    pub pairs: usize,
}

/// The layer of an item.
fn layer_of(item: &Item<'_>) -> u8
    ensures layer { result ≡ layer_of_item item.now }
{
    match item {
        Item::Put { layer, .. } => *layer,
        Item::Kept { layer, .. } => *layer,
        Item::Subtree { layer, .. } => *layer,
    }
}

/// Whether an item is a tree.
fn is_tree(item: &Item<'_>) -> bool
    ensures tree { result ≡ is_tree (layer_of_item item.now) item.now }
{
    match item {
        Item::Put { .. } => false,
        Item::Kept { .. } => false,
        Item::Subtree { .. } => true,
    }
}

/// The top of some items and of one more after them.
fn with_item(top: Top, item: &Item<'_>) -> Top
    ensures top { (items : List Item) → IsTop top.layer top.has_tree items
        → IsTop result.layer result.has_tree (items ++ item.now ∷ []) }
{
    let (layer, has_tree) = (layer_of(item), is_tree(item));
    let pairs = usize::from(!has_tree);
    if layer < top.layer {
        return top;
    }
    if layer > top.layer {
        return Top {
            layer,
            has_tree,
            pairs,
        };
    }
    Top {
        layer,
        has_tree: top.has_tree | has_tree,
        pairs: top.pairs.saturating_add(pairs),
    }
}

/// The top of items.
#[inline(never)]
pub(crate) fn top_of(items: &[Item<'_>]) -> Top
    ensures top { IsTop result.layer result.has_tree items.now }
{
    let mut top = Top {
        layer: 0,
        has_tree: false,
        pairs: 0,
    };
    for item in items {
        top = with_item(top, item);
    }
    top
}

/// Adds the pairs of the node at a link, and between them the trees below it.
fn push_node<R: Rows, A: Allocator>(
    rows: &mut R,
    link: u32,
    items: &mut Vec<Item<'_>, A>,
) -> Result<(), Memory>
    requires lies { TreeLies (R.content rows.old) link }
    requires some { 0 < link }
    ensures items { OnOk result ((format : Format) (p : Placed)
        → Lies format (R.content rows.old) link p
        → items.new.items ≡ items.old.items ++ node_items p) }
    ensures same { rows.new ≡ rows.old }
{
    let head = rows.head(link - 1);
    let mut next = head.first;
    for _ in 0..head.count {
        let entry = rows.entry(next - 1);
        push_tree(rows, entry.child, items)?;
        items.push(Item::Kept {
            row: next - 1,
            layer: head.layer,
        })?;
        next = entry.next;
    }
    push_tree(rows, head.tail, items)
}

/// Adds a copy of an item, or what its node is opened to if it is a tree of the layer.
fn push_opened<'b, R: Rows, A: Allocator>(
    rows: &mut R,
    item: &Item<'b>,
    layer: u8,
    opened: &mut Vec<Item<'b>, A>,
) -> Result<(), Memory>
    requires item { (format : Format) × (whole : Placed)
        × IsStanding format (R.content rows.old) whole × IsItem format whole item.now }
    ensures items { OnOk result ((format : Format) (whole : Placed)
        → IsStanding format (R.content rows.old) whole → IsItem format whole item.now
        → opened.new.items ≡ opened.old.items ++ opened_item whole layer item.now) }
    ensures same { rows.new ≡ rows.old }
{
    match item {
        Item::Subtree { link, layer: own } if *own == layer => push_node(rows, *link, opened),
        _ => Ok(opened.push(*item)?),
    }
}

/// A copy of items, in which each tree of the layer is opened. Returns `Memory` only if a growth
/// was refused.
#[inline(never)]
pub(crate) fn opened_at<'b, R: Rows, A: Allocator>(
    rows: &mut R,
    alloc: A,
    items: &[Item<'b>],
    layer: u8,
) -> Result<Vec<Item<'b>, A>, Memory>
    requires items { (format : Format) × (whole : Placed)
        × IsStanding format (R.content rows.old) whole
        × AllByRecursion (IsItem format whole) items.now }
    ensures items { IfOk result (λ opened. (format : Format) (whole : Placed)
        → IsStanding format (R.content rows.old) whole
        → AllByRecursion (IsItem format whole) items.now
        → opened.items ≡ flat_map (opened_item whole layer) items.now) }
    ensures same { rows.new ≡ rows.old }
{
    let mut opened = Vec::new(alloc);
    for item in items {
        push_opened(rows, item, layer, &mut opened)?;
    }
    Ok(opened)
}
