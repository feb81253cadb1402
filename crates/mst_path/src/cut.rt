//! Where a key stands among the entries of a node.
ghost use Rattle.std.specs.Prelude.{◌≡◌, List};
ghost use Rattle.mst_key.specs.declared.format.Format.{Format};
ghost use Rattle.mst_arena.specs.Standing.{Placed, link_of};
ghost use Rattle.mst_path.specs.Writing.{PlacedEntry};
ghost use Rattle.mst_path.specs.Cutting.{EntriesLie, IsCut};

use crate::making::{EntryRun, no_run};
use mst_arena::{HeadLinks, Rows, Sought, Way};

/// The entries of a node, cut at a key.
#[derive(Clone, Copy)]
pub(crate) enum Cut {
    /// The key falls into the gap between the front and the back.
    Gap {
        /// The entries below the key.
        front: EntryRun,
        /// The link of the tree in the gap.
        child: u32,
        /// The entries above the key.
        back: EntryRun,
    },
    /// The key has an entry between the front and the back.
    Found {
        /// The entries below the key.
        front: EntryRun,
        /// The row of the key's entry.
        row: u32,
        /// The link of the tree in the gap before it.
        child: u32,
        /// The entries above the key.
        back: EntryRun,
    },
}

/// Cuts the entries of a node at a key. It reads the entries with keys up to the first that is not
/// below the key.
pub(crate) fn cut_at<R: Rows>(rows: &mut R, head: &HeadLinks, key: &Sought) -> Cut
    requires lies { (es : List PlacedEntry) × EntriesLie (R.content rows.old) head.now es }
    ensures cut { (format : Format) (es : List PlacedEntry) (tail : Placed)
        → EntriesLie (R.content rows.old) head.now es → link_of tail ≡ head.now.tail
        → IsCut format key.now es tail result }
    ensures same { rows.new ≡ rows.old }
{
    let first = head.first;
    let mut link = first;
    for count in 0..head.count {
        let row = link - 1;
        match rows.way(row, key) {
            Way::Child(child) => {
                return Cut::Gap {
                    front: EntryRun { first, count },
                    child,
                    back: EntryRun {
                        first: link,
                        count: head.count - count,
                    },
                };
            }
            Way::Here => {
                let entry = rows.entry(row);
                return Cut::Found {
                    front: EntryRun { first, count },
                    row,
                    child: entry.child,
                    back: EntryRun {
                        first: entry.next,
                        count: head.count - count - 1,
                    },
                };
            }
            Way::Next(next) => link = next,
        }
    }
    let count = head.count;
    Cut::Gap {
        front: EntryRun { first, count },
        child: head.tail,
        back: no_run(),
    }
}
