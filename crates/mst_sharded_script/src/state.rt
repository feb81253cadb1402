//! A script over a sharded map: its writer, its passes, and what its map was opened with.
ghost use Rattle.std.specs.Prelude.{◌≡◌, ◌≤◌, ◌<◌, ◌+◌, ◌++◌, ◌∷◌, [], length, vec_len, vec_capacity, None, IfOk};
ghost use Rattle.std.specs.List.{SwappedAt};
ghost use Rattle.mst_shards.specs.Sharding.{IsSplits};
ghost use Rattle.mst_sharded_script.specs.States.{Free, Pinned, are_free, in_format, moved, with_reader as state_with_reader, with_readers as states_with_readers};
ghost use Rattle.mst_sharded_script.specs.Opening.{IsScriptShape, IsNewScript};

use crate::opening::open_map;
use mst_blocks::Writer;
use mst_key::{Format, Key, Memory};
use mst_snapshots::{Reader, Snapshot};
use mst_store::Shape;
use std::alloc::Allocator;
use std::collections::VecDeque;
use std::marker::Model;
use std::sync::Wait;

// ---- a pass

/// What a pass has.
#[derive(Drop)]
pub enum Holding<A: Allocator + Copy> {
    /// It has pinned nothing.
    Free(Reader<A>),
    /// It has pinned a snapshot. If the map has moved since, its reader of the new map stands by.
    Pinned(Snapshot<A>, Option<Reader<A>>),
}

/// A pass of a script.
#[derive(Drop)]
pub struct ScriptPass<A: Allocator + Copy> {
    /// What it has.
    pub holding: Holding<A>,
}

/// Contracts see whether it has pinned anything, and what is known of the map.
impl<A: Allocator + Copy> Model for ScriptPass<A> {
    ghost use Rattle.mst_sharded_script.specs.States.{PassState, pass_of};

    ghost Value = { PassState };

    ghost view = { λ p. pass_of p.holding };
}

impl<A: Allocator + Copy> ScriptPass<A> {
    /// A pass that has pinned nothing.
    pub fn free(reader: Reader<A>) -> ScriptPass<A>
        ensures { result ≡ Free reader }
    {
        ScriptPass {
            holding: Holding::Free(reader),
        }
    }

    /// A pass that has pinned a snapshot.
    pub fn pinned(snapshot: Snapshot<A>, spare: Option<Reader<A>>) -> ScriptPass<A>
        ensures { result ≡ Pinned snapshot spare }
    {
        ScriptPass {
            holding: Holding::Pinned(snapshot, spare),
        }
    }

    // The pass with the reader that it has from now on, or from the end of its pin on.
    fn with_reader(self, reader: Reader<A>) -> ScriptPass<A>
        ensures { result ≡ state_with_reader reader self }
    {
        let ScriptPass { holding } = self;
        match holding {
            Holding::Free(_) => ScriptPass::free(reader),
            Holding::Pinned(snapshot, _) => ScriptPass::pinned(snapshot, Some(reader)),
        }
    }
}

// The passes of these readers, none of which has pinned anything.
fn all_free<A: Allocator + Copy>(
    alloc: A,
    readers: Vec<Reader<A>, A>,
) -> Result<Vec<ScriptPass<A>, A>, Memory>
    ensures free { IfOk result (λ passes. passes.items ≡ are_free readers.items) }
{
    let mut passes = Vec::new(alloc);
    for reader in readers {
        passes.push(ScriptPass::free(reader))?;
    }
    Ok(passes)
}

/// Puts a pass back to its place, from which another one may have gone to the end.
pub fn put_back<A: Allocator + Copy>(
    passes: &mut Vec<ScriptPass<A>, A>,
    place: usize,
    pass: ScriptPass<A>,
)
    requires there { place ≤ vec_len passes.old }
    requires room { vec_len passes.old < vec_capacity passes.old }
    ensures back { SwappedAt (passes.old.items ++ pass ∷ []) passes.new.items place
        (vec_len passes.old) }
    ensures len { vec_len passes.new ≡ vec_len passes.old + 1 }
{
    let last = passes.len();
    passes.push_reserved(pass);
    passes.as_mut_slice().swap(place, last);
}

// Gives each pass a reader.
fn give_readers<A: Allocator + Copy>(
    passes: Vec<ScriptPass<A>, A>,
    readers: Vec<Reader<A>, A>,
) -> Vec<ScriptPass<A>, A>
    requires count { vec_len readers ≡ vec_len passes }
    ensures given { result.items ≡ states_with_readers readers.items passes.items }
    ensures len { vec_len result ≡ vec_len passes }
{
    let mut given = VecDeque::from_vec(passes);
    for reader in readers {
        let Some(pass) = given.pop_front() else {
            unreachable!()
        };
        given.push_back_reserved(pass.with_reader(reader));
    }
    given.into_vec()
}

// ---- the whole

/// What the map of a script was opened with, and how many versions there were before its first
/// block.
#[derive(Drop)]
pub struct Layout<A: Allocator> {
    pub(crate) splits: Vec<Key, A>,
    // the passes are those of the script, without the writer's
    pub(crate) shape: Shape,
    pub(crate) before: u64,
}

/// Contracts see all of it.
impl<A: Allocator> Model for Layout<A> {
    ghost use Rattle.mst_shards.specs.Sharding.{IsSplits};
    ghost use Rattle.mst_sharded_script.specs.Opening.{IsScriptShape};
    ghost use Rattle.mst_sharded_script.specs.States.{LayoutState};

    ghost Value = { LayoutState };

    ghost view = { λ l. record { splits = l.splits.items; shape = l.shape; before = l.before } };

    ghost invariant = { λ l. IsSplits l.splits.items × IsScriptShape l.shape };
}

impl<A: Allocator> Layout<A> {
    /// The splits of the map.
    pub fn splits(&self) -> &[Key]
        ensures splits { result.now ≡ self.now.splits }
        ensures is { IsSplits result.now }
    {
        self.splits.as_slice()
    }

    /// How many versions there were before the first block.
    pub fn before(&self) -> u64
        ensures before { result ≡ self.now.before }
    {
        self.before
    }

    /// The shape in a format.
    pub fn shape_in(&self, format: Format) -> Shape
        ensures shape { result ≡ in_format format self.now.shape }
        ensures is { IsScriptShape result }
    {
        Shape {
            rows: self.shape.rows,
            passes: self.shape.passes,
            format,
        }
    }
}

/// A map that takes the place of another one: its writer and its readers, its format, and how many
/// versions there were before its first block.
#[derive(Drop)]
pub struct NewMap<A: Allocator + Copy> {
    pub(crate) writer: Writer<A>,
    pub(crate) readers: Vec<Reader<A>, A>,
    pub(crate) format: Format,
    pub(crate) before: u64,
}

/// Contracts see all of it.
impl<A: Allocator + Copy> Model for NewMap<A> {
    ghost use Rattle.mst_sharded_script.specs.States.{NewMapState};

    ghost Value = { NewMapState };

    ghost view = { λ m. record {
      writer = m.writer;
      readers = m.readers.items;
      format = m.format;
      before = m.before;
    } };
}

/// A script over a sharded map: the one writer of the map, by which each pass writes, and the
/// passes.
#[derive(Drop)]
pub struct Script<A: Allocator + Copy> {
    pub(crate) writer: Writer<A>,
    pub(crate) passes: Vec<ScriptPass<A>, A>,
    pub(crate) layout: Layout<A>,
}

/// Contracts see the writer, the passes in the order of their numbers, and the layout.
impl<A: Allocator + Copy> Model for Script<A> {
    ghost use Rattle.std.specs.Prelude.{◌≡◌, vec_len};
    ghost use Rattle.mst_sharded_script.specs.States.{ScriptState};

    ghost Value = { ScriptState };

    ghost view = { λ s. record {
      writer = s.writer;
      passes = s.passes.items;
      layout = s.layout;
    } };

    ghost invariant = { λ s. vec_len s.passes ≡ s.layout.shape.passes };
}

impl<A: Allocator + Copy> Script<A> {
    /// A script over a new map with these splits and with shards of this shape, whose passes are
    /// those of the script.
    ///
    /// Returns `Memory` if a growth was refused.
    pub fn open<R: Wait>(
        rt: &R,
        alloc: A,
        splits: Vec<Key, A>,
        shape: Shape,
    ) -> Result<Script<A>, Memory>
        requires splits { IsSplits splits.items }
        requires shape { IsScriptShape shape }
        ensures new { IfOk result (λ s. IsNewScript splits.items shape s) }
    {
        let (writer, readers) = open_map(rt, alloc, splits.as_slice(), shape)?;
        let passes = all_free(alloc, readers)?;
        Ok(Script {
            writer,
            passes,
            layout: Layout {
                splits,
                shape,
                before: 0,
            },
        })
    }

    /// How many passes there are.
    pub fn passes(&self) -> u32
        ensures count { result ≡ length self.now.passes }
    {
        self.layout.shape.passes
    }

    /// The script over a map that takes the place of its own.
    pub(crate) fn moved_to(self, new: NewMap<A>) -> Script<A>
        requires count { length new.readers ≡ length self.passes }
        ensures moved { result ≡ moved new self }
    {
        let Script {
            writer: _,
            passes,
            layout,
        } = self;
        let NewMap {
            writer,
            readers,
            format,
            before,
        } = new;
        let shape = layout.shape_in(format);
        let Layout {
            splits,
            shape: _,
            before: _,
        } = layout;
        Script {
            writer,
            passes: give_readers(passes, readers),
            layout: Layout {
                splits,
                shape,
                before,
            },
        }
    }
}
