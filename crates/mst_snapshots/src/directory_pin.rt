//! The pin of a directory, laid down. It is lifted for each call, and laid down again.
ghost use Rattle.std.specs.Prelude.{◌≡◌, ◌<◌, ◌^◌, length, IfOk, IsSome, unwrap_or};
ghost use Rattle.std.specs.Option.{option_copied};
ghost use Rattle.mst_key.specs.History.{after};
ghost use Rattle.mst_key.specs.Map.{map_range};
ghost use Rattle.mst_node.specs.Text.{root as root_of};
ghost use Rattle.mst_node.specs.Trail.{proof_text};
ghost use Rattle.mst_store.specs.Passes.{format_seen};
ghost use Rattle.mst_snapshots.specs.Reading.{no_pass};

use mst_key::{Format, Key, Memory, Value};
use mst_store::{LaidPinned, Pinned, Store};
use std::alloc::Allocator;
use std::marker::Model;

/// A pinned pass of a directory, laid down. It is there between calls.
#[derive(Drop)]
pub(crate) struct DirectoryPin<A: Allocator + Copy> {
    laid: Option<LaidPinned<A>>,
}

/// Contracts see what they see of the pinned pass.
impl<A: Allocator + Copy> Model for DirectoryPin<A> {
    ghost use Rattle.std.specs.Prelude.{IsSome, unwrap_or};
    ghost use Rattle.mst_store.specs.Passes.{Known};
    ghost use Rattle.mst_snapshots.specs.Reading.{no_pass};

    ghost Value = { Known };

    ghost view = { λ d. unwrap_or d.laid no_pass };

    ghost invariant = { λ d. IsSome d.laid };
}

impl<A: Allocator + Copy> DirectoryPin<A> {
    /// Keeps a pinned pass.
    pub(crate) fn of(laid: LaidPinned<A>) -> DirectoryPin<A>
        ensures same { result ≡ laid }
    {
        DirectoryPin { laid: Some(laid) }
    }

    /// The pinned pass.
    pub(crate) fn into_laid(self) -> LaidPinned<A>
        ensures same { result ≡ self }
    {
        match self.laid {
            Some(laid) => laid,
            None => unreachable!(),
        }
    }

    /// The root digest of the pinned directory, whose store this is.
    pub(crate) fn root(&mut self, store: &Store<A>) -> [u8; 32]
        requires own { self.old.store ≡ store.now }
        ensures found { result ≡ root_of (format_seen self.old) (after self.old.seen) }
        ensures same { self.new ≡ self.old }
    {
        let mut pinned = lifted(store, self.laid.take());
        let digest = pinned.root();
        self.laid = Some(pinned.lay());
        digest
    }

    /// The format of the pinned directory.
    pub(crate) fn format(&mut self, store: &Store<A>) -> Format
        requires own { self.old.store ≡ store.now }
        ensures found { result ≡ format_seen self.old }
        ensures same { self.new ≡ self.old }
    {
        let mut pinned = lifted(store, self.laid.take());
        let format = pinned.format();
        self.laid = Some(pinned.lay());
        format
    }

    /// The pairs of the pinned directory, at most `limit`.
    pub(crate) fn pairs<B: Allocator>(
        &mut self,
        store: &Store<A>,
        alloc: B,
        limit: usize,
    ) -> Result<Vec<(Key, Value), B>, Memory>
        requires own { self.old.store ≡ store.now }
        ensures found { IfOk result
            (λ found. found.items ≡ map_range (after self.old.seen) None None limit) }
        ensures same { self.new ≡ self.old }
    {
        let mut pinned = lifted(store, self.laid.take());
        let pairs = pinned.range(alloc, None, None, limit);
        self.laid = Some(pinned.lay());
        pairs
    }

    /// The proof of the pinned directory's answer for a key.
    pub(crate) fn prove<B: Allocator + Copy>(
        &mut self,
        store: &Store<A>,
        alloc: B,
        key: &Key,
    ) -> Result<Vec<u8, B>, Memory>
        requires own { self.old.store ≡ store.now }
        ensures found { IfOk result (λ found. found.items
            ≡ proof_text (format_seen self.old) (after self.old.seen) key.now) }
        ensures short { IfOk result (λ found. length found.items < 2 ^ 32) }
        ensures same { self.new ≡ self.old }
    {
        let mut pinned = lifted(store, self.laid.take());
        let text = pinned.prove(alloc, key);
        self.laid = Some(pinned.lay());
        text
    }
}

// Lifts the pinned pass that is there.
fn lifted<'a, A: Allocator + Copy>(
    store: &'a Store<A>,
    laid: Option<LaidPinned<A>>,
) -> Pinned<'a, A>
    requires there { IsSome laid }
    requires own { (unwrap_or laid no_pass).store ≡ store.now }
    ensures same { result ≡ unwrap_or laid no_pass }
{
    match laid {
        Some(pin) => store.lift_pinned(pin),
        None => unreachable!(),
    }
}
