//! A pass: the calls that one thread makes.
ghost use Rattle.std.specs.Prelude.{◌≡◌, ◌↔◌, ◌+◌, ◌<◌, ◌^◌, [], length, IfOk, IfErr, IfSome, IsSome, OnOk, OnErr};
ghost use Rattle.mst_key.specs.declared.history.Change.TheVariants.{Put, Remove, Migrate};
ghost use Rattle.mst_key.specs.declared.history.Change.TheVariants as change;
ghost use Rattle.mst_key.specs.Map.{map_get, map_next, map_range};
ghost use Rattle.mst_node.specs.Text.{root};
ghost use Rattle.mst_node.specs.Trail.{proof_text};
ghost use Rattle.std.specs.Option.{option_copied};
ghost use Rattle.mst_store.specs.Passes.{Looks, Answers, format_seen, having_asked, made_by, AreFree, Wrote, FindsBusy, Refuses};
ghost use Rattle.mst_key.specs.History.{after, had, was, done, IsMigration, IsBatch};
ghost use Rattle.mst_versions.specs.Writes.{rows_of, AreFound};
ghost use Rattle.mst_versions.specs.Listing.{IsListing};
ghost use Rattle.mst_versions.specs.Migrating.{RefusesMigration};
ghost use Rattle.mst_batching.specs.Applying.{RefusesBatch};

use mst_batching::{ApplyFault, applying};
use mst_key::{Change, Edit, Event, Format, Key, Memory, Value};
use mst_versions::{
    Busy, MigrateFault, PassParameters, VersionList, WriteFault, counting, listing, migrating,
    reading, writing,
};
use mst_words::PassSeat;
use std::alloc::Allocator;
use std::marker::Model;

/// A pass of a store. It may be moved to another thread, and each of its calls runs in one thread.
///
/// A read pins the current version in one step, reads it, and ends the pin. Its place in the
/// history is that of the pin. No other pass can make it wait: the pin is its only step whose
/// answer depends on other passes (`once`).
#[derive(Drop)]
pub struct Pass<'a, A: Allocator + Copy> {
    pub(crate) seat: PassSeat<'a, A>,
    pub(crate) parameters: PassParameters,
    /// The version that the last write of the pass made.
    pub(crate) made: Option<u64>,
}

/// Contracts see which store it is of, its number, what it has seen, its own events, and the
/// version that the last of these made.
impl<'a, A: Allocator + Copy> Model for Pass<'a, A> {
    ghost use Rattle.mst_store.specs.Passes.{Known, known, IsAtRest};

    ghost Value = { Known };

    ghost view = { λ p. known p.parameters.number p.made p.seat };

    ghost invariant = { λ p. IsAtRest p.parameters p.seat };
}

impl<'a, A: Allocator + Copy> Pass<'a, A> {
    /// The number of the pass, from 1 to the number of the store's passes.
    pub fn number(&self) -> u32
        ensures number { result ≡ self.now.number }
    {
        self.parameters.number
    }

    /// Returns the value of the key in the current version, or `None` if the key has no value. It
    /// takes no memory.
    #[inline(always)]
    pub fn get(&mut self, key: &Key) -> Option<Value>
        ensures answers { Answers (λ _ m. map_get m key.now) self.old result self.new }
        ensures once { self.new.asked ≡ self.old.asked + 1 }
    {
        let at = reading::pin(&mut self.seat, self.parameters);
        let value = reading::get(&mut self.seat, &at, key);
        self.seat.unpin(self.parameters.number, at.pinned);
        value
    }

    /// Returns the pair of the least key above `after`, or the pair of the least key if `after` is
    /// `None`. Returns `None` if there is no such pair. It takes no memory.
    pub fn next(&mut self, after: Option<&Key>) -> Option<(Key, Value)>
        ensures answers { Answers (λ _ m. map_next m (option_copied after.entry)) self.old result
            self.new }
        ensures once { self.new.asked ≡ self.old.asked + 1 }
    {
        let at = reading::pin(&mut self.seat, self.parameters);
        let pair = reading::next(&mut self.seat, &at, after);
        self.seat.unpin(self.parameters.number, at.pinned);
        pair
    }

    /// Returns the first pairs, at most `limit`, whose keys are at least `from` and below `to`, in
    /// the order of their keys. A bound that is `None` does not bind.
    ///
    /// Returns `Memory` if the growth of the list was refused; the pass has then seen what it had
    /// seen before.
    pub fn range<B: Allocator>(
        &mut self,
        alloc: B,
        from: Option<&Key>,
        to: Option<&Key>,
        limit: usize,
    ) -> Result<Vec<(Key, Value), B>, Memory>
        ensures ok { IfOk result
            (λ found. Answers
            (λ _ m. map_range m (option_copied from.entry) (option_copied to.entry) limit) self.old
            found.items self.new) }
        ensures memory { OnErr result (self.new ≡ having_asked 1 self.old) }
        ensures once { self.new.asked ≡ self.old.asked + 1 }
    {
        let at = reading::pin(&mut self.seat, self.parameters);
        match reading::range(&mut self.seat, alloc, &at, from, to, limit) {
            Ok(found) => {
                self.seat.unpin(self.parameters.number, at.pinned);
                Ok(found)
            }
            Err(refused) => {
                // no pairs are answered, so none were seen
                self.seat.forget(self.parameters.number, at.pinned);
                Err(refused)
            }
        }
    }

    /// Returns how many pairs the map has. It takes no memory.
    ///
    /// It reads the head of each node, and the links of the entries above the lowest layer.
    pub fn len(&mut self) -> u64
        ensures answers { Answers (λ _ m. length m) self.old result self.new }
        ensures once { self.new.asked ≡ self.old.asked + 1 }
    {
        let at = reading::pin(&mut self.seat, self.parameters);
        let len = reading::len(&mut self.seat, &at);
        self.seat.unpin(self.parameters.number, at.pinned);
        len
    }

    /// Returns the format of the current version: that of the last migration, or the one that the
    /// store was opened with if there was no migration. It takes no memory.
    pub fn format(&mut self) -> Format
        ensures answers { Answers (λ f _. f) self.old result self.new }
        ensures once { self.new.asked ≡ self.old.asked + 1 }
    {
        let at = reading::pin(&mut self.seat, self.parameters);
        let format = reading::format(&mut self.seat, &at);
        self.seat.unpin(self.parameters.number, at.pinned);
        format
    }

    /// Returns the root digest of the map in the version's format: the SHA-256 (FIPS 180-4) of the
    /// text of its tree's top node, or of the empty string for the empty map. It depends on nothing
    /// but the format and the pairs of the map. It takes no memory.
    pub fn root(&mut self) -> [u8; 32]
        ensures answers { Answers root self.old result self.new }
        ensures once { self.new.asked ≡ self.old.asked + 1 }
    {
        let at = reading::pin(&mut self.seat, self.parameters);
        let digest = reading::root(&mut self.seat, &at);
        self.seat.unpin(self.parameters.number, at.pinned);
        digest
    }

    /// Returns the proof of the map's answer for the key, value or absence, against the root
    /// digest, in fewer than 2^32 bytes. It holds the texts of the nodes that a search for the key
    /// meets, from the top down, each after its length in four bytes. Before them stand the number
    /// of the version's format and the number of these texts. In format 2 the value itself, or that
    /// there is none, stands at the end.
    ///
    /// Returns `Memory` if a growth was refused; the pass has then seen what it had seen before.
    pub fn prove<B: Allocator + Copy>(&mut self, alloc: B, key: &Key) -> Result<Vec<u8, B>, Memory>
        ensures ok { IfOk result
            (λ found. Answers (λ f m. proof_text f m key.now) self.old found.items self.new) }
        ensures short { IfOk result (λ found. length found.items < 2 ^ 32) }
        ensures memory { OnErr result (self.new ≡ having_asked 1 self.old) }
        ensures once { self.new.asked ≡ self.old.asked + 1 }
    {
        let at = reading::pin(&mut self.seat, self.parameters);
        match reading::prove(&mut self.seat, alloc, &at, key) {
            Ok(proof) => {
                self.seat.unpin(self.parameters.number, at.pinned);
                Ok(proof)
            }
            Err(refused) => {
                // no proof is answered, so no map was seen
                self.seat.forget(self.parameters.number, at.pinned);
                Err(refused)
            }
        }
    }

    /// Returns how many rows the map takes: one for each key and one for each node of its tree.
    /// Returns `None` exactly if a version was found pinned, which never happens in a store of one
    /// pass. It takes no memory.
    ///
    /// Returns `Busy` only if another pass has the turn.
    pub fn rows(&mut self) -> Result<Option<u32>, Busy>
        ensures looks { OnOk result (Looks self.old self.new) }
        ensures some { IfOk result
            (λ found. IfSome found
            (λ n. n ≡ rows_of (format_seen self.new) (after self.new.seen))) }
        ensures alone { IfOk result (λ found. self.old.store.passes ≡ 1 → IsSome found) }
        ensures exact { IfOk result (λ found. IsSome found ↔ (self.new.found ≡ [])) }
        ensures found { OnOk result
            (AreFound (self.old.store.passes + 1) self.new.seen self.new.found) }
        ensures steps { OnOk result (self.new.asked ≡ self.old.asked + self.old.store.passes + 4) }
        ensures busy { OnErr result (FindsBusy self.old self.new) }
    {
        counting::rows(&mut self.seat, self.parameters)
    }

    /// Returns how many rows are free to the next write: all rows but those that the current
    /// version and the versions found pinned hold together. It takes no memory.
    ///
    /// As long as no pass writes and none begins or ends a pin, a write that takes at most that
    /// many rows is not refused with `NoRoom`, and one that takes more is ([`free_rows_laws`]).
    /// What a write takes stands at [`Pass::try_put`].
    ///
    /// Returns `Busy` only if another pass has the turn.
    ///
    /// [`free_rows_laws`]: crate::free_rows_laws
    pub fn free_rows(&mut self) -> Result<u32, Busy>
        ensures looks { OnOk result (Looks self.old self.new) }
        ensures exact { IfOk result (λ free. AreFree free self.new) }
        ensures alone { IfOk result (λ free. self.new.found ≡ []
            → free + rows_of (format_seen self.new) (after self.new.seen) ≡ self.new.store.rows) }
        ensures found { OnOk result
            (AreFound self.old.store.passes self.new.seen self.new.found) }
        ensures steps { OnOk result (self.new.asked ≡ self.old.asked + self.old.store.passes + 2) }
        ensures busy { OnErr result (FindsBusy self.old self.new) }
    {
        counting::free_rows(&mut self.seat, self.parameters)
    }

    /// Returns the numbers of the versions that are found pinned, in ascending order, each once.
    /// The current version is among them only if a pass pins it. It takes no memory.
    ///
    /// Returns `Busy` only if another pass has the turn.
    pub fn pinned_versions(&mut self) -> Result<VersionList, Busy>
        ensures looks { OnOk result (Looks self.old self.new) }
        ensures exact { IfOk result (λ versions. IsListing self.new.found versions.items) }
        ensures found { OnOk result
            (AreFound (self.old.store.passes + 1) self.new.seen self.new.found) }
        ensures steps { OnOk result (self.new.asked ≡ self.old.asked + self.old.store.passes + 4) }
        ensures busy { OnErr result (FindsBusy self.old self.new) }
    {
        listing::pinned_versions(&mut self.seat, self.parameters)
    }

    /// Returns the number of the current version: how many events led to it. It takes no memory.
    pub fn version(&mut self) -> u64
        ensures looks { Looks self.old self.new }
        ensures version { result ≡ length self.new.seen }
        ensures once { self.new.asked ≡ self.old.asked + 1 }
    {
        let at = reading::pin(&mut self.seat, self.parameters);
        self.seat.unpin(self.parameters.number, at.pinned);
        at.version
    }

    /// Returns the version that the last write of the pass made, or `None` if it has made none: its
    /// last put, remove, migration or batch that was not refused. Unlike [`Pass::version`] it takes
    /// no step, so what other passes wrote since does not count.
    pub fn made(&self) -> Option<u64>
        ensures made { result ≡ self.now.made }
    {
        self.made
    }

    // Makes a change of a key, and returns the value that it had.
    fn write(&mut self, change: Change) -> Result<Option<Value>, WriteFault>
        requires keyed { IsMigration change → ⊥ }
        requires single { IsBatch change → ⊥ }
        ensures ok { IfOk result
            (λ old. Wrote (made_by self.old change.entry) self.old (had old) self.new) }
        ensures err { IfErr result (λ fault. Refuses fault change.entry self.old self.new) }
    {
        let event = Event {
            pass: self.parameters.number,
            change,
        };
        let (old, version) = writing::write(&mut self.seat, self.parameters, &event)?;
        self.made = Some(version);
        Ok(old)
    }

    /// Gives the key the value, and returns the value that the key had, or `None` if it had none.
    /// It takes no memory.
    ///
    /// Returns `Busy` only if another pass has the turn; otherwise `VersionsSpent` exactly if the
    /// current version has the last number; otherwise `NoRoom` exactly if too few rows are free for
    /// the nodes that the write makes new.
    ///
    /// A write copies whole nodes along its path. It costs a row for each entry and one for each
    /// node that it makes new. All rows are free but those that the live versions hold: the current
    /// one, and those that were found pinned, at most one for each other pass. A node that several
    /// of them share counts once. In a store of one pass these are the rows of the map. A put of
    /// the value that the key has costs nothing.
    pub fn try_put(&mut self, key: &Key, value: &Value) -> Result<Option<Value>, WriteFault>
        ensures ok { IfOk result
            (λ old. Wrote (made_by self.old (Put key.now value.now)) self.old (had old) self.new) }
        ensures err { IfErr result
            (λ fault. Refuses fault (Put key.now value.now) self.old self.new) }
    {
        self.write(Change::Put(key.copy(), value.copy()))
    }

    /// Takes the key out of the map, and returns the value that the key had, or `None` if it had
    /// none. It takes no memory.
    ///
    /// Returns the errors of [`Pass::try_put`], each under the same condition. A remove of an
    /// absent key costs nothing.
    pub fn try_remove(&mut self, key: &Key) -> Result<Option<Value>, WriteFault>
        ensures ok { IfOk result
            (λ old. Wrote (made_by self.old (Remove key.now)) self.old (had old) self.new) }
        ensures err { IfErr result (λ fault. Refuses fault (Remove key.now) self.old self.new) }
    {
        self.write(Change::Remove(key.copy()))
    }

    /// Turns the tree of the map to the format `to`, and returns the format that it had. The map
    /// stays as it is, and the history gets one event. Readers go on: a pass that pins an older
    /// version reads and proves in that version's format.
    ///
    /// A migration to another format takes a row for each pair and each node of the new tree,
    /// in addition to those of the old one, and memory for the list of the pairs and for the tree,
    /// which is given back before the call returns. A migration to the current format takes
    /// neither.
    ///
    /// Returns `Busy` only if another pass has the turn; otherwise `VersionsSpent` exactly if the
    /// current version has the last number; otherwise `Memory` if a growth was refused; otherwise
    /// `NoRoom` exactly if too few rows are free, as for [`Pass::try_put`].
    pub fn try_migrate<B: Allocator + Copy>(
        &mut self,
        alloc: B,
        to: Format,
    ) -> Result<Format, MigrateFault>
        ensures ok { IfOk result
            (λ format. Wrote (made_by self.old (Migrate to)) self.old (was format) self.new) }
        ensures err { IfErr result (λ fault. RefusesMigration fault to self.old self.new) }
    {
        let (was, made) = migrating::migrate(&mut self.seat, alloc, self.parameters, to)?;
        self.made = Some(made);
        Ok(was)
    }

    /// Makes the edits, one after another, as one change: of edits of one key the last decides, and
    /// the history gets one event. Readers see the map after all of them or the one before them.
    ///
    /// A batch takes a row for each entry and one for each node of the tree after it that the tree
    /// before it has not. Edits that change nothing take no row; each batch is a new version all
    /// the same. A batch of at most one edit takes no memory. Otherwise all memory is taken
    /// before the first row is written, and given back before the call returns. Other passes are
    /// refused the turn for the whole of the call.
    ///
    /// Returns `Busy` only if another pass has the turn; otherwise `VersionsSpent` exactly if the
    /// current version has the last number; otherwise `Memory` if a growth was refused; otherwise
    /// `NoRoom` exactly if too few rows are free, as for [`Pass::try_put`].
    pub fn try_apply<B: Allocator + Copy>(
        &mut self,
        alloc: B,
        edits: &[Edit],
    ) -> Result<(), ApplyFault>
        ensures ok { OnOk result
            (Wrote (made_by self.old (change.Batch edits.now)) self.old done self.new) }
        ensures err { IfErr result (λ fault. RefusesBatch fault edits.now self.old self.new) }
    {
        let version = applying::apply(&mut self.seat, alloc, self.parameters, edits)?;
        self.made = Some(version);
        Ok(())
    }
}
