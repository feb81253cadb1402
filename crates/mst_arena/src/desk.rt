//! The desk: births and deaths of rows, and the version of each record.
ghost use Rattle.std.specs.Prelude.{◌≡◌, ◌≢◌, ◌≤◌, ◌<◌, ◌+◌, ℕ, List, [], length, map, replicate, vec_capacity, IfOk, IfSome, IfNone, MatchResult, Some, slice_get, slice_set, slice_index};
ghost use Rattle.mst_arena.specs.Limits.{most_rows};
ghost use Rattle.mst_arena.specs.Lives.{State, version, next, last_version, free_count, swept_life, ended_life, with_life};
ghost use Rattle.mst_arena.specs.Undone.{undone};
ghost use Rattle.sha2.specs.Sha256.{sha256};
ghost use Rattle.mst_prefix.specs.Kept.{HasTaken};
ghost use Rattle.mst_arena.specs.declared.life.Life.TheVariants.{Free, Born};

use crate::free_rows::FreeRows;
use crate::life::Life;
use crate::sweep::{look_again, sweep_dead};
use crate::undo::undo_all;
use mst_key::Memory;
use mst_prefix::{LayerBeginnings, TextHasher};
use std::alloc::Allocator;
use std::marker::Model;
use thiserror::Error;

/// The number of the last version, 2^63 - 1.
const LAST_VERSION: u64 = 9_223_372_036_854_775_807;

/// The current version has the last number, 2^63 - 1.
#[derive(Clone, Copy, Debug, PartialEq, Eq, Error)]
#[error("version numbers are spent")]
pub struct VersionsSpent;

/// Which rows are free, and from which version to which the others are reached. It also knows which
/// record is the current one, and which version each record holds.
///
/// Version v reaches a row that was born with version b, and did not die, exactly if b <= v, and
/// one that died with version d exactly if b <= v < d. A write takes rows for the version to come,
/// [`Desk::next_version`], and kills rows of the current one; then it advances. `life_laws` says
/// what that does to the rows that a version reaches.
#[derive(Drop)]
pub struct Desk<A: Allocator> {
    current: u32,
    versions: Vec<u64, A>,
    lives: Vec<Life, A>,
    free: FreeRows<A>,
    /// The rows killed since the last sweep.
    dead: Vec<u32, A>,
    /// The other dead rows. Each is reached by a version that the last sweep remembered.
    held: Vec<u32, A>,
    /// The versions that the last sweep remembered: of those live then, in rising order, the ones
    /// that hold a row.
    live: Vec<u64, A>,
    /// What is kept of the texts of nodes in the rows.
    beginnings: LayerBeginnings<A>,
}

/// Contracts see the record of the current version, the version of each record, and the life of
/// each row.
impl<A: Allocator> Model for Desk<A> {
    ghost use Rattle.std.specs.Prelude.{vec_capacity};
    ghost use Rattle.mst_arena.specs.Lives.{State};
    ghost use Rattle.mst_arena.specs.Lists.{IsDesk};

    ghost Value = { State };

    ghost view = { λ d. record {
      current = d.current;
      versions = d.versions.items;
      lives = d.lives.items;
    } };

    ghost invariant = { λ d. IsDesk d.current d.versions.items d.lives.items d.free
        d.dead.items d.held.items d.live.items (vec_capacity d.versions) (vec_capacity d.lives)
        (vec_capacity d.dead) (vec_capacity d.held) (vec_capacity d.live) };
}

/// So many copies of a value.
fn copies<T: Copy, A: Allocator>(alloc: A, value: T, count: usize) -> Result<Vec<T, A>, Memory>
    ensures ok { IfOk result (λ v. (v.items ≡ replicate count value) × (vec_capacity v ≡ count)) }
{
    let mut all = Vec::with_capacity(alloc, count)?;
    for _ in 0..count {
        all.push_reserved(value);
    }
    Ok(all)
}

/// An empty list with room for so many.
fn room<T, A: Allocator>(alloc: A, count: usize) -> Result<Vec<T, A>, Memory>
    ensures ok { IfOk result (λ v. (v.items ≡ []) × (vec_capacity v ≡ count)) }
{
    Ok(Vec::with_capacity(alloc, count)?)
}

impl<A: Allocator + Copy> Desk<A> {
    /// A desk with so many rows, 1 to 65,535, all of them free, and so many records, 2 to 34.
    /// Record 0 is the current one, with version `first`, at most 2^63 - 1.
    ///
    /// Returns `Memory` if a growth was refused. No later call takes memory.
    pub fn new(alloc: A, rows: u32, records: u32, first: u64) -> Result<Desk<A>, Memory>
        requires some_rows { 0 < rows }
        requires few_rows { rows ≤ most_rows }
        requires some_records { 2 ≤ records }
        requires few_records { records ≤ 34 }
        requires first { first ≤ last_version }
        ensures ok { IfOk result
            (λ d. d
            ≡ record {
              current = 0;
              versions = replicate records first;
              lives = replicate rows Free;
            }) }
    {
        let (count, records) = (rows as usize, records as usize);
        Ok(Desk {
            current: 0,
            versions: copies(alloc, first, records)?,
            lives: copies(alloc, Life::Free, count)?,
            free: FreeRows::new(alloc, rows)?,
            dead: room(alloc, count)?,
            held: room(alloc, count)?,
            live: room(alloc, records)?,
            beginnings: LayerBeginnings::new(alloc, rows)?,
        })
    }
}

impl<A: Allocator> Desk<A> {
    /// The current record and its version number.
    pub fn current(&self) -> (u32, u64)
        ensures current { result ≡ (self.now.current, version self.now) }
    {
        (self.current, self.versions[self.current as usize])
    }

    /// The version number of a record.
    pub fn version_of(&self, of: u32) -> u64
        requires there { of < length self.now.versions }
        ensures version { result ≡ slice_index self.now.versions of }
    {
        self.versions[of as usize]
    }

    /// The number of the version to come. Returns `VersionsSpent` exactly if the current version
    /// has the last number.
    pub fn next_version(&self) -> Result<u64, VersionsSpent>
        ensures answer { MatchResult result (λ v. (v ≡ next self.now)
            × (v ≤ last_version)) (λ _. version self.now ≡ last_version) }
    {
        let version = self.versions[self.current as usize];
        if version == LAST_VERSION {
            Err(VersionsSpent)
        } else {
            Ok(version + 1)
        }
    }

    /// How many rows there are, free and others.
    pub fn rows(&self) -> u32
        ensures count { result ≡ length self.now.lives }
    {
        self.lives.len() as u32
    }

    /// How many rows are free. A desk has at most 65,535 rows.
    pub fn free(&self) -> u32
        ensures count { result ≡ free_count self.now.lives }
        ensures few { length self.now.lives ≤ most_rows }
    {
        self.free.count()
    }

    /// Takes a free row, as [`Desk::take`] does, for the head of a node that takes so many rows. If
    /// it takes the place of a node whose head is in the row `replaced`, it goes where an earlier
    /// version of that one stood, if all rows there are free; otherwise behind the last new node.
    /// A new node leaves room for its rows behind its head.
    pub fn take_head(&mut self, replaced: Option<u32>, count: u32) -> Option<u32>
        ensures some { IfSome result (λ r. (slice_get self.old.lives r ≡ Some Free)
            × (self.new ≡ with_life self.old r (Born (next self.old)))) }
        ensures none { IfNone result ((free_count self.old.lives ≡ 0) × (self.new ≡ self.old)) }
    {
        let place = self.place_for(replaced, count);
        let head = self.take_near(place)?;
        self.note_head(head, replaced, count);
        Some(head)
    }

    // Where the head of a node of so many rows goes, if that row is free.
    fn place_for(&self, replaced: Option<u32>, count: u32) -> u32 {
        self.free.place_for(replaced, count)
    }

    // A node of so many rows has its head here, and takes the place of that of the head `replaced`.
    fn note_head(&mut self, head: u32, replaced: Option<u32>, count: u32)
        ensures same { self.new ≡ self.old }
    {
        self.free.note_head(head, replaced, count);
    }

    /// Takes this row, as [`Desk::take`] does, if it is free, otherwise another one.
    #[inline(always)]
    pub fn take_near(&mut self, row: u32) -> Option<u32>
        ensures some { IfSome result (λ r. (slice_get self.old.lives r ≡ Some Free)
            × (self.new ≡ with_life self.old r (Born (next self.old)))) }
        ensures near { IfSome result (λ r. slice_get self.old.lives row ≡ Some Free → r ≡ row) }
        ensures none { IfNone result ((free_count self.old.lives ≡ 0) × (self.new ≡ self.old)) }
    {
        let row = self.free.take_near(row)?;
        let birth = self.versions[self.current as usize] + 1;
        self.lives[row as usize] = Life::Born { birth };
        Some(row)
    }

    /// Takes a free row, born with the version to come. Returns `None` exactly if no row is free.
    pub fn take(&mut self) -> Option<u32>
        ensures some { IfSome result (λ r. (slice_get self.old.lives r ≡ Some Free)
            × (self.new ≡ with_life self.old r (Born (next self.old)))) }
        ensures none { IfNone result ((free_count self.old.lives ≡ 0) × (self.new ≡ self.old)) }
    {
        let place = self.place_for(None, 1);
        self.take_near(place)
    }

    /// Frees a row that was taken in this write: it was born with the version to come.
    pub fn give_back(&mut self, row: u32)
        requires taken { slice_get self.old.lives row ≡ Some (Born (next self.old)) }
        ensures free { self.new ≡ with_life self.old row Free }
    {
        self.lives[row as usize] = Life::Free;
        self.free.put(row);
    }

    /// Lets a row die with the version to come. It was born earlier and is not dead.
    pub fn kill(&mut self, row: u32)
        requires born { (b : ℕ) × (slice_get self.old.lives row ≡ Some (Born b))
            × (b ≤ version self.old) }
        ensures dead { self.new ≡ with_life self.old row
            (ended_life (next self.old) (slice_get self.old.lives row)) }
    {
        let death = self.versions[self.current as usize] + 1;
        match self.lives[row as usize] {
            Life::Born { birth } => {
                self.lives[row as usize] = Life::Dead { birth, death };
                self.dead.push_reserved(row);
            }
            _ => unreachable!(),
        }
    }

    /// Makes the version to come the current one, in a record other than the current one.
    pub fn advance(&mut self, into: u32)
        requires there { into < length self.old.versions }
        requires other { into ≢ self.old.current }
        requires more { next self.old ≤ last_version }
        ensures current { self.new ≡ record self.old {
          current = into;
          versions = slice_set self.old.versions into (next self.old);
        } }
    {
        let next = self.versions[self.current as usize] + 1;
        self.versions[into as usize] = next;
        self.current = into;
    }

    /// Takes back all that was done since the last advance, and frees the rows that were taken: no
    /// row is born or dies with the version to come. It looks at each row.
    pub fn undo(&mut self)
        ensures undone { self.new ≡ undone self.old }
    {
        let next = self.versions[self.current as usize] + 1;
        self.dead.clear();
        self.held.clear();
        undo_all(&mut self.lives, &mut self.free, &mut self.dead, next);
    }

    /// A hasher of the text of a node of this layer, with what is kept of such texts.
    /// [`Desk::digest`] takes that back.
    pub fn hasher(&mut self, layer: u8) -> TextHasher<A>
        ensures empty { HasTaken result [] }
        ensures same { self.new ≡ self.old }
    {
        self.beginnings.hasher(layer)
    }

    /// The digest of the text of a node of this layer that a hasher of [`Desk::hasher`] has taken.
    pub fn digest(&mut self, layer: u8, hasher: TextHasher<A>) -> [u8; 32]
        requires taken { (m : List ℕ) × HasTaken hasher m }
        ensures digest { (m : List ℕ) → HasTaken hasher m → result ≡ sha256 m }
        ensures same { self.new ≡ self.old }
    {
        self.beginnings.finish(layer, hasher)
    }

    /// Frees the dead rows that no live version reaches.
    ///
    /// It looks at the rows killed since the last sweep: each is compared with the lowest live
    /// version, and only if it died after that one, it costs one search among the live versions.
    /// It looks at the other dead rows only if a version that held one of them then is no longer
    /// live, or is the newest. It never looks at rows that are not dead.
    pub fn sweep(&mut self, live: &[u64])
        ensures swept { self.new ≡ record self.old {
          lives = map
              (swept_life live.now) self.old.lives;
        } }
    {
        look_again(&mut self.dead, &mut self.held, &self.live, live);
        sweep_dead(
            &mut self.lives,
            &mut self.free,
            &mut self.dead,
            &mut self.held,
            &mut self.live,
            live,
        );
    }
}
