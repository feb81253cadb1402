//! The texts of nodes up to an entry, kept with the hashes that have taken them in.
ghost use Rattle.std.specs.Prelude.{◌≡◌, ◌<◌, ◌≤◌, true, false, ◌++◌, ℕ, List, [], length, IfOk, IfSome, slice_get, vec_capacity, Some};
ghost use Rattle.sha2.specs.Hashers.{Holds256};
ghost use Rattle.sha2.specs.Sha256.{sha256};
ghost use Rattle.mst_node.specs.Text.{child_text, counted, held_of, held_text};
ghost use Rattle.mst_prefix.specs.Kept.{AreKept, StandsAt, TakenWith, HasNoText};
ghost use Rattle.mst_prefix.specs.declared.beginnings.Beginning.{Beginning};

use crate::comparison::{after, after_child, after_counted, is_counted, is_digest};
use crate::digests::{ValueDigest, digest_kept, digest_of_value};
use crate::places::Places;
use arrayvec::ArrayVec;
use mst_key::{Format, Memory};
use sha2::{Digest, Sha256};
use std::alloc::Allocator;
use std::mem;

/// The most bytes that a piece has which is kept: the four in front of the entries, and the longest
/// entry with no tree before it. An entry after a tree is longer by 32 bytes: if its key and value
/// have over 67 bytes together, it is hashed each time.
const LONGEST: usize = 104;

/// A text that ends with an entry.
#[derive(Drop)]
pub(crate) struct Beginning {
    /// The number of the text before the last piece.
    before: u64,
    /// The last piece: an entry, after what stands in front of the entries if it is the first.
    piece: ArrayVec<u8, LONGEST>,
    /// The number of the whole text. No other text has it.
    number: u64,
    /// Has taken the whole text in.
    hash: Sha256,
}

impl Beginning {
    /// Becomes the text after another one, which a hasher has taken in, with the same last piece.
    /// The hasher takes that in.
    #[inline(always)]
    fn renew(&mut self, before: u64, number: u64, hasher: &mut Sha256)
        ensures before { self.new.before ≡ before }
        ensures number { self.new.number ≡ number }
        ensures piece { self.new.piece.items ≡ self.old.piece.items }
        ensures took { (m : List ℕ) → Holds256 hasher.old m
            → Holds256 hasher.new (m ++ self.old.piece.items) }
        ensures hash { self.new.hash ≡ hasher.new }
    {
        hasher.update(self.piece.as_slice());
        self.before = before;
        self.number = number;
        match hasher.clone() {
            Ok(hash) => self.hash = hash,
            Err(_) => unreachable!(),
        }
    }
}

/// The text in front of the piece.
#[derive(Clone, Copy)]
pub(crate) enum Front {
    /// That of the beginning at this place.
    Kept(usize),
    /// What the hasher has taken in, with its number if it has one.
    Taken(Option<u64>),
}

/// The beginnings that are kept, and one text that is being spelled.
///
/// The lists of what is kept have the room that `new` gave them: each call leaves it as it was.
#[derive(Drop)]
pub(crate) struct Beginnings<A: Allocator> {
    kept: Places<Beginning, A>,
    digests: Places<ValueDigest, A>,
    /// The lowest number that no text has.
    next: u64,
    front: Front,
    /// What was spelled after the front.
    piece: ArrayVec<u8, LONGEST>,
    /// The row into which the entry is written.
    to: u32,
}

/// A copy of a hash.
fn copy_of(hash: &Sha256) -> Sha256
    ensures same { result ≡ hash.now }
{
    match hash.clone() {
        Ok(copy) => copy,
        Err(_) => unreachable!(),
    }
}

impl<A: Allocator + Copy> Beginnings<A> {
    /// Room for `texts` beginnings and `digests` digests of values in this many rows. Returns
    /// `Memory` if a growth was refused; no later call takes memory.
    pub(crate) fn new(
        alloc: A,
        rows: u32,
        texts: u16,
        digests: u16,
    ) -> Result<Beginnings<A>, Memory>
        ensures sound { IfOk result (λ b. (texts : ℕ → List ℕ) × AreKept texts b) }
        ensures kept_room { IfOk result (λ b. (vec_capacity b.kept.items ≡ texts)
            × (vec_capacity b.kept.numbers ≡ rows)) }
        ensures digests_room { IfOk result (λ b. (vec_capacity b.digests.items ≡ digests)
            × (vec_capacity b.digests.numbers ≡ rows)) }
    {
        Ok(Beginnings {
            kept: Places::new(alloc, rows, texts)?,
            digests: Places::new(alloc, rows, digests)?,
            next: 1,
            front: Front::Taken(None),
            piece: ArrayVec::new(),
            to: 0,
        })
    }
}

impl<A: Allocator> Beginnings<A> {
    /// Begins a text, of no bytes, which a new hasher is to take in.
    pub(crate) fn begin(&mut self)
        requires sound { (texts : ℕ → List ℕ) × AreKept texts self.old }
        ensures empty { (hasher : Sha256) → Holds256 hasher [] → TakenWith hasher self.new [] }
        ensures lists { (self.new.kept ≡ self.old.kept) × (self.new.digests ≡ self.old.digests) }
    {
        self.front = Front::Taken(Some(0));
        self.piece.clear();
    }

    /// The entry to come is copied from a row to another: what is kept for the one is kept for the
    /// other from here on. Digests are kept in format 2 alone.
    #[inline(always)]
    pub(crate) fn move_kept(&mut self, from: u32, to: u32, format: Format)
        ensures same { (hasher : Sha256) (m : List ℕ) → TakenWith hasher self.old m
            → TakenWith hasher self.new m }
        ensures kept_room { (vec_capacity self.new.kept.items ≡ vec_capacity self.old.kept.items)
            × (vec_capacity self.new.kept.numbers ≡ vec_capacity self.old.kept.numbers) }
        ensures digests_room { (vec_capacity self.new.digests.items
            ≡ vec_capacity self.old.digests.items)
            × (vec_capacity self.new.digests.numbers ≡ vec_capacity self.old.digests.numbers) }
    {
        self.to = to;
        self.kept.swap(from, to);
        if format == Format::Two {
            self.digests.swap(from, to);
        }
    }

    /// Takes bytes after those that were spelled.
    pub(crate) fn take(&mut self, hasher: &mut Sha256, bytes: &[u8])
        ensures took { (m : List ℕ) → TakenWith hasher.old self.old m
            → TakenWith hasher.new self.new (m ++ bytes.now) }
        ensures lists { (self.new.kept ≡ self.old.kept) × (self.new.digests ≡ self.old.digests) }
    {
        match self.piece.try_extend_from_slice(bytes) {
            Ok(()) => {}
            Err(_) => {
                self.let_go(hasher);
                hasher.update(bytes);
            }
        }
    }

    /// The SHA-256 of the value of the entry.
    pub(crate) fn value_digest(&mut self, value: &[u8]) -> [u8; 32]
        ensures digest { result ≡ sha256 value.now }
        ensures same { (hasher : Sha256) (m : List ℕ) → TakenWith hasher self.old m
            → TakenWith hasher self.new m }
        ensures kept { self.new.kept ≡ self.old.kept }
        ensures digests_room { (vec_capacity self.new.digests.items
            ≡ vec_capacity self.old.digests.items)
            × (vec_capacity self.new.digests.numbers ≡ vec_capacity self.old.digests.numbers) }
    {
        digest_of_value(&mut self.digests, self.to, value)
    }

    /// The number of the front, if it has one.
    fn number(&self) -> Option<u64>
        ensures number { (texts : ℕ → List ℕ) (hasher : Sha256) (front : List ℕ)
            → AreKept texts self.now → StandsAt texts hasher self.now front
            → IfSome result (λ n. (n < self.now.next) × (texts n ≡ front)) }
    {
        match self.front {
            Front::Kept(place) => Some(self.kept.at(place)?.number),
            Front::Taken(number) => number,
        }
    }

    /// Hands all that was spelled to the hasher.
    pub(crate) fn let_go(&mut self, hasher: &mut Sha256)
        ensures taken { (m : List ℕ) → TakenWith hasher.old self.old m → Holds256 hasher.new m }
        ensures empty { (m : List ℕ) → TakenWith hasher.old self.old m → HasNoText self.new }
        ensures lists { (self.new.kept ≡ self.old.kept) × (self.new.digests ≡ self.old.digests) }
    {
        self.catch_up(hasher);
        hasher.update(self.piece.as_slice());
        self.piece.clear();
        self.front = Front::Taken(None);
    }

    /// Whether a text is what stands for the value. A digest that is not kept is not computed.
    #[inline(always)]
    fn is_held(&self, text: &[u8], format: Format, value: &[u8]) -> bool
        requires value { length value.now ≤ 255 }
        ensures held { result ≡ true → text.now ≡ held_text format (held_of format value.now) }
    {
        match format {
            Format::One => is_counted(text, value),
            Format::Two => self.is_kept_digest(text, value),
        }
    }

    /// Whether a text is the digest of the value, which is kept. It stands apart so that format 1
    /// prepares no room for a digest.
    #[inline(never)]
    fn is_kept_digest(&self, text: &[u8], value: &[u8]) -> bool
        ensures digest { result ≡ true → text.now ≡ sha256 value.now }
    {
        match digest_kept(&self.digests, self.to, value) {
            Some(digest) => is_digest(text, &digest),
            None => false,
        }
    }

    /// The place of what is kept for the entry's row, if its last piece is what was spelled, and
    /// then the entry.
    #[inline(always)]
    fn found(
        &self,
        format: Format,
        child: &Option<[u8; 32]>,
        key: &[u8],
        value: &[u8],
    ) -> Option<usize>
        requires key { length key.now ≤ 255 }
        requires value { length value.now ≤ 255 }
        ensures found { IfSome result (λ place. (b : Beginning)
            × (slice_get self.now.kept.items.items place ≡ Some b)
            × (b.piece.items ≡ self.now.piece.items ++ child_text child.now
            ++ counted key.now ++ held_text format (held_of format value.now))) }
    {
        let place = self.kept.place_of(self.to)?;
        let kept = self.kept.at(place)?;
        let rest = after(kept.piece.as_slice(), self.piece.as_slice())?;
        let rest = after_child(rest, child)?;
        let rest = after_counted(rest, key)?;
        if self.is_held(rest, format, value) {
            Some(place)
        } else {
            None
        }
    }

    /// Makes what is kept at a place, which ends with what was spelled and then an entry, the text
    /// up to here with the entry: its last piece is hashed after the front, whose number is
    /// `before`. Takes nothing if the numbers are spent.
    #[inline(always)]
    fn renew_at(&mut self, hasher: &mut Sha256, place: usize, before: u64) -> bool
        requires there { place < length self.old.kept.items.items }
        requires before { (texts : ℕ → List ℕ) (front : List ℕ) → AreKept texts self.old
            → StandsAt texts hasher.old self.old front
            → (before < self.old.next) × (texts before ≡ front) }
        ensures entry { result ≡ true → (m entry : List ℕ) (b : Beginning)
            → slice_get self.old.kept.items.items place ≡ Some b
            → b.piece.items ≡ self.old.piece.items ++ entry
            → TakenWith hasher.old self.old m → TakenWith hasher.new self.new (m ++ entry) }
        ensures same { result ≡ false → (m : List ℕ) → TakenWith hasher.old self.old m
            → TakenWith hasher.new self.new m }
        ensures kept_room { (vec_capacity self.new.kept.items ≡ vec_capacity self.old.kept.items)
            × (vec_capacity self.new.kept.numbers ≡ vec_capacity self.old.kept.numbers) }
        ensures digests { self.new.digests ≡ self.old.digests }
    {
        let Some(after) = self.next.checked_add(1) else {
            return false;
        };
        let number = self.next;
        self.catch_up(hasher);
        self.kept.items[place].renew(before, number, hasher);
        self.next = after;
        self.front = Front::Taken(Some(number));
        self.piece.clear();
        true
    }

    /// Takes an entry if what is kept for its row ends with it: if that has the same front too, it
    /// is not hashed. Otherwise it takes nothing.
    #[inline(always)]
    pub(crate) fn goes_on(
        &mut self,
        hasher: &mut Sha256,
        format: Format,
        child: Option<[u8; 32]>,
        key: &[u8],
        value: &[u8],
    ) -> bool
        requires key { length key.now ≤ 255 }
        requires value { length value.now ≤ 255 }
        ensures entry { result ≡ true → (m : List ℕ)
            → TakenWith hasher.old self.old m → TakenWith hasher.new self.new (m
            ++ child_text child ++ counted key.now
            ++ held_text format (held_of format value.now)) }
        ensures same { result ≡ false → (m : List ℕ)
            → TakenWith hasher.old self.old m → TakenWith hasher.new self.new m }
        ensures kept_room { (vec_capacity self.new.kept.items ≡ vec_capacity self.old.kept.items)
            × (vec_capacity self.new.kept.numbers ≡ vec_capacity self.old.kept.numbers) }
        ensures digests { self.new.digests ≡ self.old.digests }
    {
        let Some(place) = self.found(format, &child, key, value) else {
            return false;
        };
        let Some(number) = self.number() else {
            return false;
        };
        if self.kept.items[place].before != number {
            return self.renew_at(hasher, place, number);
        }
        self.front = Front::Kept(place);
        self.piece.clear();
        true
    }

    /// Ends an entry: hashes what was spelled, and keeps it for the entry's row.
    pub(crate) fn end_piece(&mut self, hasher: &mut Sha256)
        ensures same { (m : List ℕ) → TakenWith hasher.old self.old m
            → TakenWith hasher.new self.new m }
        ensures kept_room { (vec_capacity self.new.kept.items ≡ vec_capacity self.old.kept.items)
            × (vec_capacity self.new.kept.numbers ≡ vec_capacity self.old.kept.numbers) }
        ensures digests { self.new.digests ≡ self.old.digests }
    {
        let (Some(before), Some(after)) = (self.number(), self.next.checked_add(1)) else {
            return self.let_go(hasher);
        };
        let number = self.next;
        self.catch_up(hasher);
        hasher.update(self.piece.as_slice());
        self.next = after;
        self.front = Front::Taken(Some(number));
        let piece = mem::replace(&mut self.piece, ArrayVec::new());
        let Ok(hash) = hasher.clone() else {
            unreachable!()
        };
        let beginning = Beginning {
            before,
            piece,
            number,
            hash,
        };
        let _place = self.kept.put(self.to, beginning);
    }

    /// Lets the hasher take the front, unless it has.
    #[inline(always)]
    fn catch_up(&self, hasher: &mut Sha256)
        ensures hash { (texts : ℕ → List ℕ) (front : List ℕ)
            → AreKept texts self.now → StandsAt texts hasher.old self.now front
            → Holds256 hasher.new front }
    {
        if let Front::Kept(place) = self.front {
            if let Some(kept) = self.kept.at(place) {
                *hasher = copy_of(&kept.hash);
            }
        }
    }
}
