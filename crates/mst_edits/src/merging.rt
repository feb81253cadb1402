//! Edits sorted by their keys, of each key the last one, and the pairs of a map with them made.
ghost use Rattle.std.specs.Prelude.{◌≡◌, ◌≤◌, ◌^◌, ◌++◌, ℕ, List, Option, length, IfOk, OnOk};
ghost use Rattle.mst_key.specs.Map.{Pair, IsAscending, IsMap};
ghost use Rattle.mst_key.specs.Edits.{AreRising};
ghost use Rattle.mst_key.specs.History.{batched, value_after};
ghost use Rattle.mst_edits.specs.Listed.{listed, put_of};

use mst_key::{Edit, Key, Memory, Value};
use std::alloc::Allocator;
use std::cmp::Ordering;

/// Two lists of edits whose keys rise as one such list. Of two edits of one key that of the second
/// list is taken.
fn merged<'b, A: Allocator>(
    alloc: A,
    first: &[&'b Edit],
    second: &[&'b Edit],
) -> Result<Vec<&'b Edit, A>, Memory>
    requires first { AreRising (listed first.now) }
    requires second { AreRising (listed second.now) }
    ensures rises { IfOk result (λ all. AreRising (listed all.items)) }
    ensures leaves { IfOk result (λ all. (q : List ℕ) (old : Option (List ℕ))
        → value_after (listed all.items) q old
        ≡ value_after (listed second.now) q (value_after (listed first.now) q old)) }
{
    let mut all = Vec::with_capacity(alloc, first.len().saturating_add(second.len()))?;
    let (mut left, mut right) = (first, second);
    while let [later, others @ ..] = right {
        match left {
            [earlier, rest @ ..] => match earlier.key().cmp(later.key()) {
                Ordering::Less => {
                    all.push(*earlier)?;
                    left = rest;
                }
                Ordering::Equal => left = rest,
                Ordering::Greater => {
                    all.push(*later)?;
                    right = others;
                }
            },
            [] => {
                all.push(*later)?;
                right = others;
            }
        }
    }
    all.extend_from_slice(left)?;
    Ok(all)
}

/// The edits sorted by their keys, of each key the last one alone. Calls nest no deeper than
/// `depth`, since each call halves the list.
fn sorted_edits<'b, A: Allocator + Copy>(
    alloc: A,
    edits: &'b [Edit],
    depth: u32,
) -> Result<Vec<&'b Edit, A>, Memory>
    requires few { length edits.now ≤ 2 ^ depth }
    ensures rises { IfOk result (λ all. AreRising (listed all.items)) }
    ensures leaves { IfOk result (λ all. (q : List ℕ) (old : Option (List ℕ))
        → value_after (listed all.items) q old ≡ value_after edits.now q old) }
{
    match edits {
        [] => Ok(Vec::new(alloc)),
        [edit] => {
            let mut all = Vec::new(alloc);
            all.push(edit)?;
            Ok(all)
        }
        _ => {
            let (front, back) = edits.split_at(edits.len() / 2);
            let first = sorted_edits(alloc, front, depth - 1)?;
            let second = sorted_edits(alloc, back, depth - 1)?;
            merged(alloc, first.as_slice(), second.as_slice())
        }
    }
}

/// How often a number can be halved until 0 is left.
fn halvings(number: usize) -> u32
    ensures enough { number ≤ 2 ^ result }
    ensures most { result ≤ 64 }
{
    usize::BITS - number.leading_zeros()
}

/// The edits sorted by their keys, of each key the last one alone: what is left of a batch.
///
/// It leaves each key the value that the edits leave it one after another, and so each map the same
/// map. For n edits it takes some n log n comparisons of keys, and at most two words of memory an
/// edit at once; it copies no key. Calls nest no deeper than n can be halved, at most 64 times.
/// Returns `Memory` only if a growth was refused.
pub fn normal_edits<'b, A: Allocator + Copy>(
    alloc: A,
    edits: &'b [Edit],
) -> Result<Vec<&'b Edit, A>, Memory>
    ensures rises { IfOk result (λ all. AreRising (listed all.items)) }
    ensures leaves { IfOk result (λ all. (q : List ℕ) (old : Option (List ℕ))
        → value_after (listed all.items) q old ≡ value_after edits.now q old) }
    ensures map { IfOk result (λ all. (m : List Pair) → IsMap m
        → batched m (listed all.items) ≡ batched m edits.now) }
{
    sorted_edits(alloc, edits, halvings(edits.len()))
}

/// A copy of a pair, which takes no memory.
fn copy_of(pair: &(Key, Value)) -> (Key, Value)
    ensures same { result ≡ pair.now }
{
    (pair.0.copy(), pair.1.copy())
}

/// Adds copies of pairs at the end of a list.
fn push_all<A: Allocator>(
    list: &mut Vec<(Key, Value), A>,
    pairs: &[(Key, Value)],
) -> Result<(), Memory>
    ensures items { OnOk result (list.new.items ≡ list.old.items ++ pairs.now) }
{
    for pair in pairs {
        list.push(copy_of(pair))?;
    }
    Ok(())
}

/// Adds the pair that an edit puts, if it is a put.
fn push_put<A: Allocator>(list: &mut Vec<(Key, Value), A>, edit: &Edit) -> Result<(), Memory>
    ensures items { OnOk result (list.new.items ≡ list.old.items ++ put_of edit.now) }
{
    if let Edit::Put(key, value) = edit {
        list.push((key.copy(), value.copy()))?;
    }
    Ok(())
}

/// The pairs after edits whose keys rise.
fn joined<A: Allocator>(
    alloc: A,
    pairs: &[(Key, Value)],
    edits: &[&Edit],
) -> Result<Vec<(Key, Value), A>, Memory>
    requires ascending { IsAscending pairs.now }
    requires rising { AreRising (listed edits.now) }
    ensures pairs { IfOk result (λ all. all.items ≡ batched pairs.now (listed edits.now)) }
{
    let mut all = Vec::new(alloc);
    let (mut rest, mut left) = (pairs, edits);
    while let [edit, others @ ..] = left {
        match rest {
            [pair, more @ ..] => match pair.0.cmp(edit.key()) {
                Ordering::Less => {
                    all.push(copy_of(pair))?;
                    rest = more;
                }
                Ordering::Equal => rest = more,
                Ordering::Greater => {
                    push_put(&mut all, edit)?;
                    left = others;
                }
            },
            [] => {
                push_put(&mut all, edit)?;
                left = others;
            }
        }
    }
    push_all(&mut all, rest)?;
    Ok(all)
}

/// The pairs of a map after a batch of edits, by one pass over both lists.
///
/// For n pairs and k edits it takes some n + k log k comparisons of keys. Returns `Memory` only if
/// a growth was refused.
pub fn edited_pairs<A: Allocator + Copy>(
    alloc: A,
    pairs: &[(Key, Value)],
    edits: &[Edit],
) -> Result<Vec<(Key, Value), A>, Memory>
    requires map { IsMap pairs.now }
    ensures pairs { IfOk result (λ all. all.items ≡ batched pairs.now edits.now) }
{
    let normal = normal_edits(alloc, edits)?;
    joined(alloc, pairs, normal.as_slice())
}
