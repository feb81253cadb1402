//! Edits as C hands them over: packed in a buffer, one after the other.
ghost use Rattle.std.specs.Prelude.{◌≡◌, ◌<◌, List, length, IfOk, IfErr, OnErr};
ghost use Rattle.std.specs.declared.result.Result.TheVariants.{Ok, Err};
ghost use Rattle.mst_key.specs.declared.history.Edit.{Edit};
ghost use Rattle.mst_key.specs.Bytes.{IsKey, IsValue};
ghost use Rattle.mst_c.specs.Batches.{parts_at, edit_of as edit_of_kind, edit_at, edits_in};

use mst_key::{Edit, Key, Memory, Value};
use std::alloc::Global;
use std::marker::Model;

/// Why what stands in a buffer is no edit.
#[derive(Clone, Copy)]
pub enum EditFault {
    /// A key has 1 to 32 bytes.
    KeySize,
    /// A value has 0 to 64 bytes.
    ValueSize,
    /// It is cut short, of no known kind, or a remove with a value.
    Form,
}

/// The first edit of a buffer that is none, by the number of those before it.
#[derive(Clone, Copy)]
pub struct BadEdit {
    pub place: usize,
    pub fault: EditFault,
}

/// The kind, the key and the value of the first edit, and the bytes after it.
#[tactic(auto, unfolding(crate::specs::Batches::parts_at))]
fn parts_of(packed: &[u8]) -> Result<(u8, &[u8], &[u8], &[u8]), EditFault>
    ensures ok { IfOk result (λ x. parts_at packed.now ≡ Ok (x.0, x.1.now, x.2.now, x.3.now)) }
    ensures sizes { IfOk result (λ x. IsKey x.1.now × IsValue x.2.now) }
    ensures less { IfOk result (λ x. length x.3.now < length packed.now) }
    ensures fault { IfErr result (λ fault. parts_at packed.now ≡ Err fault) }
{
    let [kind, a, b, c, d, rest @ ..] = packed else {
        return Err(EditFault::Form);
    };
    let key_size = u16::from_be_bytes([*a, *b]) as usize;
    let value_size = u16::from_be_bytes([*c, *d]) as usize;
    if key_size < 1 || key_size > 32 {
        return Err(EditFault::KeySize);
    }
    if value_size > 64 {
        return Err(EditFault::ValueSize);
    }
    if rest.len() < key_size + value_size {
        return Err(EditFault::Form);
    }
    let (key, rest) = rest.split_at(key_size);
    let (value, rest) = rest.split_at(value_size);
    Ok((*kind, key, value, rest))
}

/// The edit of this kind.
fn edit_of(kind: u8, key: Key, value: &[u8]) -> Result<Edit, EditFault>
    requires size { IsValue value.now }
    ensures edit { result ≡ edit_of_kind kind key value.now }
{
    match kind {
        1 => match Value::new(value) {
            Ok(value) => Ok(Edit::Put(key, value)),
            Err(_) => unreachable!(),
        },
        2 if value.is_empty() => Ok(Edit::Remove(key)),
        _ => Err(EditFault::Form),
    }
}

/// The first edit, and the bytes after it.
#[tactic(auto, unfolding(crate::specs::Batches::edit_at))]
fn first_edit(packed: &[u8]) -> Result<(Edit, &[u8]), EditFault>
    ensures ok { IfOk result (λ x. edit_at packed.now ≡ Ok (x.0, x.1.now)) }
    ensures less { IfOk result (λ x. length x.1.now < length packed.now) }
    ensures fault { IfErr result (λ fault. edit_at packed.now ≡ Err fault) }
{
    let (kind, key, value, rest) = parts_of(packed)?;
    let Ok(key) = Key::new(key) else {
        unreachable!()
    };
    match edit_of(kind, key, value) {
        Ok(edit) => Ok((edit, rest)),
        Err(fault) => Err(fault),
    }
}

/// How many edits the buffer has.
fn count_edits(packed: &[u8]) -> Result<usize, BadEdit>
    ensures ok { IfOk result (λ count. (es : List Edit) × (edits_in packed.now ≡ Ok es)
        × (count ≡ length es)) }
    ensures bad { IfErr result (λ bad. edits_in packed.now ≡ Err bad) }
{
    let mut count = 0;
    let mut rest = packed;
    while !rest.is_empty() {
        match first_edit(rest) {
            Ok((_edit, behind)) => rest = behind,
            Err(fault) => {
                return Err(BadEdit {
                    place: count,
                    fault,
                });
            }
        }
        count += 1;
    }
    Ok(count)
}

/// The edits of a buffer that has `count` of them.
fn list_edits(alloc: Global, packed: &[u8], count: usize) -> Result<Vec<Edit, Global>, Memory>
    requires edits { (es : List Edit) × (edits_in packed.now ≡ Ok es) × (count ≡ length es) }
    ensures ok { IfOk result (λ list. edits_in packed.now ≡ Ok list.items) }
    ensures memory { OnErr result (0 < count) }
{
    let mut list = Vec::with_capacity(alloc, count)?;
    let mut rest = packed;
    while !rest.is_empty() {
        let Ok((edit, behind)) = first_edit(rest) else {
            unreachable!()
        };
        list.push(edit)?;
        rest = behind;
    }
    Ok(list)
}

/// A buffer that has no bad edit.
#[derive(Drop)]
pub struct Packed<'a> {
    bytes: &'a [u8],
    count: usize,
}

/// Contracts see the edits.
impl<'a> Model for Packed<'a> {
    ghost use Rattle.std.specs.Prelude.{◌≡◌, List, Ok, length as length_of};
    ghost use Rattle.mst_key.specs.declared.history.Edit.{Edit};
    ghost use Rattle.mst_c.specs.Batches.{edits_in, edits_or_none};

    ghost Value = { List Edit };

    ghost view = { λ p. edits_or_none (edits_in p.bytes.now) };

    ghost invariant = { λ p. (edits_in p.bytes.now ≡ Ok (edits_or_none (edits_in p.bytes.now)))
        × (p.count ≡ length_of (edits_or_none (edits_in p.bytes.now))) };
}

impl<'a> Packed<'a> {
    /// The edits of the buffer, or its first bad one. It takes no memory.
    pub fn of(bytes: &'a [u8]) -> Result<Packed<'a>, BadEdit>
        ensures edits { result ≡ edits_in bytes.now }
    {
        match count_edits(bytes) {
            Ok(count) => Ok(Packed { bytes, count }),
            Err(bad) => Err(bad),
        }
    }

    /// The list of the edits.
    pub fn edits(&self, alloc: Global) -> Result<Vec<Edit, Global>, Memory>
        ensures edits { IfOk result (λ list. list.items ≡ self.now) }
        ensures memory { OnErr result (0 < length self.now) }
    {
        list_edits(alloc, self.bytes, self.count)
    }
}
