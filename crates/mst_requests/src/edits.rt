//! The edits of a batch, as the fields of a line spell them.
ghost use Rattle.std.specs.Prelude.{◌≡◌, ◌≤◌, ◌<◌, length, MatchOption, IfSome, IfOk, IfErr, Some, None};
ghost use Rattle.mst_lines.specs.Lines.{longest_line};
ghost use Rattle.mst_requests.specs.Fields.{fields_of, fields_behind, bytes_of};
ghost use Rattle.mst_requests.specs.Batches.{put_edit, remove_edit, before, edits_in, edits_read, told};
ghost use Rattle.std.specs.Result.{result_err};

use crate::fields::{first_field, key_of, value_of};
use crate::request::Fault;
use mst_key::{Edit, Memory};
use std::alloc::Allocator;
use std::marker::Model;

// The put that two fields spell, or its fault.
fn put_in(key: &[u8], value: &[u8]) -> Result<Edit, Fault>
    requires key { length key.now ≤ longest_line }
    requires value { length value.now ≤ longest_line }
    ensures { result ≡ put_edit (bytes_of key.now) (bytes_of value.now) }
{
    match (key_of(key), value_of(value)) {
        (Some(Ok(key)), Some(Ok(value))) => Ok(Edit::Put(key, value)),
        (Some(Ok(_)), Some(Err(_))) => Err(Fault::ValueSize),
        (Some(Err(_)), Some(_)) => Err(Fault::KeySize),
        _ => Err(Fault::BadField),
    }
}

// The remove that a field spells, or its fault.
fn remove_in(key: &[u8]) -> Result<Edit, Fault>
    requires { length key.now ≤ longest_line }
    ensures { result ≡ remove_edit (bytes_of key.now) }
{
    match key_of(key) {
        Some(Ok(key)) => Ok(Edit::Remove(key)),
        Some(Err(_)) => Err(Fault::KeySize),
        None => Err(Fault::BadField),
    }
}

// The first edit, or its fault, and what stands after it, if an edit stands first.
fn first_edit(fields: &[u8]) -> Option<(Result<Edit, Fault>, Option<&[u8]>)>
    requires { length fields.now ≤ longest_line }
    ensures edits { MatchOption result (edits_in (fields_of fields.now) ≡ None)
        (λ r. edits_in (fields_of fields.now) ≡ before r.0 (edits_in (fields_behind r.1))) }
    ensures size { IfSome result (λ r. IfSome r.1 (λ rest. length rest.now < length fields.now)) }
{
    let (word, rest) = first_field(fields);
    let (key, rest) = first_field(rest?);
    if word == b"del".as_slice() {
        return Some((remove_in(key), rest));
    }
    if word != b"put".as_slice() {
        return None;
    }
    let (value, rest) = first_field(rest?);
    Some((put_in(key, value), rest))
}

// Which of the faults of two edits is told, where each has one or none.
fn first_told(first: Option<Fault>, later: Option<Fault>) -> Option<Fault>
    ensures { result ≡ told first later }
{
    match (first, later) {
        (None, _) | (Some(_), Some(Fault::BadField)) => later,
        (Some(_), _) => first,
    }
}

// The fault of the batch that the fields spell, if it has one.
fn batch_fault(fields: Option<&[u8]>) -> Option<Fault>
    requires { IfSome fields (λ rest. length rest.now ≤ longest_line) }
    ensures { result ≡ result_err (edits_read (fields_behind fields.entry)) }
{
    let mut rest = fields;
    let mut fault = None;
    while let Some(fields) = rest {
        let Some((edit, others)) = first_edit(fields) else {
            return Some(Fault::FieldCount);
        };
        fault = first_told(fault, edit.err());
        rest = others;
    }
    fault
}

/// The edits of a batch, as the fields of a line spell them. None of them has a fault.
#[derive(Drop)]
pub struct Edits<'l> {
    fields: Option<&'l [u8]>,
}

/// Contracts see the list of the edits.
impl<'l> Model for Edits<'l> {
    ghost use Rattle.std.specs.Prelude.{◌≡◌, ◌≤◌, List, length, Ok, IfSome};
    ghost use Rattle.mst_key.specs.declared.history.Edit.{Edit};
    ghost use Rattle.mst_lines.specs.Lines.{longest_line};
    ghost use Rattle.mst_requests.specs.Fields.{fields_behind};
    ghost use Rattle.mst_requests.specs.Batches.{edits_read, edits_or_none};

    ghost Value = { List Edit };

    ghost view = { λ e. edits_or_none (edits_read (fields_behind e.fields)) };

    ghost invariant = { λ e. (IfSome e.fields (λ rest. length rest.now ≤ longest_line))
        × (edits_read (fields_behind e.fields)
        ≡ Ok (edits_or_none (edits_read (fields_behind e.fields)))) };
}

impl<'l> Edits<'l> {
    /// The edits that the fields spell, or the fault of the batch. This takes no memory.
    pub fn new(fields: Option<&'l [u8]>) -> Result<Edits<'l>, Fault>
        requires { IfSome fields (λ rest. length rest.now ≤ longest_line) }
        ensures edits { result ≡ edits_read (fields_behind fields.entry) }
    {
        match batch_fault(fields) {
            Some(fault) => Err(fault),
            None => Ok(Edits { fields }),
        }
    }

    /// The edits in a list. Returns `Memory` if its memory was refused; no edits take none.
    pub fn to_vec<A: Allocator>(&self, alloc: A) -> Result<Vec<Edit, A>, Memory>
        ensures edits { IfOk result (λ list. list.items ≡ self.now) }
        ensures some { IfErr result (λ _. 0 < length self.now) }
    {
        let mut edits = Vec::new(alloc);
        let mut rest = self.fields;
        while let Some(fields) = rest {
            let Some((edit, others)) = first_edit(fields) else {
                unreachable!();
            };
            let Ok(edit) = edit else {
                unreachable!();
            };
            edits.push(edit)?;
            rest = others;
        }
        Ok(edits)
    }
}
