//! The fields of a line, and what they spell.
ghost use Rattle.std.specs.Prelude.{◌≡◌, ◌≢◌, ◌≤◌, ◌<◌, ◌∷◌, [], List, ℕ, true, false, length, take, MatchOption, MatchResult, IfSome, IfOk, None, Some};
ghost use Rattle.mst_lines.specs.Lines.{longest_line};
ghost use Rattle.mst_requests.specs.declared.request.Fault.TheVariants.{FieldCount};
ghost use Rattle.mst_requests.specs.Fields.{fields_of, fields_behind, bytes_of as spelt_bytes, number_up_to, pass_in, count_in, format_in, has_key_size, has_value_size, has_bound_size, bound_of};

use crate::request::Fault;
use mst_key::{Format, Key, KeySize, Value, ValueSize};
use mst_lines::cut;

/// The most pairs that a line may ask for.
const MOST_PAIRS: u32 = 65_535;

/// The first field, and what stands after its blank.
pub fn first_field(line: &[u8]) -> (&[u8], Option<&[u8]>)
    ensures fields { fields_of line.now ≡ result.0.now ∷ fields_behind result.1 }
    ensures size { length result.0.now ≤ length line.now }
    ensures rest_size { IfSome result.1 (λ rest. length rest.now < length line.now) }
{
    match cut(line, b' ') {
        Some((first, rest)) => (first, Some(rest)),
        None => (line, None),
    }
}

/// Nothing, if there are no fields.
pub fn no_field(fields: Option<&[u8]>) -> Result<(), Fault>
    ensures { MatchResult result (λ _. fields_behind fields.entry ≡ [])
        (λ fault. (fault ≡ FieldCount) × (length (fields_behind fields.entry) ≢ 0)) }
{
    match fields {
        Some(_) => Err(Fault::FieldCount),
        None => Ok(()),
    }
}

/// The one field, if there is one.
pub fn one_field(fields: Option<&[u8]>) -> Result<&[u8], Fault>
    requires { IfSome fields (λ rest. length rest.now ≤ longest_line) }
    ensures fields { MatchResult result (λ one. fields_behind fields.entry ≡ one.now ∷ [])
        (λ fault. (fault ≡ FieldCount) × (length (fields_behind fields.entry) ≢ 1)) }
    ensures size { IfOk result (λ one. length one.now ≤ longest_line) }
{
    let Some(fields) = fields else {
        return Err(Fault::FieldCount);
    };
    let (one, rest) = first_field(fields);
    match rest {
        None => Ok(one),
        Some(_) => Err(Fault::FieldCount),
    }
}

/// The two fields, if there are two.
pub fn two_fields(fields: Option<&[u8]>) -> Result<(&[u8], &[u8]), Fault>
    requires { IfSome fields (λ rest. length rest.now ≤ longest_line) }
    ensures fields { MatchResult result
        (λ two. fields_behind fields.entry ≡ two.0.now ∷ two.1.now ∷ [])
        (λ fault. (fault ≡ FieldCount) × (length (fields_behind fields.entry) ≢ 2)) }
    ensures size { IfOk result (λ two. (length two.0.now ≤ longest_line)
        × (length two.1.now ≤ longest_line)) }
{
    let Some(fields) = fields else {
        return Err(Fault::FieldCount);
    };
    let (one, rest) = first_field(fields);
    let other = one_field(rest)?;
    Ok((one, other))
}

/// The three fields, if there are three.
pub fn three_fields(fields: Option<&[u8]>) -> Result<(&[u8], &[u8], &[u8]), Fault>
    requires { IfSome fields (λ rest. length rest.now ≤ longest_line) }
    ensures fields { MatchResult result
        (λ three. fields_behind fields.entry ≡ three.0.now ∷ three.1.now ∷ three.2.now ∷ [])
        (λ fault. (fault ≡ FieldCount) × (length (fields_behind fields.entry) ≢ 3)) }
    ensures size { IfOk result (λ three. (length three.0.now ≤ longest_line)
        × (length three.1.now ≤ longest_line)) }
{
    let Some(fields) = fields else {
        return Err(Fault::FieldCount);
    };
    let (one, rest) = first_field(fields);
    let (other, third) = two_fields(rest)?;
    Ok((one, other, third))
}

// The number that decimal digits spell, if it is at most so much.
fn number_of(digits: &[u8], most: u32) -> Option<u32>
    ensures { result ≡ number_up_to most 0 digits.now }
{
    let mut number = 0;
    for digit in digits {
        if !digit.is_ascii_digit() {
            return None;
        }
        number = number * 10 + u64::from(*digit - b'0');
        if number > u64::from(most) {
            return None;
        }
    }
    Some(number as u32)
}

/// Returns the pass that a field names, if this many are dealt: decimal digits without a leading
/// zero.
pub fn pass_of(field: &[u8], passes: u32) -> Option<u32>
    ensures { result ≡ pass_in passes field.now }
{
    match field {
        [] | [b'0', ..] => None,
        _ => number_of(field, passes),
    }
}

/// The number of pairs that a field names, at most 65,535: decimal digits, without a leading zero
/// before others.
pub fn count_of(field: &[u8]) -> Option<u32>
    ensures { result ≡ count_in field.now }
{
    match field {
        [] | [b'0', _, ..] => None,
        _ => number_of(field, MOST_PAIRS),
    }
}

/// The format that a field names: 1 or 2.
pub fn format_of(field: &[u8]) -> Option<Format>
    ensures { result ≡ format_in field.now }
{
    if field == b"1".as_slice() {
        Some(Format::One)
    } else if field == b"2".as_slice() {
        Some(Format::Two)
    } else {
        None
    }
}

// The bytes that a field spells, at the front of the room: pairs of hexadecimal digits, or `-` for
// none.
#[tactic(auto, unfolding(crate::specs::Fields::bytes_of))]
fn bytes_of(field: &[u8], room: &mut [u8; 2048]) -> Option<usize>
    requires { length field.now ≤ longest_line }
    ensures { MatchOption result (spelt_bytes field.now ≡ None) (λ n. (n ≤ 2048)
        × (spelt_bytes field.now ≡ Some (take n room.new))) }
{
    if field.is_empty() {
        return None;
    }
    if field == b"-".as_slice() {
        return Some(0);
    }
    let count = field.len() / 2;
    let (front, _) = room.split_at_mut(count);
    match hex::decode_to_slice(field, front) {
        Ok(()) => Some(count),
        Err(_) => None,
    }
}

/// The key that a field spells, if it spells any bytes.
pub fn key_of(field: &[u8]) -> Option<Result<Key, KeySize>>
    requires { length field.now ≤ longest_line }
    ensures { MatchOption result (spelt_bytes field.now ≡ None) (λ read. MatchResult read
        (λ key. (spelt_bytes field.now ≡ Some key) × (has_key_size key ≡ true))
        (λ _. (k : List ℕ) × (spelt_bytes field.now ≡ Some k) × (has_key_size k ≡ false))) }
{
    let mut room = [0; 2048];
    let count = bytes_of(field, &mut room)?;
    Some(Key::new(&room[..count]))
}

/// The bound that a field spells, if it spells any bytes: `-` is none.
pub fn bound_in(field: &[u8]) -> Option<Result<Option<Key>, KeySize>>
    requires { length field.now ≤ longest_line }
    ensures { MatchOption result (spelt_bytes field.now ≡ None) (λ read. MatchResult read (λ bound.
        (k : List ℕ) × (spelt_bytes field.now ≡ Some k) × (has_bound_size k ≡ true)
        × (bound ≡ bound_of k)) (λ _. (k : List ℕ) × (spelt_bytes field.now ≡ Some k)
        × (has_bound_size k ≡ false))) }
{
    let mut room = [0; 2048];
    let count = bytes_of(field, &mut room)?;
    if count == 0 {
        return Some(Ok(None));
    }
    match Key::new(&room[..count]) {
        Ok(key) => Some(Ok(Some(key))),
        Err(size) => Some(Err(size)),
    }
}

/// The value that a field spells, if it spells any bytes.
pub fn value_of(field: &[u8]) -> Option<Result<Value, ValueSize>>
    requires { length field.now ≤ longest_line }
    ensures { MatchOption result (spelt_bytes field.now ≡ None) (λ read. MatchResult read
        (λ value. (spelt_bytes field.now ≡ Some value) × (has_value_size value ≡ true))
        (λ _. (v : List ℕ) × (spelt_bytes field.now ≡ Some v) × (has_value_size v ≡ false))) }
{
    let mut room = [0; 2048];
    let count = bytes_of(field, &mut room)?;
    Some(Value::new(&room[..count]))
}
