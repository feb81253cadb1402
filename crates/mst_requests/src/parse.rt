//! From what is kept of a line to what it asks for.
ghost use Rattle.std.specs.Prelude.{◌≡◌, ◌≤◌, length, IfSome, IfOk};
ghost use Rattle.mst_lines.specs.Lines.{longest_line};
ghost use Rattle.mst_requests.specs.declared.request.Command.TheVariants.{Remove, Get, Prove};
ghost use Rattle.mst_requests.specs.Fields.{fields_of, fields_behind};
ghost use Rattle.mst_requests.specs.Batches.{edits_read};
ghost use Rattle.mst_requests.specs.Grammar.{put_fields, key_fields, about_key, next_fields, range_fields, migrate_fields, about_edits, no_fields, plain_command, named_command, command_of, by_fields, asked, IsDealt};

use crate::edits::Edits;
use crate::fields::{
    bound_in, count_of, first_field, format_of, key_of, no_field, one_field, pass_of, three_fields,
    two_fields, value_of,
};
use crate::request::{Command, Fault, Request};
use mst_key::Key;
use mst_lines::LineBuffer;

// What `put` asks for, by what stands after it.
fn put_command(fields: Option<&[u8]>) -> Result<Command<'_>, Fault>
    requires { IfSome fields (λ rest. length rest.now ≤ longest_line) }
    ensures { result ≡ put_fields (fields_behind fields.entry) }
{
    let (key, value) = two_fields(fields)?;
    match (key_of(key), value_of(value)) {
        (Some(Ok(key)), Some(Ok(value))) => Ok(Command::Put(key, value)),
        (Some(Ok(_)), Some(Err(_))) => Err(Fault::ValueSize),
        (Some(Err(_)), Some(_)) => Err(Fault::KeySize),
        _ => Err(Fault::BadField),
    }
}

// The key that stands alone after a command.
fn key_alone(fields: Option<&[u8]>) -> Result<Key, Fault>
    requires { IfSome fields (λ rest. length rest.now ≤ longest_line) }
    ensures { result ≡ key_fields (fields_behind fields.entry) }
{
    let key = one_field(fields)?;
    match key_of(key) {
        Some(Ok(key)) => Ok(key),
        Some(Err(_)) => Err(Fault::KeySize),
        None => Err(Fault::BadField),
    }
}

// What `del` asks for, by what stands after it.
fn remove_command(fields: Option<&[u8]>) -> Result<Command<'_>, Fault>
    requires { IfSome fields (λ rest. length rest.now ≤ longest_line) }
    ensures { result ≡ about_key Remove (key_fields (fields_behind fields.entry)) }
{
    Ok(Command::Remove(key_alone(fields)?))
}

// What `get` asks for, by what stands after it.
fn get_command(fields: Option<&[u8]>) -> Result<Command<'_>, Fault>
    requires { IfSome fields (λ rest. length rest.now ≤ longest_line) }
    ensures { result ≡ about_key Get (key_fields (fields_behind fields.entry)) }
{
    Ok(Command::Get(key_alone(fields)?))
}

// What `prove` asks for, by what stands after it.
fn prove_command(fields: Option<&[u8]>) -> Result<Command<'_>, Fault>
    requires { IfSome fields (λ rest. length rest.now ≤ longest_line) }
    ensures { result ≡ about_key Prove (key_fields (fields_behind fields.entry)) }
{
    Ok(Command::Prove(key_alone(fields)?))
}

// What `next` asks for, by what stands after it.
fn next_command(fields: Option<&[u8]>) -> Result<Command<'_>, Fault>
    requires { IfSome fields (λ rest. length rest.now ≤ longest_line) }
    ensures { result ≡ next_fields (fields_behind fields.entry) }
{
    let bound = one_field(fields)?;
    match bound_in(bound) {
        Some(Ok(bound)) => Ok(Command::Next(bound)),
        Some(Err(_)) => Err(Fault::KeySize),
        None => Err(Fault::BadField),
    }
}

// What `range` asks for, by what stands after it.
fn range_command(fields: Option<&[u8]>) -> Result<Command<'_>, Fault>
    requires { IfSome fields (λ rest. length rest.now ≤ longest_line) }
    ensures { result ≡ range_fields (fields_behind fields.entry) }
{
    let (from, to, limit) = three_fields(fields)?;
    match (bound_in(from), bound_in(to), count_of(limit)) {
        (Some(Ok(from)), Some(Ok(to)), Some(limit)) => Ok(Command::Range(from, to, limit)),
        (Some(_), Some(_), Some(_)) => Err(Fault::KeySize),
        _ => Err(Fault::BadField),
    }
}

// What `migrate` asks for, by what stands after it.
fn migrate_command(fields: Option<&[u8]>) -> Result<Command<'_>, Fault>
    requires { IfSome fields (λ rest. length rest.now ≤ longest_line) }
    ensures { result ≡ migrate_fields (fields_behind fields.entry) }
{
    let format = one_field(fields)?;
    match format_of(format) {
        Some(to) => Ok(Command::Migrate(to)),
        None => Err(Fault::BadField),
    }
}

// What `batch` asks for, by what stands after it.
fn batch_command(fields: Option<&[u8]>) -> Result<Command<'_>, Fault>
    requires { IfSome fields (λ rest. length rest.now ≤ longest_line) }
    ensures { result ≡ about_edits (edits_read (fields_behind fields.entry)) }
{
    Ok(Command::Batch(Edits::new(fields)?))
}

// The command, if nothing stands after it.
fn without_fields<'l>(command: Command<'l>, fields: Option<&[u8]>) -> Result<Command<'l>, Fault>
    ensures { result ≡ no_fields command.entry (fields_behind fields.entry) }
{
    no_field(fields)?;
    Ok(command)
}

// The command with this name that has no fields, if there is one.
fn plain_named<'l>(name: &[u8]) -> Option<Command<'l>>
    ensures { result ≡ plain_command name.now }
{
    if name == b"root".as_slice() {
        return Some(Command::Root);
    }
    if name == b"node".as_slice() {
        return Some(Command::Node);
    }
    if name == b"pin".as_slice() {
        return Some(Command::Pin);
    }
    if name == b"unpin".as_slice() {
        return Some(Command::Unpin);
    }
    if name == b"rows".as_slice() {
        return Some(Command::Rows);
    }
    if name == b"format".as_slice() {
        return Some(Command::Format);
    }
    None
}

// What the command with this name asks for, by what stands after it.
fn command_named<'l>(name: &[u8], fields: Option<&'l [u8]>) -> Result<Command<'l>, Fault>
    requires { IfSome fields (λ rest. length rest.now ≤ longest_line) }
    ensures { result ≡ named_command name.now (fields_behind fields.entry) }
{
    if let Some(command) = plain_named(name) {
        return without_fields(command, fields);
    }
    if name == b"put".as_slice() {
        return put_command(fields);
    }
    if name == b"del".as_slice() {
        return remove_command(fields);
    }
    if name == b"get".as_slice() {
        return get_command(fields);
    }
    if name == b"next".as_slice() {
        return next_command(fields);
    }
    if name == b"range".as_slice() {
        return range_command(fields);
    }
    if name == b"prove".as_slice() {
        return prove_command(fields);
    }
    if name == b"migrate".as_slice() {
        return migrate_command(fields);
    }
    if name == b"batch".as_slice() {
        return batch_command(fields);
    }
    Err(Fault::NoCommand)
}

// What a command asks for, with its fields.
fn command_in(fields: Option<&[u8]>) -> Result<Command<'_>, Fault>
    requires { IfSome fields (λ rest. length rest.now ≤ longest_line) }
    ensures { result ≡ command_of (fields_behind fields.entry) }
{
    let Some(fields) = fields else {
        return Err(Fault::NoCommand);
    };
    let (name, fields) = first_field(fields);
    command_named(name, fields)
}

// What the bytes of a line ask for.
fn request_of(line: &[u8], passes: u32) -> Result<Request<'_>, Fault>
    requires { length line.now ≤ longest_line }
    ensures { result ≡ by_fields passes (fields_of line.now) }
{
    let (pass, fields) = first_field(line);
    let Some(pass) = pass_of(pass, passes) else {
        return Err(Fault::NoPass);
    };
    let command = command_in(fields)?;
    Ok(Request { pass, command })
}

/// Returns what is asked for by what is kept of a line, if the passes 1 to `passes` are dealt.
///
/// Returns each fault only if no fault that stands before it in `Fault` applies. It never returns
/// `Pinning`.
pub fn request_in(line: &LineBuffer, passes: u32) -> Result<Request<'_>, Fault>
    ensures asked { result ≡ asked passes line.now }
    ensures dealt { IfOk result (λ request. IsDealt passes request) }
{
    match line.bytes() {
        Some(bytes) => request_of(bytes, passes),
        None => Err(Fault::LongLine),
    }
}
