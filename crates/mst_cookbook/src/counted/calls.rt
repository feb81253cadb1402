//! Calls of a pass, each made many times.
ghost use Rattle.std.specs.Prelude.{◌<◌, length};

use super::changes::{FIRST_NEW_VALUE, picked};
use super::keys::value;
use mst_key::{Format, Key};
use mst_store::Pass;
use std::alloc::Global;

/// How many pairs a range returns at most.
const RANGE: usize = 100;

/// A call that is made many times.
pub trait Call {
    /// Makes it once, at a key, with the number of the call. Returns true if it went through.
    fn make(&self, alloc: Global, pass: &mut Pass<'_, Global>, key: &Key, number: u32) -> bool;
}

/// Makes so many calls, each at the next key. Returns true if each went through.
pub fn repeat<C: Call>(
    alloc: Global,
    pass: &mut Pass<'_, Global>,
    keys: &[Key],
    calls: u32,
    call: &C,
) -> bool
    requires some { 0 < length keys.now }
{
    for number in 0..calls {
        if !call.make(alloc, pass, picked(keys, number), number) {
            return false;
        }
    }
    true
}

/// Puts a value, or a listing, other than the current one at a key that the map has.
pub struct Put {
    pub lists: bool,
}

impl Call for Put {
    fn make(&self, _alloc: Global, pass: &mut Pass<'_, Global>, key: &Key, number: u32) -> bool {
        let new = value(FIRST_NEW_VALUE + u64::from(number), self.lists);
        matches!(pass.try_put(key, &new), Ok(Some(_)))
    }
}

/// Removes a key, and puts it back.
pub struct RemoveAndPutBack;

impl Call for RemoveAndPutBack {
    fn make(&self, _alloc: Global, pass: &mut Pass<'_, Global>, key: &Key, _number: u32) -> bool {
        match pass.try_remove(key) {
            Ok(Some(old)) => matches!(pass.try_put(key, &old), Ok(None)),
            _ => false,
        }
    }
}

/// Asks for the number of the current version, which stays this one: a pin and its end.
#[derive(Drop)]
pub struct Version {
    pub first: u64,
}

impl Call for Version {
    fn make(&self, _alloc: Global, pass: &mut Pass<'_, Global>, _key: &Key, _number: u32) -> bool {
        pass.version() == self.first
    }
}

/// Gets a key, which has a value, with a pin of its own.
pub struct Get;

impl Call for Get {
    fn make(&self, _alloc: Global, pass: &mut Pass<'_, Global>, key: &Key, _number: u32) -> bool {
        pass.get(key).is_some()
    }
}

/// Asks for the pair after a key; the last key has none.
pub struct Next;

impl Call for Next {
    fn make(&self, _alloc: Global, pass: &mut Pass<'_, Global>, key: &Key, _number: u32) -> bool {
        let _next = pass.next(Some(key));
        true
    }
}

/// Asks for the pairs from a key on, at most a hundred.
pub struct Range;

impl Call for Range {
    fn make(&self, alloc: Global, pass: &mut Pass<'_, Global>, key: &Key, _number: u32) -> bool {
        pass.range(alloc, Some(key), None, RANGE).is_ok()
    }
}

/// Proves the answer for a key, with a pin of its own.
pub struct Prove;

impl Call for Prove {
    fn make(&self, alloc: Global, pass: &mut Pass<'_, Global>, key: &Key, _number: u32) -> bool {
        pass.prove(alloc, key).is_ok()
    }
}

/// Migrates to the format that is not the current one.
pub struct Migrate;

impl Call for Migrate {
    fn make(&self, alloc: Global, pass: &mut Pass<'_, Global>, _key: &Key, _number: u32) -> bool {
        let to = match pass.format() {
            Format::One => Format::Two,
            Format::Two => Format::One,
        };
        pass.try_migrate(alloc, to).is_ok()
    }
}
