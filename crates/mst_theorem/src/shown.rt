//! The theorem at work: what a function ensures of the calls that it makes.
ghost use Rattle.std.specs.Prelude.{◌≡◌, ◌⊎◌, true, [], ◌∷◌, Some, None, IfOk, IfErr, IfSome};
ghost use Rattle.mst_key.specs.declared.history.Change.TheVariants.{Put};
ghost use Rattle.mst_key.specs.History.{had};
ghost use Rattle.mst_key.specs.Map.{map_get};
ghost use Rattle.mst_store.specs.Passes.{Answers, Refuses, Wrote, made_by, new_pass};
ghost use Rattle.mst_theorem.specs.Headline.{got, read};
ghost use Rattle.mst_theorem.specs.Shown.{HaveOneOrder, put_was};

use mst_key::{Key, Value};
use mst_store::{Pass, WriteFault, meet};
use std::alloc::{Allocator, Global};
use std::thread::{Threads, join_mut};

/// One new pass of a store of two puts, the other gets. The two calls have one order, in which the
/// one-thread map gives both answers.
pub fn put_and_get<'a, A: Allocator + Copy>(
    one: &mut Pass<'a, A>,
    other: &mut Pass<'a, A>,
    key: &Key,
    value: &Value,
) -> (Result<Option<Value>, WriteFault>, Option<Value>)
    requires one { one.old ≡ new_pass one.old.store 1 }
    requires other { other.old ≡ new_pass one.old.store 2 }
    requires two { one.old.store.passes ≡ 2 }
    ensures order { HaveOneOrder one.old.store
        (put_was key.now value.now result.0 ∷ read (got key.now result.1) ∷ []) one.new.seen }
    // so the get finds nothing, or what was put
    ensures found { (result.1 ≡ None) ⊎ (result.1 ≡ Some value.now) }
{
    let put = one.try_put(key, value);
    let found = other.get(key);
    meet(one, other);
    (put, found)
}

/// The put and the get at once, in two threads.
fn at_once<'a, R: Threads>(
    rt: &R,
    one: &mut Pass<'a, Global>,
    other: &mut Pass<'a, Global>,
    key: &Key,
    value: &Value,
) -> (Result<Option<Value>, WriteFault>, Option<Value>)
    ensures ok { IfOk result.0 (λ old. Wrote (made_by one.old (Put key.now value.now)) one.old
        (had old) one.new) }
    ensures err { IfErr result.0
        (λ fault. Refuses fault (Put key.now value.now) one.old one.new) }
    ensures answers { Answers (λ _ m. map_get m key.now) other.old result.1 other.new }
{
    join_mut(rt, &mut || one.try_put(key, value), &mut || other.get(key))
}

/// The same as [`put_and_get`] at once, in two threads.
pub fn put_beside_get<'a, R: Threads>(
    rt: &R,
    one: &mut Pass<'a, Global>,
    other: &mut Pass<'a, Global>,
    key: &Key,
    value: &Value,
) -> (Result<Option<Value>, WriteFault>, Option<Value>)
    requires one { one.old ≡ new_pass one.old.store 1 }
    requires other { other.old ≡ new_pass one.old.store 2 }
    requires two { one.old.store.passes ≡ 2 }
    ensures order { HaveOneOrder one.old.store
        (put_was key.now value.now result.0 ∷ read (got key.now result.1) ∷ []) one.new.seen }
    // so the get finds nothing, or what was put
    ensures found { (result.1 ≡ None) ⊎ (result.1 ≡ Some value.now) }
{
    let (put, found) = at_once(rt, one, other, key, value);
    meet(one, other);
    (put, found)
}

/// The number that goes with a message: the version that a pass made last, or 0 if it made none.
fn number_to_tell(made: Option<u64>) -> u64
    ensures some { IfSome made (λ version. result ≡ version) }
{
    match made {
        Some(version) => version,
        None => 0,
    }
}

/// One new pass of a store of two puts, and tells the other the version that it made, as by a
/// message. Returns whether the other has then seen as many events, and what it gets. If so, it
/// reads what the first one wrote.
pub fn put_tell_get<'a, A: Allocator + Copy>(
    one: &mut Pass<'a, A>,
    other: &mut Pass<'a, A>,
    key: &Key,
    value: &Value,
) -> (Result<Option<Value>, WriteFault>, bool, Option<Value>)
    requires one { one.old ≡ new_pass one.old.store 1 }
    requires other { other.old ≡ new_pass one.old.store 2 }
    requires two { one.old.store.passes ≡ 2 }
    ensures read { IfOk result.0 (λ _. result.1 ≡ true → result.2 ≡ Some value.now) }
{
    let written = one.try_put(key, value);
    let made = one.made();
    let version = number_to_tell(made);
    let seen = other.has_seen(version);
    let found = other.get(key);
    meet(one, other);
    (written, seen, found)
}
