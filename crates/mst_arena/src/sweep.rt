//! The sweep along the lists of dead rows.
ghost use Rattle.std.specs.Prelude.{◌≡◌, ◌⊎◌, ◌≤◌, ◌+◌, ◌-◌, ◌==◌, ◌&&◌, ℕ, [], ◌++◌, true, take, map, length, vec_len, vec_capacity};
ghost use Rattle.std.specs.Bool.{MatchBool};
ghost use Rattle.std.specs.List.{list_any, list_all};
ghost use Rattle.std.specs.List.Sorted.{IsPermutation, IsNonDecreasing};
ghost use Rattle.mst_arena.specs.declared.life.Life.TheVariants.{Dead};
ghost use Rattle.mst_arena.specs.Lives.{swept_life, is_free, reaches_life};
ghost use Rattle.mst_arena.specs.Lists.{Lists, StayBut, AllReached, AllOlder, IsLowest, is_older, is_dead, times};

use crate::free_rows::FreeRows;
use crate::life::Life;
use std::alloc::Allocator;
use std::mem;

/// Whether a live version reaches a row that was born and died with these versions. If the live
/// versions rise, one search finds the first that is not below the birth.
fn is_reached(birth: u64, death: u64, live: &[u64], rising: bool) -> bool
    requires rising { rising ≡ true → IsNonDecreasing live.now }
    ensures reached { result ≡ list_any (reaches_life (Dead birth death)) live.now }
{
    if !rising {
        return live.iter().any(|v| birth <= *v && *v < death);
    }
    let first = live.partition_point(|v| *v < birth);
    first < live.len() && live[first] < death
}

/// A number that no live version is below: the first of them if they rise, and otherwise 0.
fn lowest_of(live: &[u64], rising: bool) -> u64
    requires rising { rising ≡ true → IsNonDecreasing live.now }
    ensures lowest { IsLowest result live.now }
{
    if rising && !live.is_empty() {
        live[0]
    } else {
        0
    }
}

/// Whether a dead row stays. If it died by the lowest live version, as almost all rows did where
/// nothing is pinned, no version reaches it, and no search is made.
fn stays(birth: u64, death: u64, live: &[u64], rising: bool, lowest: u64) -> bool
    requires rising { rising ≡ true → IsNonDecreasing live.now }
    requires lowest { IsLowest lowest live.now }
    ensures stays { result ≡ list_any (reaches_life (Dead birth death)) live.now }
{
    lowest < death && is_reached(birth, death, live, rising)
}

/// What a sweep leaves of a life.
fn after_sweep(life: Life, live: &[u64], rising: bool, lowest: u64) -> Life
    requires rising { rising ≡ true → IsNonDecreasing live.now }
    requires lowest { IsLowest lowest live.now }
    ensures swept { result ≡ swept_life live.now life }
{
    match life {
        Life::Dead { birth, death } => {
            if stays(birth, death, live, rising, lowest) {
                life
            } else {
                Life::Free
            }
        }
        _ => life,
    }
}

/// Whether a live version other than the last of the list reaches a dead row. If these rise, the
/// last is the newest.
fn is_older_kept(life: Life, live: &[u64], rising: bool) -> bool
    requires rising { rising ≡ true → IsNonDecreasing live.now }
    ensures kept { is_dead life ≡ true
        → result ≡ list_any (reaches_life life) (take (length live.now - 1) live.now) }
{
    let older = live.len().saturating_sub(1);
    match life {
        Life::Dead { birth, death } => is_reached(birth, death, &live[..older], rising),
        _ => false,
    }
}

/// Whether a newer version than this is live.
fn is_overtaken(version: u64, live: &[u64]) -> bool
    ensures newer { result ≡ is_older live.now version }
{
    live.iter().any(|newer| version < *newer)
}

/// Whether each of the versions is still live, and none is the newest of the live ones.
fn are_older(versions: &[u64], live: &[u64]) -> bool
    ensures all { result ≡ list_all (λ v. list_any (λ w. w == v) live.now
        && is_older live.now v) versions.now }
{
    versions
        .iter()
        .all(|v| live.contains(v) && is_overtaken(*v, live))
}

/// Moves all rows of one list to another, which has room for them.
fn move_all<A: Allocator>(from: &mut Vec<u32, A>, to: &mut Vec<u32, A>)
    requires room { vec_len from.old + vec_len to.old ≤ vec_capacity to.old }
    ensures empty { from.new.items ≡ [] }
    ensures times { (r : ℕ) → times r to.new.items ≡ times r from.old.items + times r to.old.items }
    ensures from_room { vec_capacity from.new ≡ vec_capacity from.old }
    ensures to_room { vec_capacity to.new ≡ vec_capacity to.old }
{
    while let Some(row) = from.pop() {
        to.push_reserved(row);
    }
}

/// Moves the held rows to the other dead rows, unless each version that the last sweep remembered
/// is live and not the newest.
pub fn look_again<A: Allocator>(
    dead: &mut Vec<u32, A>,
    held: &mut Vec<u32, A>,
    last: &[u64],
    live: &[u64],
)
    requires room { vec_len held.old + vec_len dead.old ≤ vec_capacity dead.old }
    ensures times { (r : ℕ) → times r (dead.new.items ++ held.new.items)
        ≡ times r (dead.old.items ++ held.old.items) }
    ensures held { (held.new.items ≡ [])
        ⊎ ((held.new.items ≡ held.old.items)
        × (list_all (λ v. list_any (λ w. w == v) live.now
        && is_older live.now v) last.now ≡ true)) }
    ensures dead_room { vec_capacity dead.new ≡ vec_capacity dead.old }
    ensures held_room { vec_capacity held.new ≡ vec_capacity held.old }
{
    if !are_older(last, live) {
        move_all(held, dead);
    }
}

/// Remembers the live versions of this sweep, in rising order. If there is no room for them, it
/// remembers none and returns `false`.
fn remember<A: Allocator>(last: &mut Vec<u64, A>, live: &[u64]) -> bool
    ensures remembered { MatchBool result (IsPermutation live.now last.new.items
        × IsNonDecreasing last.new.items) (last.new.items ≡ []) }
    ensures room { vec_capacity last.new ≡ vec_capacity last.old }
{
    last.clear();
    if live.len() > last.capacity() {
        return false;
    }
    for version in live {
        last.push_reserved(*version);
    }
    last.sort_unstable();
    true
}

/// Frees the rows of `dead` that no live version reaches, and moves the others to `held`. No other
/// row is looked at.
///
/// Returns whether each row that it moves is reached by a version that is not the newest of the
/// live ones.
fn free_unreached<A: Allocator>(
    lives: &mut [Life],
    free: &mut FreeRows<A>,
    dead: &mut Vec<u32, A>,
    held: &mut Vec<u32, A>,
    live: &[u64],
    rising: bool,
) -> bool
    requires free { free.old ≡ map is_free lives.old }
    requires dead { Lists is_dead lives.old (dead.old.items ++ held.old.items) }
    requires others { StayBut live.now lives.old dead.old.items }
    requires room { length lives.old ≤ vec_capacity held.old }
    requires rising { rising ≡ true → IsNonDecreasing live.now }
    ensures swept { lives.new ≡ map (swept_life live.now) lives.old }
    ensures free { free.new ≡ map is_free lives.new }
    ensures dead { Lists is_dead lives.new held.new.items }
    ensures empty { dead.new.items ≡ [] }
    ensures older { result ≡ true
        → AllReached (take (length live.now - 1) live.now) lives.old held.old.items
        → AllReached (take (length live.now - 1) live.now) lives.new held.new.items }
    ensures room { vec_capacity held.new ≡ vec_capacity held.old }
    ensures dead_room { vec_capacity dead.new ≡ vec_capacity dead.old }
{
    let lowest = lowest_of(live, rising);
    let mut older = true;
    while let Some(row) = dead.pop() {
        let life = after_sweep(lives[row as usize], live, rising, lowest);
        lives[row as usize] = life;
        match life {
            Life::Free => free.put(row),
            _ => {
                older &= is_older_kept(life, live, rising);
                held.push_reserved(row);
            }
        }
    }
    older
}

/// Frees the rows of `dead` that no live version reaches, and remembers the live versions that hold
/// the others: all of them, or all but the newest if no row is held by that one alone. In a store
/// that is the current version, which reaches no dead row; so held rows are not looked at again
/// with each write, but only once a pin ends. If there was no room to remember the live versions,
/// the next sweep looks at each dead row.
///
/// A row that died by the lowest live version costs one comparison with it. Any other that is
/// looked at costs one search among the live versions, or two if it stays. Only if there are more
/// live versions than there is room for, they are compared one by one.
pub fn sweep_dead<A: Allocator>(
    lives: &mut [Life],
    free: &mut FreeRows<A>,
    dead: &mut Vec<u32, A>,
    held: &mut Vec<u32, A>,
    last: &mut Vec<u64, A>,
    live: &[u64],
)
    requires free { free.old ≡ map is_free lives.old }
    requires dead { Lists is_dead lives.old (dead.old.items ++ held.old.items) }
    requires others { StayBut live.now lives.old dead.old.items }
    requires held { AllOlder live.now lives.old held.old.items }
    requires room { length lives.old ≤ vec_capacity held.old }
    ensures swept { lives.new ≡ map (swept_life live.now) lives.old }
    ensures free { free.new ≡ map is_free lives.new }
    ensures lists { (AllReached last.new.items lives.new held.new.items
        × Lists is_dead lives.new held.new.items × (dead.new.items ≡ [])
        × (vec_capacity dead.new ≡ vec_capacity dead.old)
        × (vec_capacity held.new ≡ vec_capacity held.old))
        ⊎ (Lists is_dead lives.new dead.new.items × (held.new.items ≡ [])
        × (vec_capacity dead.new ≡ vec_capacity held.old)
        × (vec_capacity held.new ≡ vec_capacity dead.old)) }
    ensures last_room { vec_capacity last.new ≡ vec_capacity last.old }
{
    if remember(last, live) {
        if free_unreached(lives, free, dead, held, last, true) {
            let _ = last.pop();
        }
        return;
    }
    free_unreached(lives, free, dead, held, live, false);
    mem::swap(dead, held);
}
