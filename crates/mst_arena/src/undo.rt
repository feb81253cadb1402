//! What was done to rows for the version to come, taken back.
ghost use Rattle.std.specs.Prelude.{◌≡◌, ◌≤◌, ◌<◌, ◌+◌, ◌++◌, ◌∷◌, [], Some, true, if◌then◌else◌, map, length, slice_get, slice_set, vec_len, vec_capacity};
ghost use Rattle.mst_arena.specs.Limits.{most_rows};
ghost use Rattle.mst_arena.specs.Lists.{Lists, is_dead as dead_life};
ghost use Rattle.mst_arena.specs.Lives.{State, version, SameReach, IsSettled, is_free as free_life};
ghost use Rattle.mst_arena.specs.Undone.{undone_life, undone as undone_desk};

use crate::free_rows::FreeRows;
use crate::life::Life;
use std::alloc::Allocator;

/// What a life is without the version to come.
fn undone(life: Life, next: u64) -> Life
    ensures undone { result ≡ undone_life next life }
{
    match life {
        Life::Free => Life::Free,
        Life::Born { birth } => {
            if birth < next {
                Life::Born { birth }
            } else {
                Life::Free
            }
        }
        Life::Dead { birth, death } => {
            if death < next {
                Life::Dead { birth, death }
            } else if birth < next {
                Life::Born { birth }
            } else {
                Life::Free
            }
        }
    }
}

/// Whether a row of this life is free.
fn is_free(life: Life) -> bool
    ensures free { result ≡ free_life life }
{
    match life {
        Life::Free => true,
        Life::Born { .. } | Life::Dead { .. } => false,
    }
}

/// Whether a row of this life is dead.
fn is_dead(life: Life) -> bool
    ensures dead { result ≡ dead_life life }
{
    match life {
        Life::Dead { .. } => true,
        Life::Free | Life::Born { .. } => false,
    }
}

/// Puts a row into the free ones if it is now free and was not.
fn note_free<A: Allocator>(free: &mut FreeRows<A>, row: u32, was: Life, now: Life)
    requires was { slice_get free.old row ≡ Some (free_life was) }
    requires more { free_life was ≡ true → free_life now ≡ true }
    ensures noted { free.new ≡ slice_set free.old row (free_life now) }
{
    if !is_free(was) && is_free(now) {
        free.put(row);
    }
}

/// Adds a row to a list if it is dead.
fn note_dead<A: Allocator>(dead: &mut Vec<u32, A>, row: u32, now: Life)
    requires room { vec_len dead.old < vec_capacity dead.old }
    ensures noted { dead.new.items
        ≡ dead.old.items ++ (if dead_life now then row ∷ [] else []) }
    ensures len { vec_len dead.new ≤ vec_len dead.old + 1 }
    ensures room { vec_capacity dead.new ≡ vec_capacity dead.old }
{
    if is_dead(now) {
        dead.push_reserved(row);
    }
}

/// Takes back each birth and each death of the version to come, and lists the rows that stay dead.
/// It looks at each row.
pub fn undo_all<A: Allocator>(
    lives: &mut [Life],
    free: &mut FreeRows<A>,
    dead: &mut Vec<u32, A>,
    next: u64,
)
    requires free { free.old ≡ map free_life lives.old }
    requires few { length lives.old ≤ most_rows }
    requires none { dead.old.items ≡ [] }
    requires room { length lives.old ≤ vec_capacity dead.old }
    ensures undone { lives.new ≡ map (undone_life next) lives.old }
    ensures free { free.new ≡ map free_life lives.new }
    ensures dead { Lists dead_life lives.new dead.new.items }
    ensures room { vec_capacity dead.new ≡ vec_capacity dead.old }
{
    for row in 0..lives.len() {
        let was = lives[row];
        let now = undone(was, next);
        lives[row] = now;
        note_free(free, row as u32, was, now);
        note_dead(dead, row as u32, now);
    }
}

/// After all is taken back that was done for the version to come, the versions up to the current
/// one reach the same rows, and no write is under way.
pub fn undo_laws()
    ensures same { (s : State)
        → SameReach (λ v. v ≤ version s) s.lives (undone_desk s).lives }
    ensures settled { (s : State) → IsSettled (undone_desk s) }
{}
