//! The ids of requests: from 1 to 2,147,483,647, and then from 1 again.

ghost use Rattle.std.specs.Prelude.{◌≡◌, ◌+◌, ◌<◌, ◌≤◌, ◌^◌, ◌≤ℤ◌, ℕ, Contains, IsTrue, count_by};
ghost use Rattle.std.specs.Prelude.{get_or, length, pos, false, true};
ghost use Rattle.wire_peer.specs.FreeIds.{IsFirstFree, id_following, id_past};
ghost use Rattle.wire_peer.specs.Marking.{Marks};

use crate::limits::MAX_ID;

/// How many ids are looked at: one of them is free, since fewer are used.
const PLACES: usize = 1025;

/// Returns the id after `id`: 1 after 2,147,483,647.
pub(crate) fn next_after(id: i32) -> i32
    requires { pos 1 ≤ℤ id }
    ensures after { result ≡ id_following id }
    ensures least { pos 1 ≤ℤ result }
{
    if id == i32::MAX { 1 } else { id + 1 }
}

/// Returns how many places after `next` the id stands.
fn place_of(next: u32, id: u32) -> u32
    requires next { (1 ≤ next) × (next < 2 ^ 31) }
    requires id { (1 ≤ id) × (id < 2 ^ 31) }
    ensures place { (k : ℕ) → pos id ≡ id_past (pos next) k → k < 1025 → result ≡ k }
    ensures back { pos id ≡ id_past (pos next) result }
{
    if id >= next {
        id - next
    } else {
        MAX_ID - next + id
    }
}

/// Returns the id that stands `place` places after `next`.
fn id_at(next: u32, place: u32) -> u32
    requires next { (1 ≤ next) × (next < 2 ^ 31) }
    requires place { place < 1025 }
    ensures is { pos result ≡ id_past (pos next) place }
    ensures id { (1 ≤ result) × (result < 2 ^ 31) }
{
    let left = MAX_ID - next;
    if place <= left {
        next + place
    } else {
        place - left
    }
}

/// Returns the first place that isn't marked.
fn first_unmarked(marks: &[bool]) -> usize
    requires { count_by (λ b. b) marks.now < length marks.now }
    ensures within { result < length marks.now }
    ensures unmarked { get_or marks.now result false ≡ false }
    ensures before { (k : ℕ) → k < result → get_or marks.now k false ≡ true }
{
    for place in 0..marks.len() {
        if !marks[place] {
            return place;
        }
    }
    unreachable!()
}

/// Marks the place of `id`, if it is one of those that are looked at.
fn mark(marks: &mut [bool; PLACES], start: u32, id: i32)
    requires { (1 ≤ start) × (start < 2 ^ 31) }
    ensures { Marks (pos start) id marks.old marks.new }
{
    if id < 1 {
        return;
    }
    let place = place_of(start, id as u32) as usize;
    if place < PLACES {
        marks[place] = true;
    }
}

/// Returns the first id from `next` on, round after 2,147,483,647 to 1, that isn't in `used`. It
/// takes no memory, and looks at each used id once.
pub fn next_free(next: i32, used: &[i32]) -> i32
    requires next { pos 1 ≤ℤ next }
    requires few { length used.now ≤ 1024 }
    ensures free { IsFirstFree next used.now result }
    ensures least { pos 1 ≤ℤ result }
{
    let start = next as u32;
    let mut marks = [false; PLACES];
    for id in used {
        mark(&mut marks, start, *id);
    }
    id_at(start, first_unmarked(&marks) as u32) as i32
}
