// Rows of slots by rising start and of streams by rising id, with zero in the free places behind them.
#![tactic(auto)]

ghost use Rattle.std.specs.Prelude.{◌≡◌, ◌<◌, ◌≤◌, ℕ, ltb, eqb, length, take, position};
ghost use Rattle.std.specs.List.{list_any};
ghost use Rattle.laws.specs.Lists.{insert_by, without, filled};
ghost use Rattle.meaning.specs.Calls.{overlaps};
ghost use Rattle.rows.specs.Rows.{no_slot, no_stream};

use meaning::{Slot, Stream};

// What a row holds: the number that it stands in the row by, and what a free place holds.
pub trait Keyed: Copy {
    ghost key_of: { Self → ℕ };

    ghost free_place: { Self };

    fn key(self) -> u32
        ensures { result ≡ key_of self };

    fn free() -> Self
        ensures { result ≡ free_place };
}

impl Keyed for Slot {
    ghost key_of = { λ s. s.start };

    ghost free_place = { no_slot };

    fn key(self) -> u32 {
        self.start
    }

    fn free() -> Slot {
        Slot::default()
    }
}

impl Keyed for Stream {
    ghost key_of = { λ j. j.id };

    ghost free_place = { no_stream };

    fn key(self) -> u32 {
        self.id
    }

    fn free() -> Stream {
        Stream::default()
    }
}

// The place of the one held with this key.
pub fn place<T: Keyed>(held: &[T], key: u64) -> Option<usize>
    ensures { result ≡ position (λ x. eqb (T.key_of x) key) held.now }
{
    held.iter().position(|x| u64::from(x.key()) == key)
}

// Whether two slots overlap; they may touch.
fn overlap(s: Slot, x: Slot) -> bool
    ensures { result ≡ overlaps s x }
{
    x.start < s.end && s.start < x.end
}

// Whether some slot held overlaps s.
pub fn overlaps_any(slots: &[Slot], s: Slot) -> bool
    ensures { result ≡ list_any (overlaps s) slots.now }
{
    slots.iter().any(|x| overlap(s, *x))
}

// The place of the first one held with a larger key.
fn first_larger<T: Keyed>(held: &[T], key: u32) -> Option<usize>
    ensures { result ≡ position (λ x. ltb key (T.key_of x)) held.now }
{
    held.iter().position(|x| key < x.key())
}

// One more among the first n, by rising key: before the first one with a larger key, and from there on each moves one
// place on.
// Stays: a count beside the row, here and below, since the row moves into its free places, and fixed memory has no Vec.
pub fn insert<T: Keyed>(row: &mut [T], n: usize, x: T)
    requires { (n < length row.old) × (row.old ≡ filled (length row.old) T.free_place (take n row.old)) }
    ensures { row.new ≡ filled (length row.old) T.free_place (insert_by T.key_of x (take n row.old)) }
{
    let p = first_larger(&row[..n], x.key()).unwrap_or(n);
    for i in (p..n).rev() {
        row[i + 1] = row[i];
    }
    row[p] = x;
}

// The first n without the one at place p: each one behind it moves one place back, and the last place held is freed.
pub fn remove<T: Keyed>(row: &mut [T], n: usize, p: usize)
    requires { (p < n) × (n ≤ length row.old)
        × (row.old ≡ filled (length row.old) T.free_place (take n row.old)) }
    ensures { row.new ≡ filled (length row.old) T.free_place (without p (take n row.old)) }
{
    for i in p..n - 1 {
        row[i] = row[i + 1];
    }
    row[n - 1] = T::free();
}
