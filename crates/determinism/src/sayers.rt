// Rows by what they say: of each 64 rows, for each place of their marks, the set of those that say
// it. One set then tells of 64 rows at once which of them are apart from a row.
ghost use Rattle.std.specs.Prelude.{◌≡◌, ◌<◌, ◌≤◌, ◌+◌, ℕ, length, slice_get, Some, IfOk};
ghost use Rattle.std.specs.Int.{bit_at};
ghost use Rattle.determinism.specs.declared.marks.Marks.{Marks as MarksOf};
ghost use Rattle.determinism.specs.inner.Sayers.{AreSayers, HasAdded, IsFar};

use crate::marks::Marks;
use polis_base::{List, NoMemory, SmallSet};
use std::alloc::Global;

// There are 64 places for each 64 rows, and at most 512 rows.
const SETS: u64 = 512;

/// The rows of each block of 64 that say a place, at 64 times the block's number and the place.
pub(crate) type Sayers = List<SmallSet>;

// One more row, which says this.
fn add_row(sayers: &mut Sayers, row: u64, said: SmallSet)
    requires row { row < 512 }
    requires long { length sayers.old ≡ 512 }
    ensures long { length sayers.new ≡ 512 }
    ensures added { HasAdded sayers.old sayers.new row said }
{
    let mut left = said;
    while !left.is_empty() {
        let place = left.least();
        let k = row / 64 * 64 + u64::from(place);
        let set = sayers.get(k).with((row % 64) as u32);
        sayers.set(k, set);
        left = left.without(place);
    }
}

/// The rows of these marks by what they say.
pub(crate) fn sayers_of(alloc: Global, marks: &List<Marks>) -> Result<Sayers, NoMemory>
    requires few { length marks.now ≤ 512 }
    ensures { IfOk result (AreSayers marks.now) }
{
    let mut sayers = Sayers::filled(alloc, SETS, SmallSet::empty())?;
    for row in 0..marks.len() {
        let of_row = marks.get(row);
        add_row(&mut sayers, row, of_row.said);
    }
    Ok(sayers)
}

// The rows of a block that say something of what is denied.
fn far_in(sayers: &Sayers, block: u64, denied: SmallSet) -> SmallSet
    requires block { block < 8 }
    requires long { length sayers.now ≡ 512 }
    ensures { (i : ℕ) → bit_at result i ≡ 1 → IsFar sayers.now block denied i }
{
    let mut far = SmallSet::empty();
    let mut left = denied;
    while !left.is_empty() {
        let place = left.least();
        far = far.either(*sayers.get(block * 64 + u64::from(place)));
        left = left.without(place);
    }
    far
}

// How many numbers from this one on are members, up to the first that isn't.
fn run_from(set: SmallSet, place: u32) -> u32
    requires { place < 64 }
    ensures small { result ≤ 64 }
    ensures there { (i : ℕ) → i < result → bit_at set (place + i) ≡ 1 }
{
    for k in place..64 {
        if !set.has(k) {
            return k - place;
        }
    }
    64 - place
}

/// The first row from this one on that says nothing of what is denied, or the number of rows.
pub(crate) fn next_near(marks: &[Marks], sayers: &Sayers, denied: SmallSet, from: u32) -> u32
    requires few { length marks.now ≤ 512 }
    requires from { from ≤ length marks.now }
    requires sayers { AreSayers marks.now sayers.now }
    ensures from { from ≤ result }
    ensures within { result ≤ length marks.now }
    ensures apart { (r : ℕ) (of_row : MarksOf) → from ≤ r → r < result
        → slice_get marks.now r ≡ Some of_row
        → (place : ℕ) × (bit_at of_row.said place ≡ 1) × (bit_at denied place ≡ 1) }
{
    let count = marks.len() as u32;
    let mut row = from;
    while row < count {
        let far = far_in(sayers, (row / 64) as u64, denied);
        let apart = run_from(far, row % 64);
        if apart == 0 {
            return row;
        }
        row += apart;
    }
    count
}
