// Places that one goes on to by a code.
ghost use Rattle.std.specs.Prelude.{◌≡◌, ◌<◌, ℕ, [], ◌∷◌, map, length, slice_get, slice_index, Some, IfOk};

use polis_base::{Duplicate, List, NoMemory};
use std::marker::Model;

/// A place for each code of a variable, seen as a list. Two places, as most variables have, need no
/// piece of memory of their own.
#[derive(Drop)]
pub struct Places {
    kept: Kept,
}

// Most variables have two codes.
#[derive(Drop)]
enum Kept {
    Two([u64; 2]),
    Many(List<u64>),
}

impl Model for Places {
    ghost use Rattle.std.specs.Prelude.{ℕ, List};
    ghost use Rattle.sgraph.specs.Kept.{places_of};

    ghost Value = { List ℕ };

    ghost view = { λ p. places_of p.kept };
}

// The places that a table has at two places.
fn two_sent(places: [u64; 2], table: &List<u64>) -> [u64; 2]
    requires { (j : ℕ) → j < length places → slice_index places j < length table.now }
    ensures { result ≡ map (slice_index table.now) places }
{
    let [first, second] = places;
    [*table.get(first), *table.get(second)]
}

// The places that a table has at the places of a list.
fn sent(places: List<u64>, table: &List<u64>) -> List<u64>
    requires { (j : ℕ) → j < length places → slice_index places j < length table.now }
    ensures { result ≡ map (slice_index table.now) places }
{
    let mut list = places;
    for j in 0..list.len() {
        let place = *table.get(*list.get(j));
        list.set(j, place);
    }
    list
}

impl Places {
    /// Two places.
    pub fn two(first: u64, second: u64) -> Self
        ensures { result ≡ first ∷ second ∷ [] }
    {
        Places {
            kept: Kept::Two([first, second]),
        }
    }

    /// The places of a list.
    pub fn of(places: List<u64>) -> Self
        ensures { result ≡ places }
    {
        Places {
            kept: Kept::Many(places),
        }
    }

    /// The places as a slice.
    pub fn as_slice(&self) -> &[u64]
        ensures { result.now ≡ self.now }
    {
        match &self.kept {
            Kept::Two(places) => places,
            Kept::Many(places) => places.as_slice(),
        }
    }

    /// How many places there are.
    pub fn len(&self) -> u64
        ensures { result ≡ length self.now }
    {
        self.as_slice().len() as u64
    }

    /// The place for a code.
    pub fn get(&self, i: u64) -> &u64
        requires { i < length self.now }
        ensures { slice_get self.now i ≡ Some result.now }
    {
        &self.as_slice()[i as usize]
    }

    /// For each place, the one that a table has there.
    pub fn through(self, table: &List<u64>) -> Places
        requires { (j : ℕ) → j < length self → slice_index self j < length table.now }
        ensures { result ≡ map (slice_index table.now) self }
    {
        match self.kept {
            Kept::Two(places) => Places {
                kept: Kept::Two(two_sent(places, table)),
            },
            Kept::Many(places) => Places {
                kept: Kept::Many(sent(places, table)),
            },
        }
    }
}

impl Duplicate for Places {
    fn copy(&self) -> Result<Places, NoMemory> {
        match &self.kept {
            Kept::Two(places) => Ok(Places::two(places[0], places[1])),
            Kept::Many(places) => Ok(Places::of(places.copy()?)),
        }
    }
}
