// Numbers under keys that are lists of numbers.
ghost use Rattle.std.specs.Prelude.{◌≡◌, List, ℕ, cond, Some, None, IfOk, OnOk, OnErr};
ghost use Rattle.std.specs.Str.{bytes_eq};
ghost use Rattle.polis_base.specs.Index.{found};

use crate::NoMemory;
use std::alloc::Global;
use std::collections::HashMap;

/// Numbers under keys, a key being a list of numbers.
pub type Index = HashMap<Vec<u64>, u64>;

/// An index without numbers.
pub fn empty_index(alloc: Global) -> Index
    ensures { (q : List ℕ) → found result q ≡ None }
{
    HashMap::new(alloc)
}

/// An index without numbers that has room for so many.
pub fn index_with_room(alloc: Global, count: u64) -> Result<Index, NoMemory>
    ensures { IfOk result (λ index. (q : List ℕ) → found index q ≡ None) }
{
    let index = HashMap::with_capacity(alloc, count as usize)?;
    Ok(index)
}

/// The number under a key.
pub fn find(index: &Index, key: &[u64]) -> Option<u64>
    ensures { result ≡ found index.now key.now }
{
    index.get(key).copied()
}

/// Puts a number under a key.
pub fn enter(index: &mut Index, key: Vec<u64>, number: u64) -> Result<(), NoMemory>
    ensures ok { OnOk result ((q : List ℕ)
        → found index.new q ≡ cond (bytes_eq key.items q) (Some number) (found index.old q)) }
    ensures err { OnErr result ((q : List ℕ) → found index.new q ≡ found index.old q) }
{
    index.insert(key, number)?;
    Ok(())
}
