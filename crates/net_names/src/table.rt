// The numbers of names.
ghost use Rattle.std.specs.Prelude.{◌≡◌, ◌<◌, ℕ, List, [], Some, None, not, ◌||◌, if◌then◌else◌, nat_eq, IfOk, IfSome, OnOk};
ghost use Rattle.std.specs.Option.{option_or};
ghost use Rattle.std.specs.Cmp.{partial_equiv_from_equiv};
ghost use Rattle.std.specs.Cmp.Lexicographic.{nat_list_eq_equiv, pointwise};
ghost use Rattle.std.specs.Hash as fed;
ghost use Rattle.std.specs.Cmp.Rules.{hashing};
ghost use Rattle.std.proofs.Common.{rules, refl};
ghost use Rattle.domains.specs.Names.{is_same};
ghost use Rattle.net_names.specs.Tables.{number_at, has, noted};
ghost use Rattle.net_names.specs.Numbers.{names_of, number_in, is_name_of};

use crate::values::is_same;
use indexmap::IndexMap;
use net_reader::Word;
use polis_base::{List, Name, NoMemory};
use std::alloc::Global;
use std::hash::{Hash, Hasher};
use std::marker::Model;

// How many entries are tried from a given one on.
const NEAR: u64 = 3;

// A name as a key.
#[derive(Drop)]
struct Key {
    name: Name,
}

impl Model for Key {
    ghost use Rattle.std.specs.Prelude.{List, ℕ};

    ghost Value = { List ℕ };

    ghost view = { λ k. k.name };
}

impl PartialEq for Key {
    ghost eq = { pointwise nat_eq };

    ghost laws = { partial_equiv_from_equiv nat_list_eq_equiv };

    fn eq(&self, other: &Key) -> bool {
        self.name.same(&other.name)
    }
}

impl Eq for Key {
    ghost laws = { nat_list_eq_equiv };
}

impl Hash for Key {
    ghost hash_input = { λ name. fed.slice fed.u8 name };

    ghost respects_eq = { Prim.search (hashing, rules) };

    fn hash<H: Hasher>(&self, state: &mut H) {
        self.name.bytes().hash(state);
    }
}

// A number below 256 that tells most names apart that differ in their length or in their last three
// bytes, as names that end with a number do.
fn slot(bytes: &[u8]) -> usize
    ensures { result < 256 }
{
    let len = bytes.len();
    if len < 2 {
        return 0;
    }
    let last = usize::from(bytes[len - 2]) * 10 + usize::from(bytes[len - 1]) + len % 32 * 87;
    if len < 3 {
        return last % 256;
    }
    (usize::from(bytes[len - 3]) * 107 + last) % 256
}

/// Which names have a number, and which.
#[derive(Drop)]
pub struct Table {
    numbers: IndexMap<Key, u64>,
    // For each slot the place of an entry that is tried before the name is hashed.
    likely: [u8; 256],
}

impl Model for Table {
    ghost use Rattle.domains.specs.Names.{is_same};
    ghost use Rattle.net_names.specs.Tables.{NameNumbers};

    ghost Value = { NameNumbers };

    ghost view = { λ t. t.numbers.entries };
}

impl Table {
    /// No name has a number.
    pub fn new(alloc: Global) -> Table
        ensures { result ≡ [] }
    {
        Table {
            numbers: IndexMap::new(alloc),
            likely: [0; 256],
        }
    }

    // The number of the name, if it is that of the entry at this place.
    #[inline(always)]
    fn number_here(&self, place: usize, name: &Name) -> Option<u64>
        ensures { IfSome result (λ number. number_at self.now name.now ≡ Some number) }
    {
        match self.numbers.get_index(place) {
            Some((key, number)) => {
                if is_same(name, &key.name) {
                    Some(*number)
                } else {
                    None
                }
            }
            None => None,
        }
    }

    // The number of the name. The entry that its slot gives is tried before it is hashed.
    fn number_by_slot(&self, name: &Name) -> Option<u64>
        ensures { result ≡ number_at self.now name.now }
    {
        let place = self.likely[slot(name.bytes())];
        match self.number_here(usize::from(place), name) {
            Some(number) => Some(number),
            None => self.numbers.get(&Key { name: *name }).copied(),
        }
    }

    /// The number of a name, if it has one. The entries at this place and at the next two are tried
    /// first, since names are often used in the order in which they are declared.
    pub fn number_from(&self, first: u64, name: &Name) -> Option<u64>
        ensures { result ≡ number_at self.now name.now }
    {
        for near in 0..NEAR {
            let place = first.saturating_add(near) as usize;
            if let Some(number) = self.number_here(place, name) {
                return Some(number);
            }
        }
        self.number_by_slot(name)
    }

    /// The number of a name, if it has one.
    #[inline(always)]
    pub fn number(&self, name: Name) -> Option<u64>
        ensures { result ≡ number_at self.now name }
    {
        self.number_by_slot(&name)
    }

    /// Whether a name has a number.
    pub fn has(&self, name: Name) -> bool
        ensures { result ≡ has self.now name }
    {
        self.number(name).is_some()
    }

    /// Gives a name that has none this number. True where it had none.
    pub fn note(&mut self, name: Name, number: u64) -> Result<bool, NoMemory>
        ensures fresh { IfOk result (λ fresh. fresh ≡ not (has self.old name)) }
        ensures noted { OnOk result (self.new ≡ noted self.old name number) }
        ensures number { OnOk result ((q : List ℕ) → number_at self.new q
            ≡ option_or (number_at self.old q) (if is_same q name then Some number else None)) }
        ensures names { OnOk result ((q : List ℕ)
            → has self.new q ≡ (has self.old q || is_same q name)) }
    {
        if self.has(name) {
            return Ok(false);
        }
        let place = self.numbers.len() % 256;
        self.numbers.insert(Key { name }, number)?;
        self.likely[slot(name.bytes())] = place as u8;
        Ok(true)
    }
}

// The number of each name: its first place among the words.
fn number_each(alloc: Global, words: &[Word]) -> Result<Table, NoMemory>
    ensures { IfOk result (λ table. (name : List ℕ)
        → number_at table name ≡ number_in (names_of words.now) name) }
{
    let mut table = Table::new(alloc);
    for (number, word) in words.iter().enumerate() {
        table.note(word.name, number as u64)?;
    }
    Ok(table)
}

/// The number of each name: its first place among the words.
pub fn number_all(alloc: Global, words: &List<Word>) -> Result<Table, NoMemory>
    ensures numbers { IfOk result (λ table. (name : List ℕ)
        → number_at table name ≡ number_in (names_of words.now) name) }
    ensures names { IfOk result (λ table. has table ≡ is_name_of words.now) }
{
    let table = number_each(alloc, words.as_slice())?;
    Ok(table)
}
