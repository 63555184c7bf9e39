// Finite domains.
ghost use Rattle.std.specs.Prelude.{◌≡◌, ◌≢◌, ℕ, ◌<◌, ◌≤◌, ◌+◌, ◌-◌, ◌++◌, length, slice_get, Some, ◌^◌, IsTrue, IfOk, OnOk, OnErr, IfSome, IfNone, decimal};
ghost use Rattle.polis_base.specs.declared.limits.TheConstants.{DOMAIN_SIZE_MAX};
ghost use Rattle.domains.specs.Names.{AreValues};

use polis_base::{Bytes, Duplicate, List, Name, NoMemory, read_decimal};
use std::marker::Model;

/// Names in order.
pub type Names = List<Name>;

/// The names of a domain's values: 1 to 32, no two the same. Value v has the name at place v.
#[derive(Drop)]
pub struct NameList {
    names: Names,
}

impl Model for NameList {
    ghost use Rattle.std.specs.Prelude.{List, ℕ};
    ghost use Rattle.domains.specs.Names.{AreValues};

    ghost Value = { List (List ℕ) };

    ghost view = { λ l. l.names };

    ghost invariant = { λ l. AreValues l.names };
}

impl NameList {
    /// These names as the values of a domain.
    pub fn of(items: Names) -> Self
        requires { AreValues items }
        ensures { result ≡ items }
    {
        NameList { names: items }
    }

    /// How many names there are.
    pub fn len(&self) -> u64
        ensures len { result ≡ length self.now }
        ensures names { AreValues self.now }
    {
        self.names.len()
    }

    /// The name at a place, counted from 0.
    pub fn get(&self, i: u64) -> &Name
        requires { i < length self.now }
        ensures { slice_get self.now i ≡ Some result.now }
    {
        self.names.get(i)
    }

    // The place of a name.
    fn place_of(&self, word: &[u8]) -> Option<u8>
        ensures some { IfSome result (λ i. slice_get self.now i ≡ Some word.now) }
        ensures none { IfNone result ((i : ℕ) → slice_get self.now i ≢ Some word.now) }
        ensures names { AreValues self.now }
    {
        for i in 0..self.len() {
            if self.get(i).bytes() == word {
                return Some(i as u8);
            }
        }
        None
    }
}

impl Duplicate for NameList {
    fn copy(&self) -> Result<NameList, NoMemory> {
        Ok(NameList {
            names: self.names.copy()?,
        })
    }
}

/// The numbers from `first` to `last`, both included, 1 to 32 of them. Value v is the number `first
/// + v`.
#[derive(Clone, Copy, Debug)]
pub struct Span {
    /// The least number.
    pub first: u32,
    /// The greatest number.
    pub last: u32,
    pub ghost ordered: { first ≤ last },
    pub ghost few: { last - first < DOMAIN_SIZE_MAX },
}

impl Span {
    // The number that a value is.
    fn number(self, v: u8) -> u32
        requires { self.first + v ≤ self.last }
        ensures { result ≡ self.first + v }
    {
        self.first + v as u32
    }

    fn contains(self, number: u64) -> bool
        ensures yes { IsTrue result → (self.first ≤ number) × (number ≤ self.last) }
        ensures no { (self.first ≤ number) → (number ≤ self.last) → IsTrue result }
        ensures range { number < 2 ^ 64 }
    {
        u64::from(self.first) <= number && number <= u64::from(self.last)
    }

    // The value that is the number of a decimal text.
    fn value_of(self, word: &[u8]) -> Option<u8>
        ensures some { IfSome result (λ v. (self.first + v ≤ self.last)
            × (decimal (self.first + v) ≡ word.now)) }
        ensures none { IfNone result ((v : ℕ) → self.first + v ≤ self.last
            → decimal (self.first + v) ≢ word.now) }
        ensures last { self.last < 2 ^ 32 }
    {
        let number = read_decimal(word)?;
        if self.contains(number) {
            Some((number - u64::from(self.first)) as u8)
        } else {
            None
        }
    }
}

/// The values of an event or of a state variable, numbered from 0.
#[derive(Drop)]
pub enum Domain {
    /// The values are names.
    Names(NameList),
    /// The values are consecutive numbers.
    Range(Span),
}

impl Domain {
    ghost use Rattle.domains.specs.Domains.{size_of, word_of, IsDomain};

    /// How many values there are.
    pub fn size(&self) -> u8
        ensures size { result ≡ size_of self.now }
        ensures few { result ≤ DOMAIN_SIZE_MAX }
        ensures some { 1 ≤ result }
        ensures domain { IsDomain self.now }
    {
        match self {
            Domain::Names(names) => names.len() as u8,
            Domain::Range(span) => (span.last - span.first) as u8 + 1,
        }
    }

    /// The number of the value that has this word, where one has it.
    pub fn value_of(&self, word: &[u8]) -> Option<u8>
        ensures some { IfSome result (λ v. (v < size_of self.now)
            × (word_of self.now v ≡ word.now)) }
        ensures only { IfSome result (λ v. (w : ℕ) → w < size_of self.now
            → word_of self.now w ≡ word.now → w ≡ v) }
        ensures none { IfNone result ((v : ℕ) → v < size_of self.now
            → word_of self.now v ≢ word.now) }
    {
        match self {
            Domain::Names(names) => names.place_of(word),
            Domain::Range(span) => span.value_of(word),
        }
    }

    /// Appends the word of a value: its name, or its number in decimal.
    pub fn push_value(&self, v: u8, into: &mut Bytes) -> Result<(), NoMemory>
        requires { v < size_of self.now }
        ensures ok { OnOk result (into.new ≡ into.old ++ word_of self.now v) }
        ensures err { OnErr result (into.new ≡ into.old) }
    {
        match self {
            Domain::Names(names) => into.push(names.get(v as u64).bytes()),
            Domain::Range(span) => into.push_decimal(span.number(v) as u64),
        }
    }
}

impl Duplicate for Domain {
    fn copy(&self) -> Result<Domain, NoMemory> {
        match self {
            Domain::Names(names) => Ok(Domain::Names(names.copy()?)),
            Domain::Range(span) => Ok(Domain::Range(*span)),
        }
    }
}
