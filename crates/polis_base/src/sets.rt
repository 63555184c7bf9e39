// Sets of small numbers, one bit each.
ghost use Rattle.std.specs.Prelude.{◌≡◌, ◌≢◌, ◌<◌, ◌≤◌, ◌&&◌, ◌||◌, ◌==◌, ℕ, Bool, not, false, filter, length, nat_lt, slice_get, Some};
ghost use Rattle.std.specs.Int.{bit_at};
ghost use Rattle.polis_base.specs.Lists.{upto, head_of};
ghost use Rattle.polis_base.specs.Sets.{members, has_member, members_of, IsBoth};

use std::marker::Model;

/// A set of numbers below 64. Clauses see it as the number whose bit k is 1 where k is a member.
#[derive(Clone, Copy, Debug, PartialEq, Eq)]
pub struct SmallSet {
    bits: u64,
}

impl Model for SmallSet {
    ghost use Rattle.std.specs.Prelude.{ℕ};

    ghost Value = { ℕ };

    ghost view = { λ s. s.bits };

    ghost inverse = { λ n. record { bits = n } };
}

impl SmallSet {
    /// The set without members.
    pub const fn empty() -> SmallSet
        ensures { result ≡ 0 }
    {
        SmallSet { bits: 0 }
    }

    /// The numbers whose bits are 1.
    pub const fn of_bits(bits: u64) -> SmallSet
        ensures { result ≡ bits }
    {
        SmallSet { bits }
    }

    /// The numbers below a count.
    pub fn first(count: u32) -> SmallSet
        requires { count ≤ 64 }
        ensures { (k : ℕ) → (bit_at result k == 1) ≡ nat_lt k count }
    {
        if count == 64 {
            return SmallSet { bits: u64::MAX };
        }
        SmallSet {
            bits: (1 << count) - 1,
        }
    }

    /// Whether there is no member.
    pub fn is_empty(self) -> bool
        ensures { result ≡ (self == 0) }
    {
        self.bits == 0
    }

    /// Whether a number is a member.
    pub fn has(self, k: u32) -> bool
        requires { k < 64 }
        ensures { result ≡ (bit_at self k == 1) }
    {
        (self.bits >> k) & 1 == 1
    }

    /// The set and one more number.
    pub fn with(self, k: u32) -> SmallSet
        requires { k < 64 }
        ensures { (j : ℕ) → (bit_at result j == 1) ≡ (j == k || bit_at self j == 1) }
    {
        SmallSet {
            bits: self.bits | (1 << k),
        }
    }

    /// The set without a number.
    pub fn without(self, k: u32) -> SmallSet
        requires { k < 64 }
        ensures { (j : ℕ) → (bit_at result j == 1) ≡ (not (j == k) && bit_at self j == 1) }
    {
        SmallSet {
            bits: self.bits & !(1 << k),
        }
    }

    /// The set with a number where it is to be a member, and without it where not.
    pub fn marked(self, k: u32, is: bool) -> SmallSet
        requires { k < 64 }
        ensures same { (bit_at result k == 1) ≡ is }
        ensures others { (j : ℕ) → j ≢ k → bit_at result j ≡ bit_at self j }
    {
        if is { self.with(k) } else { self.without(k) }
    }

    /// The members of both.
    pub fn both(self, other: SmallSet) -> SmallSet
        ensures { (j : ℕ) → (bit_at result j == 1) ≡ (bit_at self j == 1 && bit_at other j == 1) }
    {
        SmallSet {
            bits: self.bits & other.bits,
        }
    }

    /// The members of either.
    pub fn either(self, other: SmallSet) -> SmallSet
        ensures { (j : ℕ) → (bit_at result j == 1) ≡ (bit_at self j == 1 || bit_at other j == 1) }
    {
        SmallSet {
            bits: self.bits | other.bits,
        }
    }

    /// The least member.
    pub fn least(self) -> u32
        requires { 0 < self }
        ensures below { result < 64 }
        ensures first { head_of (members self) ≡ Some result }
        ensures member { bit_at self result ≡ 1 }
        ensures none_before { (j : ℕ) → j < result → bit_at self j ≡ 0 }
    {
        self.bits.trailing_zeros()
    }

    /// How many members there are.
    pub fn len(self) -> u64
        ensures members { result ≡ length (members self) }
        ensures few { result ≤ 64 }
    {
        u64::from(self.bits.count_ones())
    }
}

/// A set of numbers below 512, in eight sets of 64 each.
#[derive(Drop)]
pub struct WideSet {
    words: [SmallSet; 8],
}

impl Model for WideSet {
    ghost use Rattle.std.specs.Prelude.{◌≡◌, List, ℕ, length};

    ghost Value = { List ℕ };

    ghost view = { λ s. s.words };

    ghost invariant = { λ s. length s.words ≡ 8 };
}

impl WideSet {
    /// The set without members.
    pub fn empty() -> WideSet
        ensures { (k : ℕ) → has_member result k ≡ false }
    {
        WideSet {
            words: [SmallSet::empty(); 8],
        }
    }

    /// The numbers below a count.
    pub fn first(count: u32) -> WideSet
        requires { count ≤ 512 }
        ensures each { (k : ℕ) → has_member result k ≡ nat_lt k count }
        ensures members { members_of result ≡ upto count }
    {
        let mut set = WideSet::empty();
        for k in 0..count {
            set.insert(k);
        }
        set
    }

    /// Whether a number is a member.
    pub fn has(&self, k: u32) -> bool
        requires { k < 512 }
        ensures { result ≡ has_member self.now k }
    {
        self.words[(k / 64) as usize].has(k % 64)
    }

    /// Adds a number.
    pub fn insert(&mut self, k: u32)
        requires { k < 512 }
        ensures { (j : ℕ) → has_member self.new j ≡ (j == k || has_member self.old j) }
    {
        let word = (k / 64) as usize;
        self.words[word] = self.words[word].with(k % 64);
    }

    /// The members of both.
    pub fn both(&self, other: &WideSet) -> WideSet
        ensures each { IsBoth self.now other.now result }
        ensures members { members_of result
            ≡ filter (has_member other.now) (members_of self.now) }
    {
        let mut words = self.words;
        for w in 0..8 {
            words[w] = words[w].both(other.words[w]);
        }
        WideSet { words }
    }

    /// The least number that is a member of both.
    pub fn first_of_both(&self, other: &WideSet) -> Option<u32>
        ensures { result ≡ slice_get (filter (has_member other.now) (members_of self.now)) 0 }
    {
        for w in 0..8 {
            let word = self.words[w].both(other.words[w]);
            if !word.is_empty() {
                return Some(64 * w as u32 + word.least());
            }
        }
        None
    }
}
