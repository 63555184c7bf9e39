// Entries with their stamps, the logs of machines, and the steps by which logs grow.
ghost use Rattle.std.specs.Prelude.{◌≡◌, ◌<◌, [], ◌∷◌, ◌++◌, length, get_or, set, replicate, IfOk, OnOk, OnErr};

use crate::entry::Entry;
use polis_base::{Duplicate, List, NoMemory};
use std::alloc::Global;
use std::marker::Model;

/// An entry with its stamp.
#[derive(Drop)]
pub struct Stamped {
    /// The stamp. The stamps of one log rise.
    pub stamp: u64,
    /// The entry.
    pub entry: Entry,
}

impl Duplicate for Stamped {
    fn copy(&self) -> Result<Stamped, NoMemory> {
        Ok(Stamped {
            stamp: self.stamp,
            entry: self.entry.copy()?,
        })
    }
}

/// A stamp for each entry of a journal.
pub type Stamps = List<u64>;

/// The entries of one machine, in order.
pub type Log = List<Stamped>;

/// A log for each machine.
#[derive(Drop)]
pub struct LogList {
    items: Vec<Log>,
}

impl Model for LogList {
    ghost use Rattle.std.specs.Prelude.{List};
    ghost use Rattle.journals.specs.declared.stamped.Stamped.{Stamped};

    ghost Value = { List (List Stamped) };

    ghost view = { λ l. l.items.items };
}

impl LogList {
    /// Empty logs.
    pub fn new(alloc: Global, machines: u64) -> Result<LogList, NoMemory>
        ensures { IfOk result (λ logs. logs ≡ replicate machines []) }
    {
        let mut items = Vec::new(alloc);
        for _ in 0..machines {
            items.push(List::new(alloc))?;
        }
        Ok(LogList { items })
    }

    /// How many logs there are.
    pub fn len(&self) -> u64
        ensures { result ≡ length self.now }
    {
        self.items.len() as u64
    }

    /// The logs as a slice.
    pub fn as_slice(&self) -> &[Log]
        ensures { result.now ≡ self.now }
    {
        &self.items
    }

    /// The logs as a vector.
    pub fn into_vec(self) -> Vec<Log>
        ensures { result.items ≡ self }
    {
        self.items
    }

    /// The log of a machine.
    pub fn get(&self, m: u32) -> &Log
        requires { m < length self.now }
        ensures { result.now ≡ get_or self.now m [] }
    {
        &self.items[m as usize]
    }

    /// Puts a log after the others.
    pub fn push(&mut self, log: Log) -> Result<(), NoMemory>
        ensures ok { OnOk result (self.new ≡ self.old ++ log ∷ []) }
        ensures err { OnErr result (self.new ≡ self.old) }
    {
        self.items.push(log)?;
        Ok(())
    }

    /// Puts an entry at the end of a log.
    pub fn push_at(&mut self, m: u32, x: Stamped) -> Result<(), NoMemory>
        requires { m < length self.old }
        ensures ok { OnOk result (self.new ≡ set self.old m (get_or self.old m [] ++ x ∷ [])) }
        ensures err { OnErr result (self.new ≡ self.old) }
    {
        self.items[m as usize].push(x)
    }
}

impl Duplicate for LogList {
    fn copy(&self) -> Result<LogList, NoMemory> {
        let mut items = Vec::with_capacity(*self.items.allocator(), self.items.len())?;
        for log in &self.items {
            items.push(log.copy()?)?;
        }
        Ok(LogList { items })
    }
}

/// A step of the core.
#[derive(Clone, Copy, Debug, PartialEq, Eq)]
pub enum CoreStep {
    /// A machine reacts.
    React {
        /// The number of the machine.
        machine: u32,
    },
    /// The first delivery in a machine's hand lands in its receiver's log.
    Land {
        /// The number of the machine.
        machine: u32,
    },
    /// A machine whose hand is empty is no longer busy.
    Free {
        /// The number of the machine.
        machine: u32,
    },
    /// The next delivery of the environment lands in its receiver's log.
    Feed,
}
