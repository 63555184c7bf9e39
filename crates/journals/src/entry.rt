// Items of a trace and entries of a journal.
ghost use Rattle.std.specs.Prelude.{◌≡◌};

use polis_base::{Duplicate, List, NoMemory};
use transition_table::{Outcome, Party, Snapshot};

/// An event of the environment with its code, or the wish to wait until no machine can react. A
/// code is 1 + v for a value v of the event, and 1 for a pure event: so it is wherever an event
/// stands with its code.
#[derive(Clone, Copy, Debug, PartialEq, Eq)]
pub enum TraceItem {
    /// The event of this number with its code.
    Event { event: u32, code: u8 },
    /// Wait until no machine can react.
    Settle,
}

impl Duplicate for TraceItem {
    fn copy(&self) -> Result<TraceItem, NoMemory> {
        Ok(*self)
    }
}

/// What the environment does, in order.
pub type Trace = List<TraceItem>;

/// A delivery, or a reaction of a machine. A reaction whose outcome fires is a firing.
#[derive(Drop)]
pub enum Entry {
    /// A delivery of an event from its sender to one of its receivers.
    Dep {
        /// Who sent the event.
        from: Party,
        /// The number of the machine that receives it.
        to: u32,
        /// The number of the event.
        event: u32,
        /// The code of the event.
        code: u8,
    },
    /// A reaction of a machine to a snapshot.
    Rea {
        /// The number of the machine that reacts.
        machine: u32,
        /// Its places and its state before it reacts.
        snapshot: Snapshot,
        /// What its transition makes of them.
        outcome: Outcome,
    },
}

/// What was delivered and how machines reacted, in order. Entries are numbered from 0.
pub type Journal = List<Entry>;

impl Entry {
    ghost use Rattle.journals.specs.Moved.{machine_of, is_dep};

    /// The machine that receives or reacts.
    pub fn machine(&self) -> u32
        ensures { result ≡ machine_of self.now }
    {
        match self {
            Entry::Dep { to, .. } => *to,
            Entry::Rea { machine, .. } => *machine,
        }
    }

    /// Whether it is a delivery.
    pub fn is_delivery(&self) -> bool
        ensures { result ≡ is_dep self.now }
    {
        match self {
            Entry::Dep { .. } => true,
            Entry::Rea { .. } => false,
        }
    }
}

impl Duplicate for Entry {
    fn copy(&self) -> Result<Entry, NoMemory> {
        match self {
            Entry::Dep {
                from,
                to,
                event,
                code,
            } => Ok(Entry::Dep {
                from: *from,
                to: *to,
                event: *event,
                code: *code,
            }),
            Entry::Rea {
                machine,
                snapshot,
                outcome,
            } => Ok(Entry::Rea {
                machine: *machine,
                snapshot: snapshot.copy()?,
                outcome: outcome.copy()?,
            }),
        }
    }
}

/// What the scheduler does next.
#[derive(Clone, Copy, Debug, PartialEq, Eq)]
pub enum Pick {
    /// The delivery of an event from its sender to one of its receivers.
    Deliver {
        /// Who sent the event.
        from: Party,
        /// The number of the machine that receives it.
        to: u32,
        /// The number of the event.
        event: u32,
        /// The code of the event.
        code: u8,
    },
    /// The reaction of a machine.
    React {
        /// The number of the machine.
        machine: u32,
    },
    /// Nothing.
    Stop,
}

/// A delivery that is owed: the event with its code from its sender to one of its receivers.
#[derive(Clone, Copy, Debug, PartialEq, Eq)]
pub struct Owed {
    /// Who sent the event.
    pub from: Party,
    /// The number of the machine that is to receive it.
    pub to: u32,
    /// The number of the event.
    pub event: u32,
    /// The code of the event.
    pub code: u8,
}
