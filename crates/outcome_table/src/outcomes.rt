// Outcomes under their numbers.
ghost use Rattle.std.specs.Prelude.{◌≡◌, ◌<◌, true, [], length, take, get_or, IfOk, IsTrue};
ghost use Rattle.transition_table.specs.MachineFacts.{is_row};
ghost use Rattle.transition_table.specs.Orders.{codes_of};
ghost use Rattle.transition_table.specs.Transitions.{IsSnapshot, outcome_of};

use crate::row::{row_codes, row_key};
use domains::Codes;
use polis_base::index::{Index, empty_index, enter, find};
use polis_base::{List, NoMemory};
use std::alloc::Global;
use std::marker::Model;
use transition_table::{Machine, Row, Snapshot};

/// Outcomes under their numbers. One that equals an outcome that was added before gets its number.
#[derive(Drop)]
pub(crate) struct Outcomes {
    alloc: Global,
    list: List<Codes>,
    known: Index,
    // the key that was looked for last
    key: Vec<u64>,
}

impl Model for Outcomes {
    ghost use Rattle.std.specs.Prelude.{List, ℕ};
    ghost use Rattle.outcome_table.specs.Known.{AreKnown};

    ghost Value = { List (List ℕ) };

    ghost view = { λ o. o.list };

    ghost invariant = { λ o. AreKnown o.list o.known };
}

impl Outcomes {
    /// These outcomes, each under the number of its place.
    pub(crate) fn of(alloc: Global, list: List<Codes>) -> Outcomes
        ensures { result ≡ list }
    {
        Outcomes {
            alloc,
            list,
            known: empty_index(alloc),
            key: Vec::new(alloc),
        }
    }

    /// The outcomes in the order of their numbers.
    pub(crate) fn into_list(self) -> List<Codes>
        ensures { result ≡ self }
    {
        self.list
    }

    /// The number of the outcome of a row on a snapshot that enables it: that of an equal one that
    /// was added before, or the next.
    #[inline(never)]
    pub(crate) fn add(
        &mut self,
        machine: &Machine,
        row: &Row,
        s: &Snapshot,
    ) -> Result<u64, NoMemory>
        requires row { IsTrue
            (is_row machine.now.inputs machine.now.vars machine.now.results row.now) }
        requires snapshot { IsSnapshot machine.now s.now }
        ensures kept { IfOk result (λ k. take (length self.old) self.new ≡ self.old) }
        ensures low { IfOk result (λ k. k < length self.new) }
        ensures is { IfOk result (λ k. get_or self.new k []
            ≡ codes_of (outcome_of machine.now s.now.codes true row.now.acts)) }
    {
        row_key(machine, row, s, &mut self.key)?;
        if let Some(number) = find(&self.known, &self.key) {
            return Ok(number);
        }
        let key = Vec::from_slice(self.alloc, &self.key)?;
        let number = self.list.len();
        self.list.push(row_codes(self.alloc, machine, row, s)?)?;
        enter(&mut self.known, key, number)?;
        Ok(number)
    }
}
