// What stays while rows are narrowed.
ghost use Rattle.outcome_table.specs.inner.Needs.{AreEnds};
ghost use Rattle.outcome_table.specs.inner.Numbering.{AreCounts};
ghost use Rattle.outcome_table.specs.inner.RowSets.{AreAllowed};
ghost use Rattle.outcome_table.specs.inner.Tails.{AreTails};

use crate::tail::Tails;
use polis_base::{List, WideSet};
use transition_table::Machine;

/// A machine, and what its rows are narrowed by.
#[derive(Clone, Copy)]
pub(crate) struct Narrowing<'a> {
    pub(crate) machine: &'a Machine,
    /// For each variable and code the rows that allow the code.
    pub(crate) allowed: &'a List<List<WideSet>>,
    /// For each row whether its outcome is the same on all snapshots.
    pub(crate) fixed: &'a List<bool>,
    /// For each row how many variables from the first on it needs.
    pub(crate) ends: &'a List<u64>,
    /// For each variable how many lists of codes there are of those from it on.
    pub(crate) counts: &'a List<u64>,
    /// The rows that allow the codes of the last variables.
    pub(crate) tails: &'a Tails,
    pub ghost are_allowed: { AreAllowed machine.now allowed.now },
    pub ghost are_ends: { AreEnds machine.now ends.now },
    pub ghost are_counts: { AreCounts machine.now.vars counts.now },
    pub ghost are_tails: { AreTails machine.now fixed.now tails.now },
}
