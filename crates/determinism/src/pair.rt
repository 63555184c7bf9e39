// Two rows of a machine.
ghost use Rattle.determinism.specs.inner.Boxes.{IsRowOf, IsBox, AreSome};

use transition_table::{CodeSets, Machine, Row};

/// Two rows of a machine, and of each variable the codes that both allow, of which there are some.
#[derive(Clone, Copy)]
pub(crate) struct Pair<'a> {
    pub(crate) machine: &'a Machine,
    pub(crate) first: &'a Row,
    pub(crate) second: &'a Row,
    pub(crate) sets: &'a CodeSets,
    pub ghost first_row: { IsRowOf machine.now first.now },
    pub ghost second_row: { IsRowOf machine.now second.now },
    pub ghost area: { IsBox machine.now first.now second.now sets.now },
    pub ghost some: { AreSome sets.now },
}
