// What is done with two values.
ghost use Rattle.std.specs.Prelude.{◌≡◌, true, false, not};
ghost use Rattle.decision_diagram.specs.Constants.{constant_node};

use crate::node::NodeId;

/// What is done with two values.
#[derive(Clone, Copy)]
pub(crate) enum Operation {
    And,
    Or,
}

impl Operation {
    ghost use Rattle.decision_diagram.specs.Operations.{combine};

    // The node that decides the result alone.
    pub(crate) fn absorbing(self) -> NodeId
        ensures { result ≡ constant_node (combine self true false) }
    {
        NodeId::constant(matches!(self, Operation::Or))
    }

    // The node that leaves the other one's value as it is.
    pub(crate) fn neutral(self) -> NodeId
        ensures { result ≡ constant_node (not (combine self true false)) }
    {
        NodeId::constant(matches!(self, Operation::And))
    }
}
