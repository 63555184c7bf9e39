// Nodes of a diagram.
use polis_base::{Duplicate, NoMemory};
use std::marker::Model;

/// A node of a store, by its number: 0 is the node that is false, 1 is the one that is true, and
/// the inner nodes follow in the order in which they were made.
#[derive(Clone, Copy, PartialEq, Eq)]
pub struct NodeId {
    number: u64,
}

impl Model for NodeId {
    ghost use Rattle.std.specs.Prelude.{ℕ};

    ghost Value = { ℕ };

    ghost view = { λ n. n.number };

    ghost inverse = { λ k. record { number = k } };
}

impl NodeId {
    ghost use Rattle.std.specs.Prelude.{◌≡◌};
    ghost use Rattle.decision_diagram.specs.Constants.{constant_node};

    // The node that is the same on all codes.
    pub(crate) fn constant(value: bool) -> NodeId
        ensures { result ≡ constant_node value }
    {
        NodeId {
            number: u64::from(value),
        }
    }

    // The node with a number.
    pub(crate) fn new(number: u64) -> NodeId
        ensures { result ≡ number }
    {
        NodeId { number }
    }

    /// The node's number. A caller that visits each node once can keep marks by it.
    pub fn number(self) -> u64
        ensures { result ≡ self }
    {
        self.number
    }
}

impl Duplicate for NodeId {
    fn copy(&self) -> Result<NodeId, NoMemory> {
        Ok(*self)
    }
}

/// An inner node: a variable, and one child for each of its codes. It lends the key that the store
/// keeps of it.
#[derive(Drop)]
pub(crate) struct Node<'a> {
    key: &'a [u64],
}

impl<'a> Model for Node<'a> {
    ghost use Rattle.decision_diagram.specs.Diagrams.{Node as VarAndKids};
    ghost use Rattle.decision_diagram.specs.Keys.{node_of, IsKey};

    ghost Value = { VarAndKids };

    ghost view = { λ n. node_of n.key.now };

    ghost invariant = { λ n. IsKey n.key.now };
}

impl<'a> Node<'a> {
    ghost use Rattle.std.specs.Prelude.{◌≡◌};
    ghost use Rattle.decision_diagram.specs.Keys.{node_of, IsKey};

    // The node of a key.
    pub(crate) fn new(key: &'a [u64]) -> Node<'a>
        requires { IsKey key.now }
        ensures { result ≡ node_of key.now }
    {
        Node { key }
    }

    pub(crate) fn var(&self) -> u32
        ensures { result ≡ self.now.var }
    {
        self.key[0] as u32
    }

    // The numbers of the children.
    pub(crate) fn kids(&self) -> &'a [u64]
        ensures { result.now ≡ self.now.kids }
    {
        &self.key[1..]
    }
}

/// What kind of node a node is.
#[derive(Clone, Copy)]
pub enum Shape {
    /// It is false on all codes.
    False,
    /// It is true on all codes.
    True,
    /// It has one child for each code of a variable.
    Inner { var: u32 },
}
