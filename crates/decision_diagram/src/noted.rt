// Nodes by what they are made of, noted for the next look-up.
ghost use Rattle.std.specs.Prelude.{◌≡◌, ◌<◌, IfOk};

use crate::node::NodeId;
use polis_base::NoMemory;
use std::alloc::Global;
use std::marker::Model;

// How many nodes can be noted.
const SLOTS: usize = 4096;

// An odd number by which a product's high bits depend on all bits of a number.
const SPREAD: u64 = 0x9e37_79b9_7f4a_7c15;

/// The number of a node for each of a few slots, 0 where none was noted. Whoever reads it has to
/// see whether the node is the one looked for.
#[derive(Drop)]
pub(crate) struct Noted {
    numbers: Vec<u64>,
}

impl Model for Noted {
    ghost use Rattle.std.specs.Prelude.{List, ℕ, length, ◌≡◌};

    ghost Value = { List ℕ };

    ghost view = { λ n. n.numbers.items };

    ghost invariant = { λ n. length n.numbers.items ≡ 4096 };
}

/// The slot of a variable and children.
pub(crate) fn slot_of(var: u32, kids: &[NodeId]) -> usize
    ensures { result < 4096 }
{
    let mut mixed = u64::from(var);
    for kid in kids {
        mixed = (mixed ^ kid.number()).wrapping_mul(SPREAD);
    }
    (mixed >> 40) as usize % SLOTS
}

impl Noted {
    /// No node is noted.
    pub(crate) fn new(alloc: Global) -> Result<Noted, NoMemory> {
        Ok(Noted {
            numbers: vec![in alloc; 0; SLOTS]?,
        })
    }

    /// The number in a slot.
    pub(crate) fn get(&self, slot: usize) -> u64
        requires { slot < 4096 }
    {
        self.numbers[slot]
    }

    /// Notes a node.
    pub(crate) fn set(&mut self, slot: usize, n: NodeId)
        requires { slot < 4096 }
    {
        self.numbers[slot] = n.number();
    }
}
