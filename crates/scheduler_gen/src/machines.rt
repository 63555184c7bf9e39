// The order in which machines are tried.
ghost use Rattle.std.specs.Prelude.{◌≡◌, ◌<◌, length, slice_get, Some};

use polis_base::{Duplicate, NoMemory};
use std::marker::Model;

/// The numbers of a network's machines, in order of priority and then of number. A smaller priority
/// goes first.
#[derive(Drop)]
pub struct Plan {
    machines: Vec<u32>,
}

impl Model for Plan {
    ghost use Rattle.std.specs.Prelude.{List, ℕ};

    ghost Value = { List ℕ };

    ghost view = { λ p. p.machines.items };
}

impl Plan {
    /// A plan of these machines in their order.
    pub(crate) fn of(machines: Vec<u32>) -> Plan
        ensures { result ≡ machines.items }
    {
        Plan { machines }
    }

    /// How many machines there are.
    pub fn len(&self) -> u64
        ensures { result ≡ length self.now }
    {
        self.machines.len() as u64
    }

    /// The machine at a place of the order.
    pub fn get(&self, i: u64) -> &u32
        requires { i < length self.now }
        ensures { slice_get self.now i ≡ Some result.now }
    {
        &self.machines[i as usize]
    }
}

impl Duplicate for Plan {
    fn copy(&self) -> Result<Plan, NoMemory> {
        Ok(Plan {
            machines: Vec::from_slice(*self.machines.allocator(), &self.machines)?,
        })
    }
}
