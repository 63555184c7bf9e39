// Why a machine isn't said to be deterministic.
ghost use Rattle.std.specs.Prelude.{◌≡◌};

use polis_base::NoMemory;
use transition_table::Snapshot;

/// Why a machine isn't said to be deterministic.
#[derive(Drop)]
pub enum CheckFault {
    /// Two rows that are enabled on one snapshot and whose results differ, by their numbers, the
    /// smaller first. Of all such pairs it is the least by the first row and then by the second,
    /// with the least snapshot of that pair.
    Conflict {
        row_a: u32,
        row_b: u32,
        snapshot: Snapshot,
    },
    /// Out of memory.
    NoMemory,
}

impl From<NoMemory> for CheckFault {
    ghost use Rattle.determinism.specs.declared.fault.CheckFault.{CheckFault};

    ghost from_gives = { λ _ fault. fault ≡ CheckFault.NoMemory };

    fn from(_: NoMemory) -> CheckFault {
        CheckFault::NoMemory
    }
}
