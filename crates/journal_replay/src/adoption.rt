// Adopting what is legal of a journal whose reactions are right.
ghost use Rattle.std.specs.Prelude.{◌≡◌, ℕ, IfOk};
ghost use Rattle.journals.specs.Alone.{IsAlone};
ghost use Rattle.journals.specs.Journals.{IsTrace};
ghost use Rattle.net_core.specs.Prefixes.{IsAdopted};

use net_core::{Config, Journal, Trace};
use polis_base::NoMemory;
use std::alloc::Global;
use transition_table::Network;

/// The longest legal prefix of a journal that has at most so many entries. Each machine's entries
/// are legal by themselves, so no reaction is made: only the deliveries are judged.
/// None of the entries is copied.
pub fn adopt(
    alloc: Global,
    net: &Network,
    trace: &Trace,
    j: Journal,
    limit: u64,
) -> Result<Journal, NoMemory>
    requires trace { IsTrace net.now trace.now }
    requires alone { (m : ℕ) → IsAlone net.now m j }
    ensures { IfOk result (λ adopted. IsAdopted net.now trace.now j limit adopted) }
{
    let config = Config::resume_prefix(alloc, net, trace, j, limit)?;
    Ok(config.into_journal())
}
