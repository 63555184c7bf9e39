// How far a journal is legal whose reactions are right.
ghost use Rattle.std.specs.Prelude.{◌≡◌, ℕ, [], take, IfOk};
ghost use Rattle.journals.specs.Alone.{IsAlone};
ghost use Rattle.net_core.specs.Prefixes.{IsAdopted};
ghost use Rattle.net_core.specs.Tables.{AreTables};

use crate::config::tables::Tables;
use journals::{Journal, Trace, laws};
use polis_base::{List, NoMemory};
use transition_table::Network;

// Takes the first entries of a journal, at most so many, as long as they may follow, and answers
// how many. Each machine's entries are legal by themselves, so only deliveries are judged.
pub(crate) fn take_adopted(
    tables: &mut Tables,
    net: &Network,
    trace: &Trace,
    j: &Journal,
    limit: u64,
) -> Result<u64, NoMemory>
    requires start { AreTables net.now trace.now [] tables.old.readers.items
        tables.old.moments.items tables.old.woken tables.old.cursors tables.old.owed }
    requires alone { (m : ℕ) → IsAlone net.now m j.now }
    ensures current { IfOk result (λ k. AreTables net.now trace.now (take k j.now)
        tables.new.readers.items tables.new.moments.items tables.new.woken tables.new.cursors
        tables.new.owed) }
    ensures adopted { IfOk result (λ k. IsAdopted net.now trace.now j.now limit (take k j.now)) }
{
    laws();
    for i in 0..j.len() {
        if i == limit {
            return Ok(limit);
        }
        let entry = j.get(i);
        match tables.against_delivery(net, trace, entry) {
            Some(_) => return Ok(i),
            None => tables.take_next(net, trace, entry)?,
        }
    }
    Ok(j.len())
}

// The first entries of a journal, so many. The others are dropped.
pub(crate) fn first_entries(journal: Journal, count: u64) -> Journal
    ensures { result ≡ take count journal }
{
    let mut entries = journal.into_vec();
    entries.truncate(count as usize);
    List::of(entries)
}
