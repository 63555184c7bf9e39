// For each event the machines that read it.
ghost use Rattle.std.specs.Prelude.{◌≡◌, ◌<◌, ◌&&◌, ◌==◌, ℕ, nat_lt, length, IfOk};
ghost use Rattle.std.specs.Int.{bit_at};
ghost use Rattle.transition_table.specs.NetworkFacts.{has};
ghost use Rattle.journals.specs.Journals.{reads};
ghost use Rattle.net_core.specs.Readers.{AreReaders};

use polis_base::{NoMemory, SmallSet};
use std::alloc::Global;
use transition_table::{Machine, Network};

fn is_reader(machine: &Machine, event: u32) -> bool
    ensures { result ≡ has machine.now.inputs event }
{
    machine.inputs.as_slice().contains(&event)
}

// The machines that read an event.
fn readers_of(net: &Network, event: u32) -> SmallSet
    ensures { (k : ℕ) → (bit_at result k == 1)
        ≡ (nat_lt k (length net.now.machines) && reads net.now k event) }
{
    let mut set = SmallSet::empty();
    for m in 0..net.machines.len() {
        set = set.marked(m as u32, is_reader(net.machines.get(m), event));
    }
    set
}

// The machines that read each event.
pub(crate) fn all_readers(alloc: Global, net: &Network) -> Result<Vec<SmallSet>, NoMemory>
    ensures { IfOk result (λ readers. AreReaders net.now readers.items) }
{
    let mut readers = Vec::new(alloc);
    for event in 0..net.events.len() {
        readers.push(readers_of(net, event as u32))?;
    }
    Ok(readers)
}
