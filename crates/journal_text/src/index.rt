// The machines and events of a network by their names.
ghost use Rattle.std.specs.Prelude.{◌≡◌, ◌<◌, ℕ, List, length, IfOk, IfSome, IsTrue};
ghost use Rattle.net_names.specs.Tables.{number_at};
ghost use Rattle.journal_text.specs.Items.{machine_named, event_named};
ghost use Rattle.journal_text.specs.Holding.{names_hold};

use crate::kept::keep_names;
use net_names::Table;
use polis_base::{Name, NoMemory};
use std::alloc::Global;
use transition_table::Network;

/// A network with the numbers of its machines and of its events, so that a name isn't compared with
/// each declared one.
#[derive(Drop)]
pub struct Index<'n> {
    /// The network.
    pub net: &'n Network,
    machines: Table,
    events: Table,
    pub ghost names: { IsTrue (names_hold net.now) },
    pub ghost machine_numbers: { (word : List ℕ) → number_at machines word ≡ machine_named net.now word },
    pub ghost event_numbers: { (word : List ℕ) → number_at events word ≡ event_named net.now word },
}

fn number_machines(alloc: Global, net: &Network) -> Result<Table, NoMemory>
    ensures { IfOk result (λ table. (word : List ℕ)
        → number_at table word ≡ machine_named net.now word) }
{
    let mut table = Table::new(alloc);
    for m in 0..net.machines.len() {
        table.note(net.machines.get(m).name, m)?;
    }
    Ok(table)
}

fn number_events(alloc: Global, net: &Network) -> Result<Table, NoMemory>
    ensures { IfOk result (λ table. (word : List ℕ)
        → number_at table word ≡ event_named net.now word) }
{
    let mut table = Table::new(alloc);
    for e in 0..net.events.len() {
        table.note(net.events.get(e).name, e)?;
    }
    Ok(table)
}

impl<'n> Index<'n> {
    /// The index of a network.
    pub fn new(alloc: Global, net: &'n Network) -> Result<Index<'n>, NoMemory>
        ensures { IfOk result (λ index. index.net.now ≡ net.now) }
    {
        keep_names(net);
        let machines = number_machines(alloc, net)?;
        let events = number_events(alloc, net)?;
        Ok(Index {
            net,
            machines,
            events,
        })
    }

    /// The number of the machine of this name.
    pub fn machine(&self, word: &[u8]) -> Option<u32>
        ensures machine { result ≡ machine_named self.now.net.now word.now }
        ensures below { IfSome result (λ m. m < length self.now.net.now.machines) }
    {
        let name = Name::new(word)?;
        match self.machines.number(name) {
            Some(m) => Some(m as u32),
            None => None,
        }
    }

    /// The number of the event of this name.
    pub fn event(&self, word: &[u8]) -> Option<u32>
        ensures event { result ≡ event_named self.now.net.now word.now }
        ensures below { IfSome result (λ e. e < length self.now.net.now.events) }
    {
        let name = Name::new(word)?;
        match self.events.number(name) {
            Some(e) => Some(e as u32),
            None => None,
        }
    }
}
