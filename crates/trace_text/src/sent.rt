// The events that the environment sends, by their names.
ghost use Rattle.std.specs.Prelude.{◌≡◌, ◌<◌, ℕ, List, None, false, length, IfOk, IfSome, IsTrue};
ghost use Rattle.polis_base.specs.Names.{is_name};
ghost use Rattle.net_names.specs.Tables.{number_at};
ghost use Rattle.transition_table.specs.declared.decl.Party.TheVariants.{Env};
ghost use Rattle.journals.specs.Journals.{same_party};
ghost use Rattle.trace_text.specs.Traces.{is_sent_event, env_event};

use net_names::Table;
use polis_base::{Name, NoMemory};
use std::alloc::Global;
use transition_table::{EventDecl, Network, Party};

/// A network with the numbers of the events that the environment sends, so that a name isn't
/// compared with each declared one.
#[derive(Drop)]
pub struct Sent<'n> {
    /// The network.
    pub net: &'n Network,
    events: Table,
    pub ghost numbers: { (word : List ℕ) → number_at events word ≡ env_event net.now word },
    pub ghost tokens: { (word : List ℕ) → is_name word ≡ false → env_event net.now word ≡ None },
}

fn is_from_env(event: &EventDecl) -> bool
    ensures { result ≡ same_party event.now.sender Env }
{
    matches!(event.sender, Party::Env)
}

// Each event has a name token as its name, so none has another word.
fn keep_tokens(net: &Network)
    ensures { (word : List ℕ) → is_name word ≡ false → env_event net.now word ≡ None }
{
    for e in 0..net.events.len() {
        let _token = net.events.get(e).name.bytes();
    }
}

fn number_events(alloc: Global, net: &Network) -> Result<Table, NoMemory>
    ensures { IfOk result (λ table. (word : List ℕ)
        → number_at table word ≡ env_event net.now word) }
{
    let mut table = Table::new(alloc);
    for e in 0..net.events.len() {
        let event = net.events.get(e);
        if is_from_env(event) {
            table.note(event.name, e)?;
        }
    }
    Ok(table)
}

impl<'n> Sent<'n> {
    /// The events of a network that the environment sends.
    pub fn new(alloc: Global, net: &'n Network) -> Result<Sent<'n>, NoMemory>
        ensures { IfOk result (λ sent. sent.net.now ≡ net.now) }
    {
        keep_tokens(net);
        let events = number_events(alloc, net)?;
        Ok(Sent { net, events })
    }

    /// The number of the event of this name.
    pub fn event(&self, word: &[u8]) -> Option<u32>
        ensures event { result ≡ env_event self.now.net.now word.now }
        ensures below { IfSome result (λ e. e < length self.now.net.now.events) }
        ensures sent { IfSome result (λ e.
            IsTrue (is_sent_event self.now.net.now word.now e)) }
    {
        let name = Name::new(word)?;
        let e = self.events.number(name)?;
        Some(e as u32)
    }
}
