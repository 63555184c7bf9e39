// What `losses` shows: what became of the deliveries of a legal journal.
ghost use Rattle.std.specs.Prelude.{◌≡◌, IfOk};
ghost use Rattle.journals.specs.Journals.{IsJournal};
ghost use Rattle.commands.specs.JournalProducts.{text_of};
ghost use Rattle.polis_words.specs.declared.requests.command.OnJournal.TheVariants.{Losses};

use event_accounts::{accounts, push_accounts};
use net_core::Journal;
use polis_base::{Bytes, NoMemory};
use std::alloc::Global;
use transition_table::Network;

/// A line for each buffer.
pub fn print_losses(alloc: Global, net: &Network, j: &Journal) -> Result<Bytes, NoMemory>
    requires { IsJournal net.now j.now }
    ensures { IfOk result (λ text. text ≡ text_of Losses net.now j.now) }
{
    let list = accounts(alloc, net, j)?;
    let mut text = Bytes::new(alloc);
    push_accounts(net, &list, &mut text)?;
    Ok(text)
}
