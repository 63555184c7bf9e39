// What `cover` shows: what a legal journal used of its network's tables.
ghost use Rattle.std.specs.Prelude.{◌≡◌, IfOk};
ghost use Rattle.journals.specs.Journals.{IsJournal};
ghost use Rattle.commands.specs.JournalProducts.{text_of};
ghost use Rattle.polis_words.specs.declared.requests.command.OnJournal.TheVariants.{Cover};

use net_core::Journal;
use polis_base::{Bytes, NoMemory};
use std::alloc::Global;
use table_use::{coverage, push_coverage};
use transition_table::Network;

/// The lines of each machine.
pub fn print_cover(alloc: Global, net: &Network, j: &Journal) -> Result<Bytes, NoMemory>
    requires { IsJournal net.now j.now }
    ensures { IfOk result (λ text. text ≡ text_of Cover net.now j.now) }
{
    let used = coverage(alloc, net, j)?;
    let mut text = Bytes::new(alloc);
    push_coverage(net, &used, &mut text)?;
    Ok(text)
}
