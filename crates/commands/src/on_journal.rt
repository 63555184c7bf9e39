// The commands that show what is to be said of a legal journal.
ghost use Rattle.std.specs.Prelude.{◌≡◌, IfOk};
ghost use Rattle.journals.specs.Journals.{IsJournal};
ghost use Rattle.commands.specs.JournalProducts.{on_journal_meaning, text_of};
ghost use Rattle.input_files.specs.Loads.{LeftByLoads, fails_unread};
ghost use Rattle.commands.specs.Made.{IsMade};

use crate::cover::print_cover;
use crate::judging::judge_journal;
use crate::losses::print_losses;
use input_files::Detail;
use net_core::Journal;
use output_files::Product;
use polis_base::{Bytes, Host, NoMemory};
use polis_words::{Failure, OnJournal, Replay};
use std::alloc::Global;
use transition_table::Network;

// What a command shows of a journal.
fn print_of(alloc: Global, kind: OnJournal, net: &Network, j: &Journal) -> Result<Bytes, NoMemory>
    requires { IsJournal net.now j.now }
    ensures { IfOk result (λ text. text ≡ text_of kind net.now j.now) }
{
    match kind {
        OnJournal::Losses => print_losses(alloc, net, j),
        OnJournal::Cover => print_cover(alloc, net, j),
    }
}

/// What a command that shows what is said of a journal makes of the files.
pub fn make_on_journal<'a, H: Host>(
    alloc: Global,
    host: &mut H,
    kind: OnJournal,
    asked: &'a Replay<'_>,
) -> Result<Product, Failure<'a>>
    ensures made { IsMade (on_journal_meaning kind asked.now) (H.files host.old) result }
    ensures left { LeftByLoads ⟦<H as Host>⟧ (fails_unread result) host.old host.new }
{
    let judged = match judge_journal(alloc, host, asked, Detail::Cause) {
        Ok(judged) => judged,
        Err(failure) => return Err(failure),
    };
    match print_of(alloc, kind, &judged.inputs.net, &judged.read.journal) {
        Ok(shown) => Ok(Product::showing(alloc, shown)),
        Err(NoMemory) => Err(Failure::NoMemory),
    }
}
