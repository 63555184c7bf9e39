// The command `chart`: a legal journal as a chart of messages.
ghost use Rattle.std.specs.Prelude.{◌≡◌, IfOk};
ghost use Rattle.journals.specs.Journals.{IsJournal};
ghost use Rattle.journal_chart.specs.Chart.{chart_text};
ghost use Rattle.transition_table.specs.Transitions.{AreDeterministic};
ghost use Rattle.input_files.specs.Loads.{LeftByLoads, fails_unread};
ghost use Rattle.commands.specs.JournalProducts.{chart_meaning};
ghost use Rattle.commands.specs.Made.{IsMade};

use crate::judging::judge_journal;
use input_files::Detail;
use journal_chart::push_chart;
use net_core::Journal;
use output_files::Product;
use polis_base::{Bytes, Host, NoMemory};
use polis_words::{Chart, Failure};
use std::alloc::Global;
use transition_table::Network;

// The chart of the entries from one place up to another.
fn print_chart(
    alloc: Global,
    net: &Network,
    j: &Journal,
    from: u64,
    to: u64,
) -> Result<Bytes, NoMemory>
    requires fits { IsJournal net.now j.now }
    requires deterministic { AreDeterministic net.now }
    ensures { IfOk result (λ text. text ≡ chart_text net.now j.now from to) }
{
    let mut text = Bytes::new(alloc);
    push_chart(alloc, net, j, from, to, &mut text)?;
    Ok(text)
}

/// What showing a journal as a chart makes of the files.
pub fn make_chart<'a, H: Host>(
    alloc: Global,
    host: &mut H,
    asked: &'a Chart<'_>,
) -> Result<Product, Failure<'a>>
    ensures made { IsMade (chart_meaning asked.now) (H.files host.old) result }
    ensures left { LeftByLoads ⟦<H as Host>⟧ (fails_unread result) host.old host.new }
{
    let judged = match judge_journal(alloc, host, asked.replay(), Detail::Cause) {
        Ok(judged) => judged,
        Err(failure) => return Err(failure),
    };
    match print_chart(
        alloc,
        &judged.inputs.net,
        &judged.read.journal,
        asked.from(),
        asked.to(),
    ) {
        Ok(shown) => Ok(Product::showing(alloc, shown)),
        Err(NoMemory) => Err(Failure::NoMemory),
    }
}
