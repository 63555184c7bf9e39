// The command `watch`: what a monitor says of the outputs of a legal journal.
ghost use Rattle.std.specs.Prelude.{◌≡◌, IfOk, IfErr};
ghost use Rattle.journals.specs.Journals.{IsJournal};
ghost use Rattle.transition_table.specs.Transitions.{AreDeterministic};
ghost use Rattle.run_watch.specs.Monitors.{IsMonitor};
ghost use Rattle.run_watch.specs.WatchLines.{IsShown, watched_line};
ghost use Rattle.input_files.specs.Failures.{FileFails};
ghost use Rattle.input_files.specs.Loads.{LeftByLoads, fails_unread};
ghost use Rattle.commands.specs.Monitors.{MonitorFails};
ghost use Rattle.commands.specs.Watch.{end_watched, watch_meaning};
ghost use Rattle.commands.specs.Made.{IsMade};
ghost use Rattle.commands.specs.inner.Watch.{IsWatchProduct, IsWatchedByFile};

use crate::judging::judge_journal;
use crate::monitor_file::load_monitor;
use input_files::Detail;
use net_core::Journal;
use output_files::{End, Product};
use polis_base::{Bytes, Host, NoMemory};
use polis_words::{Failure, Watch};
use run_watch::{Watched, push_watched, watch};
use std::alloc::Global;
use transition_table::{Network, TableReactor};

// How a call ends with what a monitor says.
fn end_at(said: &Watched) -> End
    ensures { result ≡ end_watched said.now }
{
    match said {
        Watched::Held => End::Done,
        Watched::Unfinished => End::Limit,
        Watched::Found(_) => End::Found,
    }
}

// The line of what a monitor says.
fn print_watched(alloc: Global, monitor: &Network, said: &Watched) -> Result<Bytes, NoMemory>
    requires { IsShown monitor.now said.now }
    ensures { IfOk result (λ text. text ≡ watched_line monitor.now said.now) }
{
    let mut text = Bytes::new(alloc);
    push_watched(monitor, said, &mut text)?;
    Ok(text)
}

// The product of what the monitor says of the journal. Its reactions are made by reading the rows.
fn product_of(
    alloc: Global,
    net: &Network,
    journal: &Journal,
    monitor: &Network,
) -> Result<Product, NoMemory>
    requires fits { IsJournal net.now journal.now }
    requires deterministic { AreDeterministic monitor.now }
    requires monitor { IsMonitor net.now monitor.now }
    ensures { IfOk result (IsWatchProduct net.now monitor.now journal.now) }
{
    let reactor = TableReactor::new(monitor);
    let said = watch(alloc, net, &reactor, journal)?;
    let shown = print_watched(alloc, monitor, &said)?;
    Ok(Product::ending(alloc, shown, end_at(&said)))
}

// Loads the monitor, and makes the product of what it says of the journal.
fn watch_by_file<'a, H: Host>(
    alloc: Global,
    host: &mut H,
    net: &Network,
    journal: &Journal,
    name: &'a str,
) -> Result<Product, Failure<'a>>
    requires { IsJournal net.now journal.now }
    ensures made { IfOk result
        (IsWatchedByFile (H.files host.old) name.now net.now journal.now) }
    ensures failed { IfErr result (λ failure.
        FileFails name.now (H.files host.old) (λ files. MonitorFails files net.now name.now)
        failure) }
    ensures left { LeftByLoads ⟦<H as Host>⟧ (fails_unread result) host.old host.new }
{
    let monitor = match load_monitor(alloc, host, net, name) {
        Ok(monitor) => monitor,
        Err(failure) => return Err(failure),
    };
    match product_of(alloc, net, journal, &monitor) {
        Ok(product) => Ok(product),
        Err(NoMemory) => Err(Failure::NoMemory),
    }
}

/// What watching a journal makes of the files. The monitor is loaded only where the journal is
/// legal.
pub fn make_watch<'a, H: Host>(
    alloc: Global,
    host: &mut H,
    asked: &'a Watch<'_>,
) -> Result<Product, Failure<'a>>
    ensures made { IsMade (watch_meaning asked.now) (H.files host.old) result }
    ensures left { LeftByLoads ⟦<H as Host>⟧ (fails_unread result) host.old host.new }
{
    let judged = match judge_journal(alloc, host, asked.replay(), Detail::Cause) {
        Ok(judged) => judged,
        Err(failure) => return Err(failure),
    };
    match watch_by_file(
        alloc,
        host,
        &judged.inputs.net,
        &judged.read.journal,
        asked.monitor(),
    ) {
        Ok(product) => Ok(product),
        Err(failure) => Err(failure),
    }
}
