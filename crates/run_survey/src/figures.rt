// What a survey looks at in one run.
ghost use Rattle.std.specs.Prelude.{◌≡◌, ◌++◌, map, flat_map, IfOk, OnOk};
ghost use Rattle.journals.specs.Journals.{IsJournal};
ghost use Rattle.event_accounts.specs.Accounts.{accounts_of};
ghost use Rattle.event_accounts.specs.declared.account.Account.{Account};
ghost use Rattle.table_use.specs.Coverage.{AreTablesOf};
ghost use Rattle.table_use.specs.Memos.{AreMemos};
ghost use Rattle.table_use.specs.declared.used.MachineUse.{MachineUse};
ghost use Rattle.run_survey.specs.Figures.{figures_of, taken_counts, unused_counts};

use event_accounts::accounts;
use journal_text::print_outputs;
use net_core::Journal;
use polis_base::{Bytes, List, NoMemory};
use run_watch::Watched;
use std::alloc::Global;
use table_use::{CoverageList, MachineUse, Memos, Tables, coverage_with};
use transition_table::Network;

/// The figures of one run.
#[derive(Drop)]
pub struct Figures {
    /// Whether it is complete.
    pub complete: bool,
    /// Its outputs, as a text.
    pub outputs: Bytes,
    /// How many deliveries each input lost, by machine and then by input.
    pub lost: List<u64>,
    /// On how many firings each input was unused, likewise.
    pub unused: List<u64>,
    /// How many reactions of each machine were jammed.
    pub jammed: List<u64>,
    /// How many firings took each row, by machine and then by row.
    pub taken: List<u64>,
    /// What the monitor says of it, where one is given.
    pub watched: Option<Watched>,
}

// What each input lost.
fn lost_in(alloc: Global, net: &Network, journal: &Journal) -> Result<List<u64>, NoMemory>
    requires { IsJournal net.now journal.now }
    ensures { IfOk result (λ numbers. numbers
        ≡ map (λ (account : Account). account.lost) (accounts_of net.now journal.now)) }
{
    let all = accounts(alloc, net, journal)?;
    let mut numbers = List::with_room(alloc, all.len())?;
    for account in all.as_slice() {
        numbers.push(account.lost)?;
    }
    Ok(numbers)
}

// Appends on how many firings each input of a machine was unused.
fn push_unused(used: &MachineUse, into: &mut List<u64>) -> Result<(), NoMemory>
    ensures { OnOk result (into.new ≡ into.old ++ unused_counts used.now) }
{
    for input in used.inputs.as_slice() {
        into.push(input.unused.count)?;
    }
    Ok(())
}

// On how many firings each input was unused.
fn unused_in(alloc: Global, used: &CoverageList) -> Result<List<u64>, NoMemory>
    ensures { IfOk result (λ numbers. numbers ≡ flat_map unused_counts used.now) }
{
    let mut numbers = List::new(alloc);
    for machine in used.as_slice() {
        push_unused(machine, &mut numbers)?;
    }
    Ok(numbers)
}

// How many reactions of each machine were jammed.
fn jammed_in(alloc: Global, used: &CoverageList) -> Result<List<u64>, NoMemory>
    ensures { IfOk result (λ numbers. numbers
        ≡ map (λ (used : MachineUse). used.jammed.count) used.now) }
{
    let mut numbers = List::with_room(alloc, used.len())?;
    for machine in used.as_slice() {
        numbers.push(machine.jammed.count)?;
    }
    Ok(numbers)
}

// Appends by how many firings each row of a machine was taken.
fn push_taken(used: &MachineUse, into: &mut List<u64>) -> Result<(), NoMemory>
    ensures { OnOk result (into.new ≡ into.old ++ taken_counts used.now) }
{
    for row in used.rows.as_slice() {
        into.push(row.count)?;
    }
    Ok(())
}

// By how many firings each row was taken.
fn taken_in(alloc: Global, used: &CoverageList) -> Result<List<u64>, NoMemory>
    ensures { IfOk result (λ numbers. numbers ≡ flat_map taken_counts used.now) }
{
    let mut numbers = List::new(alloc);
    for machine in used.as_slice() {
        push_taken(machine, &mut numbers)?;
    }
    Ok(numbers)
}

/// The figures of a journal, by the tables of its network and by what is known of snapshots, to
/// which the journal's are added, and by what a monitor says of it.
pub fn figures_with(
    alloc: Global,
    net: &Network,
    tables: &Tables,
    memos: &mut Memos,
    journal: &Journal,
    complete: bool,
    watched: Option<Watched>,
) -> Result<Figures, NoMemory>
    requires tables { AreTablesOf net.now tables.now }
    requires memos { AreMemos net.now tables.now memos.old.items }
    requires fits { IsJournal net.now journal.now }
    ensures are { IfOk result (λ figures. figures ≡ figures_of net.now journal.now complete
        watched) }
    ensures memos { OnOk result (AreMemos net.now tables.now memos.new.items) }
{
    let used = coverage_with(alloc, net, tables, memos, journal)?;
    let outputs = print_outputs(alloc, net, journal)?;
    let lost = lost_in(alloc, net, journal)?;
    let unused = unused_in(alloc, &used)?;
    let jammed = jammed_in(alloc, &used)?;
    let taken = taken_in(alloc, &used)?;
    Ok(Figures {
        complete,
        outputs,
        lost,
        unused,
        jammed,
        taken,
        watched,
    })
}
