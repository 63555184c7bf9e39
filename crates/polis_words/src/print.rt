// The texts that calls show of runs, of accepted networks and of legal journals.
ghost use Rattle.std.specs.Prelude.{◌≡◌, ◌++◌, codes, decimal, IfOk, OnOk};
ghost use Rattle.polis_base.specs.Lines.{line};
ghost use Rattle.journals.specs.Journals.{IsJournal};
ghost use Rattle.journals.specs.Outputs.{lost};
ghost use Rattle.journal_text.specs.Texts.{count_text};
ghost use Rattle.polis_words.specs.Texts.{drawn_text, summary_text};

mod accepted;
mod found;

pub use accepted::{print_accepted, print_machine_snapshot, print_snapshot};
pub use found::{print_image, print_items, print_legal, print_migrated, print_same, print_waved};
use journal_text::push_count;
use net_core::{Journal, lost};
use polis_base::{Bytes, NoMemory};
use std::alloc::Global;
use transition_table::Network;

// Appends the number of entries and that of the lost deliveries.
fn push_entries(
    alloc: Global,
    net: &Network,
    j: &Journal,
    complete: bool,
    into: &mut Bytes,
) -> Result<(), NoMemory>
    requires { IsJournal net.now j.now }
    ensures { OnOk result (into.new ≡ into.old
        ++ line (codes "entries " ++ count_text j.now complete)
        ++ line (codes "lost " ++ decimal (lost net.now j.now))) }
{
    into.push(b"entries ")?;
    push_count(j, complete, into)?;
    into.push(b"\nlost ")?;
    into.push_decimal(lost(alloc, net, j)?)?;
    into.push(b"\n")
}

// Appends the lengths of the gathered and the adopted journal.
fn push_lengths(gathered: u64, adopted: u64, into: &mut Bytes) -> Result<(), NoMemory>
    ensures { OnOk result (into.new ≡ into.old
        ++ line (codes "gathered " ++ decimal gathered ++ codes " adopted " ++ decimal adopted)) }
{
    into.push(b"gathered ")?;
    into.push_decimal(gathered)?;
    into.push(b" adopted ")?;
    into.push_decimal(adopted)?;
    into.push(b"\n")
}

/// What `shuffle` shows: the number of entries, and the lost deliveries.
pub fn print_drawn(
    alloc: Global,
    net: &Network,
    j: &Journal,
    complete: bool,
) -> Result<Bytes, NoMemory>
    requires { IsJournal net.now j.now }
    ensures { IfOk result (λ text. text ≡ drawn_text net.now j.now complete) }
{
    let mut text = Bytes::new(alloc);
    push_entries(alloc, net, j, complete, &mut text)?;
    Ok(text)
}

/// What `run` shows: the number of entries, the lost deliveries, and the lengths of the gathered
/// and the adopted journal.
pub fn print_summary(
    alloc: Global,
    net: &Network,
    j: &Journal,
    complete: bool,
    gathered: u64,
    adopted: u64,
) -> Result<Bytes, NoMemory>
    requires { IsJournal net.now j.now }
    ensures { IfOk result (λ text. text ≡ summary_text net.now j.now complete gathered adopted) }
{
    let mut text = Bytes::new(alloc);
    push_entries(alloc, net, j, complete, &mut text)?;
    push_lengths(gathered, adopted, &mut text)?;
    Ok(text)
}
