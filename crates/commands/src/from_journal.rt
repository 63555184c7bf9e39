// The commands that save what is to be made of a legal journal.
ghost use Rattle.std.specs.Prelude.{◌≡◌, ◌≤◌, length, IfOk};
ghost use Rattle.polis_base.specs.declared.limits.TheConstants.{ENTRIES_MAX};
ghost use Rattle.journals.specs.Journals.{IsJournal};
ghost use Rattle.journals.specs.Legality.{Legal};
ghost use Rattle.wave_text.specs.Waves.{wave_text};
ghost use Rattle.commands.specs.JournalProducts.{ending_of, from_journal_meaning, saved_of, saving_of, shown_of};
ghost use Rattle.input_files.specs.Loads.{LeftByLoads, fails_unread};
ghost use Rattle.commands.specs.Made.{IsMade};

use crate::judging::{Judged, judge_journal};
use crate::stamp::stamped_text;
use input_files::Detail;
use net_core::Journal;
use output_files::Product;
use polis_base::{Bytes, Host, NoMemory};
use polis_words::{Failure, FromJournal, ReplayStem, print_migrated, print_waved};
use std::alloc::Global;
use transition_table::Network;
use wave_text::push_wave;

// The wave of a journal.
fn print_wave(alloc: Global, net: &Network, journal: &Journal) -> Result<Bytes, NoMemory>
    requires { IsJournal net.now journal.now }
    ensures { IfOk result (λ text. text ≡ wave_text net.now journal.now) }
{
    let mut text = Bytes::new(alloc);
    push_wave(alloc, net, journal, &mut text)?;
    Ok(text)
}

// What a command saves of a journal.
fn print_saved(alloc: Global, kind: FromJournal, judged: &Judged) -> Result<Bytes, NoMemory>
    requires legal { Legal judged.now.inputs.net judged.now.inputs.trace judged.now.read.journal }
    requires few { length judged.now.read.journal ≤ ENTRIES_MAX }
    ensures { IfOk result
        (λ text. text ≡ saved_of kind judged.now.inputs.net judged.now.read.journal
        judged.now.complete) }
{
    let journal = &judged.read.journal;
    match kind {
        FromJournal::Migrate => stamped_text(alloc, &judged.inputs, journal, judged.complete),
        FromJournal::Wave => print_wave(alloc, &judged.inputs.net, journal),
    }
}

// What a command shows of a journal of so many entries.
fn print_shown(alloc: Global, kind: FromJournal, entries: u64) -> Result<Bytes, NoMemory>
    ensures { IfOk result (λ text. text ≡ shown_of kind entries) }
{
    match kind {
        FromJournal::Migrate => print_migrated(alloc, entries),
        FromJournal::Wave => print_waved(alloc, entries),
    }
}

// What stands after the stem.
fn ending(kind: FromJournal) -> &'static str
    ensures { result.now ≡ ending_of kind }
{
    match kind {
        FromJournal::Migrate => ".jnl",
        FromJournal::Wave => ".vcd",
    }
}

// What is saved and shown of a judged journal.
fn product_of(
    alloc: Global,
    kind: FromJournal,
    stem: &str,
    judged: &Judged,
) -> Result<Product, NoMemory>
    requires legal { Legal judged.now.inputs.net judged.now.inputs.trace judged.now.read.journal }
    requires few { length judged.now.read.journal ≤ ENTRIES_MAX }
    ensures { IfOk result
        (λ product. product ≡ saving_of kind stem.now judged.now.inputs.net
        judged.now.read.journal judged.now.complete) }
{
    let text = print_saved(alloc, kind, judged)?;
    let shown = print_shown(alloc, kind, judged.read.journal.len())?;
    let product = Product::saving_one(alloc, stem, ending(kind), text, shown)?;
    Ok(product)
}

/// What a command that saves what is made of a journal makes of the files.
pub fn make_from_journal<'a, H: Host>(
    alloc: Global,
    host: &mut H,
    kind: FromJournal,
    asked: &'a ReplayStem<'_>,
) -> Result<Product, Failure<'a>>
    ensures made { IsMade (from_journal_meaning kind asked.now) (H.files host.old) result }
    ensures left { LeftByLoads ⟦<H as Host>⟧ (fails_unread result) host.old host.new }
{
    let judged = match judge_journal(alloc, host, asked.replay(), Detail::Cause) {
        Ok(judged) => judged,
        Err(failure) => return Err(failure),
    };
    match product_of(alloc, kind, asked.stem(), &judged) {
        Ok(product) => Ok(product),
        Err(NoMemory) => Err(Failure::NoMemory),
    }
}
