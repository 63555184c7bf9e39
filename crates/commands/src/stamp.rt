// Journals with their least stamps.
ghost use Rattle.std.specs.Prelude.{◌≡◌, ◌≤◌, length, IfOk};
ghost use Rattle.polis_base.specs.declared.limits.TheConstants.{ENTRIES_MAX};
ghost use Rattle.journals.specs.Legality.{Legal};
ghost use Rattle.journals.specs.Stamps.{least};
ghost use Rattle.journal_text.specs.Texts.{stamped_journal_text};

use input_files::Inputs;
use journal_text::print_journal;
use net_core::{Journal, least_stamps};
use polis_base::{Bytes, NoMemory};
use std::alloc::Global;

/// The text of a legal journal with its least stamps.
pub fn stamped_text(
    alloc: Global,
    inputs: &Inputs,
    journal: &Journal,
    complete: bool,
) -> Result<Bytes, NoMemory>
    requires legal { Legal inputs.now.net inputs.now.trace journal.now }
    requires few { length journal.now ≤ ENTRIES_MAX }
    ensures { IfOk result (λ text. text
        ≡ stamped_journal_text inputs.now.net journal.now (least inputs.now.net journal.now)
        complete) }
{
    let stamps = least_stamps(alloc, &inputs.net, &inputs.trace, journal)?;
    print_journal(alloc, &inputs.net, journal, &stamps, complete)
}
