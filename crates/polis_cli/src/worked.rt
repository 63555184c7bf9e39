// What the definitions say of a whole call on the lamp, and of its texts.
ghost use Rattle.std.specs.Prelude.{◌≡◌, true, List, [], ◌∷◌, codes, Some, Ok};
ghost use Rattle.polis_base.specs.Lines.{line};
ghost use Rattle.journals.specs.Samples.{lamp, press, lamp_run};
ghost use Rattle.journals.specs.Stamps.{least};
ghost use Rattle.trace_text.specs.Traces.{trace_of};
ghost use Rattle.task_code.specs.Listings.{Part, ListingText};
ghost use Rattle.task_code.specs.SampleCodes.{small_part, small_listing};
ghost use Rattle.machine_compiler.specs.Parts.{AreRightParts};
ghost use Rattle.machine_compiler.specs.Lines.{lengths_text, tries_text};
ghost use Rattle.polis_cli.specs.Samples.{press_text, lamp_journal, lamp_summary, lamp_line, lamp_lengths};
ghost use Rattle.polis_cli.specs.LampRun.{lamp_words, files_before, files_after, lamp_shown};
ghost use Rattle.polis_words.specs.Texts.{summary_text};
ghost use Rattle.journal_text.specs.Texts.{stamped_journal_text, output_text};
ghost use Rattle.polis_cli.specs.Top.{MadeAndWritten};

use polis_words::Status;

/// What the top call promises of what it writes holds of the lamp on one press, whatever right
/// parts its machine was compiled to. No clause exhibits such parts.
pub fn worked_run()
    ensures { (parts : List Part) → AreRightParts lamp parts
        → MadeAndWritten Status.Done lamp_words files_before (files_after parts) (Some [])
        (Some (lamp_shown parts)) }
{
    net_core::worked_rows();
    net_reader::worked_texts();
    net_rules::worked_network();
    transition_table::laws();
}

/// The trace of one press, and what a run and a compilation of the lamp save and show.
pub fn worked_texts()
    ensures trace { trace_of lamp press_text ≡ Ok press }
    ensures journal { stamped_journal_text lamp lamp_run (least lamp lamp_run) true ≡ lamp_journal }
    ensures outputs { output_text lamp lamp_run ≡ line (codes "light") }
    ensures summary { summary_text lamp lamp_run true 0 0 ≡ lamp_summary }
    ensures listing { ListingText lamp (small_part ∷ []) ≡ small_listing }
    ensures tries { tries_text lamp (small_part ∷ []) lamp_run ≡ lamp_line }
    ensures lengths { lengths_text lamp (small_part ∷ []) ≡ lamp_lengths }
{}
