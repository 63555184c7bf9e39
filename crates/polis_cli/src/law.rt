// What follows from what a call promises.
ghost use Rattle.polis_cli.specs.Headline.{DrawsGiveHeadline, RunsGiveHeadline};
ghost use Rattle.polis_cli.specs.OneProduct.{JournalsDetermineRun, TextsDetermine};
ghost use Rattle.polis_cli.specs.SurveyRuns.{SurveyRunsAreDrawn};
ghost use Rattle.commands.specs.Run.{AloneIsScheduled, SavesDetermineRun};

/// A run that ends with Done or Limit gives the headline, and a drawn one its own; what one worker
/// runs is the scheduler's journal, and the texts that a run saves determine its journal, with its
/// stamps and whether it is complete, and its compiled machines. What each other command saves and
/// shows is a function of the texts and words that it is made of, and what a run does, but for a
/// line, is one of the network text and the journal. The runs of a survey are those that are drawn
/// one by one.
pub fn laws()
    ensures headline { RunsGiveHeadline }
    ensures drawn { DrawsGiveHeadline }
    ensures alone { AloneIsScheduled }
    ensures determined { SavesDetermineRun }
    ensures of_texts { TextsDetermine }
    ensures of_journal { JournalsDetermineRun }
    ensures survey_runs { SurveyRunsAreDrawn }
{
    journals::laws();
    journal_text::laws();
    run_shuffle::laws();
    run_watch::laws();
    run_survey::laws();
    task_image::laws();
}
