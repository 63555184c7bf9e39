// Laws of the definitions.
ghost use Rattle.run_survey.specs.Laws.{OneFigures, OneText};

/// What follows from the definitions.
pub fn laws()
    ensures figures { OneFigures }
    ensures text { OneText }
{
    run_shuffle::laws();
    run_watch::laws();
}
