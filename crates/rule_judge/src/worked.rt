// Worked texts: what the definitions say of them.
ghost use Rattle.rule_judge.specs.Samples.{AreJudged, samples};

/// The first rule that each text breaks, with the place that is shown, or that it breaks none.
pub fn worked_rules()
    ensures { AreJudged samples }
{}
