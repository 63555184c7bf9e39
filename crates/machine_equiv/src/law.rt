// Laws of the definitions.
ghost use Rattle.machine_equiv.specs.Laws.{ComparisonLaws};

/// What follows from the definitions.
pub fn laws()
    ensures { ComparisonLaws }
{}
