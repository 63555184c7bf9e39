// Laws of the definitions.
ghost use Rattle.decision_diagram.specs.Laws.{CountIsSize, SizeBySets, SomewhereTrue, ReachedLed, OneChild};

/// What follows from the definitions.
pub fn laws()
    ensures count_is_size { CountIsSize }
    ensures size_by_sets { SizeBySets }
    ensures somewhere_true { SomewhereTrue }
    ensures reached_led { ReachedLed }
    ensures one_child { OneChild }
{}
