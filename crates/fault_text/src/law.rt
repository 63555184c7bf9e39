// Laws of the definitions.
ghost use Rattle.fault_text.specs.Laws.{OnePlace};

/// What follows from the definitions: two places of a text that have one line and one column are
/// the same.
pub fn laws()
    ensures one_place { OnePlace }
{}
