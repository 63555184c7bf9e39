// Worked rows: sizes of small functions.
ghost use Rattle.decision_diagram.specs.Worked.{KnownSizes};

/// Sizes that were worked out by hand are what the definition gives.
pub fn worked_sizes()
    ensures { KnownSizes }
{}
