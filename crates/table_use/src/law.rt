// Laws of the definitions.
ghost use Rattle.table_use.specs.Laws.{UseLaws};

/// What follows from the definitions.
pub fn laws()
    ensures { UseLaws }
{}
