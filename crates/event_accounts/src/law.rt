// Laws of the definitions.
ghost use Rattle.event_accounts.specs.Laws.{AccountLaws};

/// What follows from the definitions.
pub fn laws()
    ensures { AccountLaws }
{}
