// Laws of the definitions.
ghost use Rattle.run_watch.specs.Laws.{WatchLaws};

/// What follows from the definitions.
pub fn laws()
    ensures { WatchLaws }
{
    journals::laws();
}
