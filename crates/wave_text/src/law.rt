// Laws of the definitions.
ghost use Rattle.wave_text.specs.Laws.{WaveLaws};

/// What follows from the definitions.
pub fn laws()
    ensures { WaveLaws }
{}
