// Laws of the definitions.
ghost use Rattle.task_image.specs.Laws.{ImageLaws};

/// What follows from the definitions of an image's bytes and of the place of a fault.
pub fn laws()
    ensures { ImageLaws }
{}
