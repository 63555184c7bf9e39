// Laws of the definitions.
ghost use Rattle.sgraph_opt.specs.Laws.{OneGraph};

/// What follows from the definitions: a deterministic machine has one graph at most in an allowed
/// order that is reduced, numbered and without assignments of the code 0.
pub fn laws()
    ensures one_graph { OneGraph }
{}
