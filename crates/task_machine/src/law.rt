// Laws of the definitions.
ghost use Rattle.task_machine.specs.Laws.{LoweredFits, LoweredComputes, FewSteps};

/// What follows from the definitions for code that is laid out from a graph.
pub fn laws()
    ensures lowered_fits { LoweredFits }
    ensures lowered_computes { LoweredComputes }
    ensures few_steps { FewSteps }
{
    sgraph::laws();
}
