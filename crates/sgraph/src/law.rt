// Laws of the definitions.
ghost use Rattle.sgraph.specs.Laws.{EdgesOrder, EdgesOnce, EdgesMakeGraph, BuiltIsRight, GraphIsBuilt, GraphIsRight, NumberedGoesOn, FitsByTest};

/// What follows from the definitions.
pub fn laws()
    ensures edges_order { EdgesOrder }
    ensures edges_once { EdgesOnce }
    ensures edges_make_graph { EdgesMakeGraph }
    ensures built_is_right { BuiltIsRight }
    ensures graph_is_built { GraphIsBuilt }
    ensures graph_is_right { GraphIsRight }
    ensures numbered_goes_on { NumberedGoesOn }
    ensures fits_by_test { FitsByTest }
{
    transition_table::laws();
    transition_table::laws_of_computing();
    decision_diagram::laws();
}
