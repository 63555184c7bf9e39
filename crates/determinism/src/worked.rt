// A worked machine: what the definitions say of it.
ghost use Rattle.std.specs.Prelude.{[], ◌∷◌};
ghost use Rattle.transition_table.specs.samples.Clash.{clash_machine};
ghost use Rattle.transition_table.specs.samples.Twice.{differing_machine};
ghost use Rattle.transition_table.specs.Transitions.{reading};
ghost use Rattle.determinism.specs.Conflicts.{IsLeastConflict};

use transition_table::worked_rows;

/// The least conflict of a machine whose first and third row conflict where both of its inputs are
/// present, and of one whose rows emit the value that is read and the value 0 where the value 1 is
/// read.
pub fn worked_conflict()
    ensures clash { IsLeastConflict clash_machine 0 2 (reading (1 ∷ 1 ∷ [])) }
    ensures differing { IsLeastConflict differing_machine 0 1 (reading (2 ∷ [])) }
{
    worked_rows();
}
